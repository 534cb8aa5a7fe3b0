// Reading the words of a command line: a frame header and the ancillary bits.
#![tactic(auto)]

ghost use Rattle.std.specs.Prelude.{◌≡◌};
ghost use Rattle.plan_words.specs.Word.{number_word, meaning, number, value_after};
ghost use Rattle.plan_words.specs.Line.{once, words_of, finished};

use header::{FrameHeader, Mode, ModeExtension};

// What a word sets.
#[derive(Clone, Copy)]
enum Setting {
    // fs=
    SampleRate(u32),
    // rate=
    BitRate(u32),
    // mode=
    Channels(Mode),
    // bound=
    Bound(ModeExtension),
    // lsf=
    Lsf(bool),
    // padding=
    Padding(bool),
    // crc=
    Crc(bool),
    // ancillary=
    Ancillary(u32),
}

// The words that stand for themselves, and what each of them sets.
const NAMED: [(&[u8], Setting); 14] = [
    (b"mode=stereo", Setting::Channels(Mode::Stereo)),
    (b"mode=joint", Setting::Channels(Mode::JointStereo)),
    (b"mode=dual", Setting::Channels(Mode::DualChannel)),
    (b"mode=single", Setting::Channels(Mode::SingleChannel)),
    (b"bound=4", Setting::Bound(ModeExtension::Bound4)),
    (b"bound=8", Setting::Bound(ModeExtension::Bound8)),
    (b"bound=12", Setting::Bound(ModeExtension::Bound12)),
    (b"bound=16", Setting::Bound(ModeExtension::Bound16)),
    (b"lsf=0", Setting::Lsf(false)),
    (b"lsf=1", Setting::Lsf(true)),
    (b"padding=0", Setting::Padding(false)),
    (b"padding=1", Setting::Padding(true)),
    (b"crc=0", Setting::Crc(false)),
    (b"crc=1", Setting::Crc(true)),
];

// What a word means; nothing where it is not known, or its value cannot be read.
fn read_word(word: &[u8]) -> Option<Setting>
    ensures { result ≡ meaning word.now }
{
    plan_text::look_up(&NAMED, word).or(number_word(word))
}

// The words with a number.
fn number_word(word: &[u8]) -> Option<Setting>
    ensures { result ≡ number_word word.now }
{
    let sample_rate = value_after(word, b"fs=").map(Setting::SampleRate);
    let bit_rate = value_after(word, b"rate=").map(Setting::BitRate);
    let ancillary = value_after(word, b"ancillary=").map(Setting::Ancillary);
    sample_rate.or(bit_rate).or(ancillary)
}

// The number behind a key that the word starts with.
fn value_after(word: &[u8], key: &[u8]) -> Option<u32>
    ensures { result ≡ value_after key.now word.now }
{
    read_number(word.strip_prefix(key)?)
}

// A number of 32 bits in decimal digits.
fn read_number(text: &[u8]) -> Option<u32>
    ensures { result ≡ number text.now }
{
    if text.is_empty() {
        return None;
    }
    u32::try_from(plan_text::read_digits(text)?).ok()
}

// Where a word stands on the line: from `at` to before `end`.
// Kept: a place and not the word's slice: `words_of` and `words_line`, the definitions, give the place, and an error that lends the words would need a lifetime.
#[derive(Clone, Copy, Debug, PartialEq, Eq)]
pub struct WordPlace {
    pub at: usize,
    pub end: usize,
}

// Why `read_words` refuses.
#[derive(Clone, Copy, Debug, PartialEq, Eq)]
pub enum WordsError {
    // A word that is not known, or whose value cannot be read.
    Unknown(WordPlace),
    // A key that was given before.
    Twice(WordPlace),
    // No word gives fs.
    NoSampleRate,
    // No word gives the rate.
    NoBitRate,
}

// The header and the ancillary bits of a command line.
// Kept: `Request` has the same two fields, but is of encoder_bit_budget, a crate that reading words does not need.
#[derive(Clone, Copy)]
pub struct Words {
    pub header: FrameHeader,
    pub banc: u32,
}

// The words of a command line, each ended by a byte 0.
pub fn read_words(words: &[u8]) -> Result<Words, WordsError>
    ensures { result ≡ words_of words.now }
{
    let mut settings = Settings::default();
    let mut at = 0;
    // Kept: a refusal names the place of its word; with `split_inclusive` the place is still added up by hand, and the byte 0 is to be taken off each word.
    while at < words.len() {
        let end = plan_text::find_byte(words, at, 0);
        let place = WordPlace { at, end };
        let setting = read_word(&words[at..end]).ok_or(WordsError::Unknown(place))?;
        settings = settings.with(setting).ok_or(WordsError::Twice(place))?;
        at = plan_text::past(end, words.len());
    }
    settings.finished()
}

// What the words before have set.
#[derive(Clone, Copy, Default)]
struct Settings {
    sample_rate: Option<u32>,
    bit_rate: Option<u32>,
    mode: Option<Mode>,
    bound: Option<ModeExtension>,
    lsf: Option<bool>,
    padding: Option<bool>,
    crc: Option<bool>,
    ancillary: Option<u32>,
}

impl Settings {
    // With one more setting; nothing where a word before gave its key.
    fn with(mut self, setting: Setting) -> Option<Settings>
        ensures { result ≡ once self setting }
    {
        let given = match setting {
            Setting::SampleRate(n) => self.sample_rate.replace(n).is_some(),
            Setting::BitRate(n) => self.bit_rate.replace(n).is_some(),
            Setting::Channels(mode) => self.mode.replace(mode).is_some(),
            Setting::Bound(bound) => self.bound.replace(bound).is_some(),
            Setting::Lsf(on) => self.lsf.replace(on).is_some(),
            Setting::Padding(on) => self.padding.replace(on).is_some(),
            Setting::Crc(on) => self.crc.replace(on).is_some(),
            Setting::Ancillary(n) => self.ancillary.replace(n).is_some(),
        };
        if given { None } else { Some(self) }
    }

    // The answer behind the last word.
    fn finished(self) -> Result<Words, WordsError>
        ensures { result ≡ finished self }
    {
        let sample_rate = self.sample_rate.ok_or(WordsError::NoSampleRate)?;
        let bit_rate = self.bit_rate.ok_or(WordsError::NoBitRate)?;
        let header = FrameHeader {
            lsf: self.lsf.unwrap_or(false),
            bit_rate,
            sample_rate,
            padding: self.padding.unwrap_or(false),
            mode: self.mode.unwrap_or(Mode::Stereo),
            mode_extension: self.bound.unwrap_or(ModeExtension::Bound4),
            protection_bit: !self.crc.unwrap_or(false),
        };
        Ok(Words {
            header,
            banc: self.ancillary.unwrap_or(0),
        })
    }
}
