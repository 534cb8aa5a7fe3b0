// Which bit rates a header can name: bitrate_index in ISO/IEC 11172-3 2.4.2.3 and ISO/IEC 13818-3 2.4.2.3, Layer II.
#![tactic(auto)]

ghost use Rattle.std.specs.Prelude.{◌≡◌};
ghost use Rattle.ladder.specs.Ladder.{ladder_of, bit_rates, on_ladder};

use header::FrameHeader;

// The rates of ISO/IEC 11172-3.
static LADDER: [u32; 14] = [
    32_000, 48_000, 56_000, 64_000, 80_000, 96_000, 112_000, 128_000, 160_000, 192_000, 224_000,
    256_000, 320_000, 384_000,
];

// The rates of ISO/IEC 13818-3, low sampling frequencies.
static LSF_LADDER: [u32; 14] = [
    8_000, 16_000, 24_000, 32_000, 40_000, 48_000, 56_000, 64_000, 80_000, 96_000, 112_000,
    128_000, 144_000, 160_000,
];

// Whether the header's bit rate is one that it can name, or 0, which is free format.
pub fn on_ladder(header: FrameHeader) -> bool
    ensures { result ≡ on_ladder header }
{
    header.is_free_format() || ladder_of(header.lsf).contains(&header.bit_rate)
}

// The rates that a header can name, by its LSF flag.
fn ladder_of(lsf: bool) -> &'static [u32; 14]
    ensures { result.now ≡ bit_rates (ladder_of lsf) }
{
    if lsf { &LSF_LADDER } else { &LADDER }
}
