// The frame header of ISO/IEC 11172-3 2.4.1.3, as far as the encoder's decisions read it, and the size of its frame.
#![tactic(auto)]

ghost use Rattle.std.specs.Prelude.{◌≡◌};
ghost use Rattle.header.specs.Header.{ModeNamed, ExtensionNamed, free_format, ChannelsAre, BoundIs, SizeIs};

// The channel mode (2.4.2.3).
#[derive(Clone, Copy, Debug, PartialEq, Eq)]
pub enum Mode {
    Stereo,
    JointStereo,
    DualChannel,
    SingleChannel,
}

// A code that names no mode.
#[derive(Clone, Copy, Debug, PartialEq, Eq)]
pub struct UnknownMode(pub u64);

// The mode of a code of two bits.
// Kept: here and for `ModeExtension`: std makes no enum of a number, and one generic over both would need the variants of each as a list besides.
impl TryFrom<u64> for Mode {
    type Error = UnknownMode;

    ghost try_from_gives = { ModeNamed };

    fn try_from(code: u64) -> Result<Self, UnknownMode> {
        match code {
            0 => Ok(Mode::Stereo),
            1 => Ok(Mode::JointStereo),
            2 => Ok(Mode::DualChannel),
            3 => Ok(Mode::SingleChannel),
            _ => Err(UnknownMode(code)),
        }
    }
}

impl Mode {
    // How many channels the mode has.
    // Kept: each mode with its count, as 2.4.2.3 lists them; no rule makes the count from the code.
    pub fn channels(self) -> usize
        ensures { ChannelsAre self result }
    {
        match self {
            Mode::Stereo => 2,
            Mode::JointStereo => 2,
            Mode::DualChannel => 2,
            Mode::SingleChannel => 1,
        }
    }
}

// The mode extension (2.4.2.3): in joint stereo, from which subband on the two channels share their samples.
#[derive(Clone, Copy, Debug, PartialEq, Eq)]
pub enum ModeExtension {
    Bound4 = 4,
    Bound8 = 8,
    Bound12 = 12,
    Bound16 = 16,
}

// A code that names no mode extension.
#[derive(Clone, Copy, Debug, PartialEq, Eq)]
pub struct UnknownExtension(pub u64);

// The mode extension of a code of two bits.
impl TryFrom<u64> for ModeExtension {
    type Error = UnknownExtension;

    ghost try_from_gives = { ExtensionNamed };

    fn try_from(code: u64) -> Result<Self, UnknownExtension> {
        match code {
            0 => Ok(ModeExtension::Bound4),
            1 => Ok(ModeExtension::Bound8),
            2 => Ok(ModeExtension::Bound12),
            3 => Ok(ModeExtension::Bound16),
            _ => Err(UnknownExtension(code)),
        }
    }
}

impl ModeExtension {
    // The subband that the extension names.
    pub fn bound(self) -> usize
        ensures { BoundIs self result }
    {
        self as usize
    }
}

// The fields that a decision reads. Any values make a header; what an entry serves it asks itself.
#[derive(Clone, Copy)]
pub struct FrameHeader {
    // The low sampling frequencies of ISO/IEC 13818-3.
    pub lsf: bool,
    // In bit/s; 0 is free format.
    pub bit_rate: u32,
    // In Hz.
    pub sample_rate: u32,
    pub padding: bool,
    pub mode: Mode,
    pub mode_extension: ModeExtension,
    // As on the wire: true where no CRC follows the header.
    pub protection_bit: bool,
}

impl FrameHeader {
    // The length of the frame in bytes (2.4.3.1; a slot of Layer II is one byte); none at a sample rate of 0.
    pub fn frame_size_bytes(self) -> Option<u64>
        ensures { SizeIs self result }
    {
        let slots = (144 * u64::from(self.bit_rate)).checked_div(u64::from(self.sample_rate))?;
        Some(slots + u64::from(self.padding))
    }

    // Whether the bit rate is not named by the header (2.4.2.3, bitrate_index '0000').
    pub fn is_free_format(self) -> bool
        ensures { result ≡ free_format self }
    {
        self.bit_rate == 0
    }

    pub fn channels(self) -> usize
        ensures { ChannelsAre self.mode result }
    {
        let mode = self.mode;
        mode.channels()
    }
}
