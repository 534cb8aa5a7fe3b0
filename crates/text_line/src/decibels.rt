// Figures in decibels, to the hundredth.
ghost use Rattle.std.specs.Prelude.{◌≡◌, cond, ◌++◌};
ghost use Rattle.plan_text.specs.Quoted.{text};
ghost use Rattle.text_line.specs.Line.{text_of, cut, aligned};
ghost use Rattle.text_line.specs.Decibels.{minus_text, hundredths_of, hundredths_text, finite_text, decibels_text};

use crate::Line;

// 100,000 dB, from which on no digits are shown, in hundredths.
const LIMIT: u64 = 10_000_000;

impl Line {
    // With a figure in decibels behind, to the hundredth.
    pub fn decibels(self, x: f64) -> Line
        ensures { text_of result ≡ cut (text_of self ++ decibels_text x) }
    {
        let magnitude = ieee_order::abs(x);
        if magnitude < f64::INFINITY {
            self.finite(x < 0.0, hundredths(magnitude))
        } else if magnitude == f64::INFINITY {
            self.minus(x < 0.0).text(b"inf")
        } else {
            self.text(b"nan")
        }
    }

    // With a figure in decibels behind, at the right of a column.
    pub fn decibels_in(self, width: usize, x: f64) -> Line
        ensures { text_of result ≡ cut (text_of self ++ aligned width (decibels_text x)) }
    {
        self.aligned(width, Line::new().decibels(x))
    }

    // With a finite figure behind, from whether it is below 0 and its hundredths.
    fn finite(self, below: bool, hundredths: u64) -> Line
        ensures { text_of result ≡ cut (text_of self ++ finite_text below hundredths) }
    {
        if hundredths < LIMIT {
            self.minus(below && 0 < hundredths).fixed(hundredths)
        } else {
            self.beyond(below)
        }
    }

    // With a number of hundredths behind.
    // Kept: the part has always two digits, which itoa does not give; `write!` would promise them only where it answers `Ok`.
    fn fixed(self, hundredths: u64) -> Line
        ensures { text_of result ≡ cut (text_of self ++ hundredths_text hundredths) }
    {
        let part = (hundredths % 100) as u8;
        let digits = [b'0' + part / 10, b'0' + part % 10];
        self.number(hundredths / 100).text(b".").text(&digits)
    }

    // With what stands for a figure of too many digits behind.
    fn beyond(self, below: bool) -> Line
        ensures { text_of result ≡ cut (text_of self ++ cond below (text "<-99999") (text ">99999")) }
    {
        self.text(if below { b"<-99999" } else { b">99999" })
    }

    // With a minus sign behind, or nothing.
    fn minus(self, below: bool) -> Line
        ensures { text_of result ≡ cut (text_of self ++ minus_text below) }
    {
        self.text(if below { b"-" } else { b"" })
    }
}

// 100 times a magnitude, in one rounding, as the nearest whole number, halves up, at most 2^32; 0 for a NaN.
fn hundredths(magnitude: f64) -> u64
    ensures { result ≡ hundredths_of magnitude }
{
    encoder_samples::nearest_whole(magnitude * 100.0)
}
