// A reader of bits from bytes, most significant first. A byte is taken whole, and what is not asked for yet is held. The writer's BitWriter has fields of
// the same names, but holds what is not stored yet: the two share the steps of bit_fields alone.
ghost use Rattle.std.specs.Prelude.{◌≡◌, ◌-◌, ◌≤◌, ◌<◌, length};
ghost use Rattle.bit_fields.specs.Fields.{joined};
ghost use Rattle.bit_string.specs.Bits.{unpacked};
ghost use Rattle.side_info_reading.specs.Taken.{number_taken};
ghost use Rattle.side_info_reader.specs.Errors.{taken_by};

use crate::ReadError;
use std::marker::Model;

// Kept: the index beside its slice; a slice of what is still to come would lose how many bytes are taken, which `bits_used` answers.
#[derive(Drop)]
pub struct BitReader<'a> {
    bytes: &'a [u8],
    // How many bytes are taken.
    at: usize,
    // The bits held, fewer than eight, and their number.
    held: u32,
    count: u32,
}

// Clauses see all bits, and those that are ahead.
impl<'a> Model for BitReader<'a> {
    ghost use Rattle.side_info_reader.specs.Ahead.{Ahead};

    ghost Value = { Ahead };

    ghost use Rattle.side_info_reader.specs.BitReader.{bits_ahead, Steady};

    ghost view = { bits_ahead };

    ghost invariant = { Steady };
}

impl<'a> BitReader<'a> {
    // Nothing is taken.
    pub fn new(bytes: &'a [u8]) -> BitReader<'a>
        ensures all { result.all ≡ unpacked bytes.now }
        ensures ahead { result.ahead ≡ unpacked bytes.now }
    {
        BitReader {
            bytes,
            at: 0,
            held: 0,
            count: 0,
        }
    }

    // The number in the next `width` bits; an error takes nothing.
    pub fn take(&mut self, width: u32) -> Result<u32, ReadError>
        requires { width ≤ 8 }
        ensures taken { taken_by result self.new.ahead ≡ number_taken width self.old.ahead }
        ensures all { self.new.all ≡ self.old.all }
    {
        let mut held = self.held;
        let mut count = self.count;
        if count < width {
            let Some(byte) = self.bytes.get(self.at) else {
                return Err(ReadError::EndOfBytes);
            };
            held = with_byte(held, *byte);
            count += 8;
            self.at += 1;
        }
        let rest = count - width;
        self.held = bit_fields::below(held, rest);
        self.count = rest;
        Ok(bit_fields::above(held, rest))
    }

    // How many bits are taken.
    pub fn bits_used(&self) -> u32
        requires { length self.now.all - length self.now.ahead ≤ 1392 }
        ensures { result ≡ length self.now.all - length self.now.ahead }
    {
        8 * (self.at as u32) - self.count
    }
}

// A byte behind bits that are held; by value, so that it is known to be below 256.
fn with_byte(held: u32, byte: u8) -> u32
    ensures whole { result ≡ joined held byte 8 }
    ensures byte { byte < 256 }
{
    bit_fields::beside(held, u32::from(byte), 8)
}
