// A writer of bits into bytes, most significant first. It never reads a byte back: bits are held until there are eight of them.
ghost use Rattle.std.specs.Prelude.{◌≡◌, ◌+◌, ◌^◌, ◌≤◌, ◌<◌, [], ◌++◌, length};
ghost use Rattle.bit_string.specs.Bits.{bits_of, packed};

use crate::SIDE_INFO_BYTES;
use std::marker::Model;

// Kept: nothing is allocated, so that the bytes have room for the longest side information, and the number of full ones stands beside them.
#[derive(Drop)]
pub struct BitWriter {
    bytes: [u8; SIDE_INFO_BYTES],
    // How many bytes are full.
    at: usize,
    // The bits held, fewer than eight, and their number.
    held: u32,
    count: u32,
}

// Clauses see the bits that are written.
impl Model for BitWriter {
    ghost use Rattle.std.specs.Prelude.{Bool, List};

    ghost Value = { List Bool };

    ghost use Rattle.side_info_writer.specs.BitWriter.{bits_written, Steady};

    ghost view = { bits_written };

    ghost invariant = { Steady };
}

impl BitWriter {
    // Nothing is written.
    pub fn new() -> BitWriter
        ensures { result ≡ [] }
    {
        BitWriter {
            bytes: [0; SIDE_INFO_BYTES],
            at: 0,
            held: 0,
            count: 0,
        }
    }

    // A number in `width` bits behind what is written.
    // Kept: std has no writer of bits, and what `Vec` has for bytes allocates.
    pub fn put(&mut self, value: u32, width: u32)
        requires { (width ≤ 8) × (value < 2 ^ width) × (length self.old + width ≤ 1392) }
        ensures { self.new ≡ self.old ++ bits_of width value }
    {
        let held = bit_fields::beside(self.held, value, width);
        let count = self.count + width;
        if count < 8 {
            self.held = held;
            self.count = count;
            return;
        }
        let rest = count - 8;
        self.bytes[self.at] = bit_fields::above(held, rest) as u8;
        self.at += 1;
        self.held = bit_fields::below(held, rest);
        self.count = rest;
    }

    // How many bits are written.
    pub fn bits_used(&self) -> u32
        ensures { result ≡ length self.now }
    {
        8 * (self.at as u32) + self.count
    }

    // The bytes: the bits still held at the head of the last one, and zeros behind them.
    pub fn bytes(&self) -> [u8; SIDE_INFO_BYTES]
        ensures { result ≡ packed 174 self.now }
    {
        let mut bytes = self.bytes;
        if 0 < self.count {
            bytes[self.at] = bit_fields::beside(self.held, 0, 8 - self.count) as u8;
        }
        bytes
    }
}
