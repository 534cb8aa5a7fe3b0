// The lines above and below the rows.
ghost use Rattle.std.specs.Prelude.{◌≡◌, ◌++◌, ◌≤◌, length};
ghost use Rattle.text_line.specs.Line.{text_of, cut};
ghost use Rattle.plan_lines.specs.Lines.{table_text, limits_text, frame_line, free_line, label_text, bits_line, balance_text, demand_line};

use bitalloc::BitAllocTable;
use encoder_bit_budget::FixedBitBudget;
use text_line::Line;

pub fn frame_line(b: FixedBitBudget) -> Line
    ensures { text_of result ≡ frame_line b }
{
    let line = Line::new()
        .text(b"frame   ")
        .number_in(6, (b.cb / 8) as u64)
        .text(b" bytes, table ")
        .text(table_name(b.table));
    limits(line, b.sblimit, b.bound)
}

// In free format, where the header does not tell the frame's size.
pub fn free_line(b: FixedBitBudget) -> Line
    ensures { text_of result ≡ free_line b }
{
    let line = Line::new()
        .text(b"frame   free format, table ")
        .text(table_name(b.table));
    limits(line, b.sblimit, b.bound)
}

// Kept: one text for each table; a `Display` would be the same match, and a line takes bytes.
fn table_name(table: BitAllocTable) -> &'static [u8]
    ensures { result.now ≡ table_text table }
{
    match table {
        BitAllocTable::B2a => b"B2a",
        BitAllocTable::B2b => b"B2b",
        BitAllocTable::B2c => b"B2c",
        BitAllocTable::B2d => b"B2d",
        BitAllocTable::B1Lsf => b"B1",
    }
}

fn limits(line: Line, sblimit: usize, bound: usize) -> Line
    ensures { text_of result ≡ cut (text_of line ++ limits_text sblimit bound) }
{
    line.text(b", sblimit ")
        .number(sblimit as u64)
        .text(b", bound ")
        .number(bound as u64)
}

// What a number of bits is of: those that are fixed, those that are offered to scalefactors and samples, those that the signal asks for, those that
// the allocation spends, those that it leaves, and those that a frame's side information takes.
#[derive(Clone, Copy, Debug, PartialEq, Eq)]
pub enum Label {
    Fixed,
    Offered,
    Demand,
    Charged,
    Left,
    Used,
}

impl Label {
    // Kept: one text for each label, as for the tables; a `Display` would be the same match, and a line takes bytes.
    fn bytes(self) -> &'static [u8]
        ensures { result.now ≡ label_text self }
    {
        match self {
            Label::Fixed => b"fixed   ",
            Label::Offered => b"offered ",
            Label::Demand => b"demand  ",
            Label::Charged => b"charged ",
            Label::Left => b"left    ",
            Label::Used => b"used    ",
        }
    }
}

// A number of bits behind its label.
pub fn bits_line(label: Label, n: u64) -> Line
    ensures { text_of result ≡ bits_line (label_text label) n }
{
    labelled_bits(label.bytes(), n)
}

// A number of bits behind any label that is as short.
fn labelled_bits(label: &[u8], n: u64) -> Line
    requires { length label.now ≤ 8 }
    ensures { text_of result ≡ bits_line label.now n }
{
    Line::new().text(label).number_in(6, n).text(b" bits")
}

pub fn demand_line(demand: u64, offered: u64) -> Line
    ensures { text_of result ≡ demand_line demand offered }
{
    balance(bits_line(Label::Demand, demand), demand, offered)
}

fn balance(line: Line, demand: u64, offered: u64) -> Line
    ensures { text_of result ≡ cut (text_of line ++ balance_text demand offered) }
{
    if demand <= offered {
        line.text(b", enough")
    } else {
        line.text(b", short by ")
            .number(demand - offered)
            .text(b" bits")
    }
}
