// The rows that show side information, one for each active slot.
#![tactic(auto)]

ghost use Rattle.std.specs.Prelude.{◌≡◌, ◌++◌, get_or};
ghost use Rattle.tables.specs.Scalefactors.{printed};
ghost use Rattle.text_line.specs.Line.{text_of, cut};
ghost use Rattle.side_rows.specs.Rows.{three_in, heading_line, row_start, indices_text, multiplier_column, row_line};
ghost use Rattle.side_rows.specs.Printed.{Spelled};

use text_line::Line;

pub fn heading() -> Line
    ensures { text_of result ≡ heading_line }
{
    Line::new().text(b"subband  channel  steps  scfsi       indices  multipliers")
}

// The row of a slot, from its steps, the code of its scfsi and the scalefactor indices of its granules.
// Kept: the code and no `Scfsi`: the row prints the number, as the definition `row_line` takes it.
pub fn row_line(slot: usize, nb_steps: u32, code: u8, index: [u8; 3]) -> Line
    ensures { text_of result ≡ row_line slot nb_steps code (three_in index) }
{
    let line = indices(row_start(slot, nb_steps, code), index);
    let [first, second, third] = index;
    multiplier(multiplier(multiplier(line, first), second), third)
}

fn row_start(slot: usize, nb_steps: u32, code: u8) -> Line
    ensures { text_of result ≡ cut (row_start slot nb_steps code) }
{
    Line::new()
        .number_in(7, (slot % 32) as u64)
        .number_in(9, (slot / 32) as u64)
        .number_in(7, nb_steps as u64)
        .number_in(7, code as u64)
}

fn indices(line: Line, index: [u8; 3]) -> Line
    ensures { text_of result ≡ cut (text_of line ++ indices_text (three_in index)) }
{
    let [first, second, third] = index;
    line.number_in(6, first as u64)
        .number_in(4, second as u64)
        .number_in(4, third as u64)
}

// The multiplier of an index, two spaces before it.
fn multiplier(line: Line, index: u8) -> Line
    ensures { text_of result ≡ cut (text_of line ++ multiplier_column index) }
{
    let digits = spelled(printed_at(index));
    let (whole, places) = digits.split_at(1);
    line.text(b"  ").text(whole).text(b".").text(places)
}

// The last 15 decimal digits of a number.
// Kept: there are always 15, with zeros in front, which itoa does not give; `write!` promises its text only where it answers `Ok`.
fn spelled(n: u64) -> [u8; 15]
    ensures { Spelled n result }
{
    let mut digits = [0u8; 15];
    let mut rest = n;
    for i in (0..15).rev() {
        digits[i] = b'0' + (rest % 10) as u8;
        rest /= 10;
    }
    digits
}

// The multiplier of an index in units of 10^-14; 0 where Table 3-B.1 has none.
fn printed_at(index: u8) -> u64
    ensures { result ≡ get_or printed index 0 }
{
    let table = printed();
    table.get(usize::from(index)).copied().unwrap_or(0)
}

// The multipliers of Table 3-B.1, in units of 10^-14. The underscore stands where the standard prints the decimal comma.
fn printed() -> [u64; 63]
    ensures { result ≡ printed }
{
    PRINTED
}

const PRINTED: [u64; 63] = [
    2_00000000000000,
    1_58740105196820,
    1_25992104989487,
    1_00000000000000,
    0_79370052598410,
    0_62996052494744,
    0_50000000000000,
    0_39685026299205,
    0_31498026247372,
    0_25000000000000,
    0_19842513149602,
    0_15749013123686,
    0_12500000000000,
    0_09921256574801,
    0_07874506561843,
    0_06250000000000,
    0_04960628287401,
    0_03937253280921,
    0_03125000000000,
    0_02480314143700,
    0_01968626640461,
    0_01562500000000,
    0_01240157071850,
    0_00984313320230,
    0_00781250000000,
    0_00620078535925,
    0_00492156660115,
    0_00390625000000,
    0_00310039267963,
    0_00246078330058,
    0_00195312500000,
    0_00155019633981,
    0_00123039165029,
    0_00097656250000,
    0_00077509816991,
    0_00061519582514,
    0_00048828125000,
    0_00038754908495,
    0_00030759791257,
    0_00024414062500,
    0_00019377454248,
    0_00015379895629,
    0_00012207031250,
    0_00009688727124,
    0_00007689947814,
    0_00006103515625,
    0_00004844363562,
    0_00003844973907,
    0_00003051757813,
    0_00002422181781,
    0_00001922486954,
    0_00001525878906,
    0_00001211090890,
    0_00000961243477,
    0_00000762939453,
    0_00000605545445,
    0_00000480621738,
    0_00000381469727,
    0_00000302772723,
    0_00000240310869,
    0_00000190734863,
    0_00000151386361,
    0_00000120155435,
];
