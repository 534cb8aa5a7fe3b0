// The rows of the five allocation tables, each distinct row once, and what the subbands of a range have in common.
//
// Each table is cut into four ranges of subbands, 0 to 3 by rising subband, whose allocation fields have 4, 4, 3 and 2 bits; a table that prints
// fewer has empty ones. Two rows are kept of each range: first that of Tables 3-B.2a and 3-B.2b, then that of the other three tables. Their subbands:
//   0: a and b 0 to 2              1: c and d 0 and 1
//   2: a and b 3 to 10             3: LSF 0 to 3
//   4: a and b 11 to 22            5: c 2 to 7, d 2 to 11, LSF 4 to 10
//   6: a 23 to 26, b 23 to 29      7: LSF 11 to 29
ghost use Rattle.std.specs.Prelude.{◌≡◌, map};
ghost use Rattle.bitalloc.specs.Kept.{kept, kept_row, NbalInRange, PlacesInRange};
ghost use Rattle.bitalloc.specs.Storage.{sixteen};

// The kept rows: the steps at each place, and zeros behind the last.
static ROWS: [[u32; 16]; 8] = [
    [
        0, 3, 7, 15, 31, 63, 127, 255, 511, 1023, 2047, 4095, 8191, 16383, 32767, 65535,
    ],
    [
        0, 3, 5, 9, 15, 31, 63, 127, 255, 511, 1023, 2047, 4095, 8191, 16383, 32767,
    ],
    [
        0, 3, 5, 7, 9, 15, 31, 63, 127, 255, 511, 1023, 2047, 4095, 8191, 65535,
    ],
    [
        0, 3, 5, 7, 9, 15, 31, 63, 127, 255, 511, 1023, 2047, 4095, 8191, 16383,
    ],
    [0, 3, 5, 7, 9, 15, 31, 65535, 0, 0, 0, 0, 0, 0, 0, 0],
    [0, 3, 5, 9, 15, 31, 63, 127, 0, 0, 0, 0, 0, 0, 0, 0],
    [0, 3, 5, 65535, 0, 0, 0, 0, 0, 0, 0, 0, 0, 0, 0, 0],
    [0, 3, 5, 9, 0, 0, 0, 0, 0, 0, 0, 0, 0, 0, 0, 0],
];

fn rows() -> &'static [[u32; 16]; 8]
    ensures { result.now ≡ map sixteen kept }
{
    &ROWS
}

// The kept row of a number; zeros where no row has the number.
pub fn row(number: usize) -> [u32; 16]
    ensures { result ≡ sixteen (kept_row number) }
{
    if number < 8 { rows()[number] } else { [0; 16] }
}

// The bits of the allocation fields in a range; 0 past the last.
pub fn nbal(range: usize) -> u32
    ensures { NbalInRange range result }
{
    match range {
        0 => 4,
        1 => 4,
        2 => 3,
        3 => 2,
        _ => 0,
    }
}

// How many places the rows of a range have: one for each code of its allocation fields; none past the last.
pub fn places(range: usize) -> usize
    ensures { PlacesInRange range result }
{
    let bits = nbal(range);
    if bits == 0 { 0 } else { 1 << bits }
}
