// The bit allocation tables of Layer II: Tables 3-B.2a to d of ISO/IEC 11172-3, Table B.1 of ISO/IEC 13818-3.
#![tactic(auto)]

ghost use Rattle.std.specs.Prelude.{◌≡◌, ◌+◌, ◌*◌, ◌≤◌};
ghost use Rattle.bitalloc.specs.Kept.{kept_row, ends_of, word_of, column_of, RangeIs};
ghost use Rattle.bitalloc.specs.Tables.{TableNamed, table_number, SblimitIs, PlacesAre, NbalIs, StepsAre, AllocationIndexIs};
ghost use Rattle.bitalloc.specs.Storage.{row_of16, sixteen, FirstOfThreeIs};

mod kept_rows;

// A subband's index is below this.
pub const NUM_SUBBANDS: usize = 32;

// The five tables of possible quantizations per subband, and the number of each.
#[derive(Clone, Copy, Debug, PartialEq, Eq)]
pub enum BitAllocTable {
    B2a = 0,
    B2b = 1,
    B2c = 2,
    B2d = 3,
    B1Lsf = 4,
}

// A number that no table has.
#[derive(Clone, Copy, Debug, PartialEq, Eq)]
pub struct UnknownTable(pub u64);

// The table of a number.
// Kept: std makes no enum of a number, so each number is matched to its table.
impl TryFrom<u64> for BitAllocTable {
    type Error = UnknownTable;

    ghost try_from_gives = { TableNamed };

    fn try_from(number: u64) -> Result<Self, UnknownTable> {
        match number {
            0 => Ok(BitAllocTable::B2a),
            1 => Ok(BitAllocTable::B2b),
            2 => Ok(BitAllocTable::B2c),
            3 => Ok(BitAllocTable::B2d),
            4 => Ok(BitAllocTable::B1Lsf),
            _ => Err(UnknownTable(number)),
        }
    }
}

impl BitAllocTable {
    // The table's number.
    // Kept: C and the printed lines name a table by its number, which the enum says.
    pub fn number(self) -> u32
        ensures { result ≡ table_number self }
    {
        self as u32
    }

    // How many subbands the table carries.
    // Kept: this match and those of `ends` and `column` are columns of one table; an array by number would leave out the names and need its bound proved.
    pub fn sblimit(self) -> usize
        ensures { SblimitIs self result }
    {
        match self {
            BitAllocTable::B2a => 27,
            BitAllocTable::B2b => 30,
            BitAllocTable::B2c => 8,
            BitAllocTable::B2d => 12,
            BitAllocTable::B1Lsf => 30,
        }
    }

    // The bits of the subband's allocation field; 0 where the table carries no such subband.
    pub fn nbal(self, sb: usize) -> u32
        ensures { NbalIs self sb result }
    {
        kept_rows::nbal(self.range(sb))
    }

    // The steps at a place of the subband's row.
    pub fn nb_steps(self, sb: usize, index: u32) -> Option<u32>
        ensures { StepsAre self sb index result }
    {
        let at = index as usize;
        let range = self.range(sb);
        if at < kept_rows::places(range) {
            let row = self.row_in(range);
            Some(row[at])
        } else {
            None
        }
    }

    // The place in the subband's row at which the steps stand. It is one of three, which the steps' binary digits tell; since the row rises, two
    // comparisons tell which.
    // Kept: the writer asks this of each field; walking the row took a quarter of its time, halving no less, and counting over the places longer still.
    pub fn allocation_index(self, sb: usize, nb_steps: u32) -> Option<u32>
        ensures { AllocationIndexIs self sb nb_steps result }
    {
        let range = self.range(sb);
        let places = kept_rows::places(range);
        if places == 0 {
            return None;
        }
        let row = self.row_in(range);
        let first = first_of_three(places, nb_steps);
        let place = first
            + ((row[first] < nb_steps) as usize)
            + ((row[first + 1] < nb_steps) as usize);
        if row[place] == nb_steps {
            Some(place as u32)
        } else {
            None
        }
    }

    // The steps at the places 0 to 15 of the subband's row; 0 where there is no such place.
    pub fn row(self, sb: usize) -> [u32; 16]
        ensures { result ≡ row_of16 self sb }
    {
        self.row_in(self.range(sb))
    }

    // How many places the subband's row has.
    pub fn places(self, sb: usize) -> usize
        ensures { PlacesAre self sb result }
    {
        kept_rows::places(self.range(sb))
    }

    // The range that a subband lies in, 0 to 3, and 4 where the table does not carry the subband: how many of the four ends are at or below it. A subband
    // from 32 on counts as 32. The ends are compared at once, a byte each: the top bit of 0x80 + sb - end is set where sb is not below the end, and
    // no byte overflows, since sb and the ends are at most 32. Byte 3 of the product is the sum of the four bits.
    // Kept: four numbers in a word; a sum of four comparisons was tried, and a demand took up to 1.06 of its time before, with the word up to 1.01.
    fn range(self, sb: usize) -> usize
        ensures { RangeIs self sb result }
    {
        let sb_or_32 = sb.min(NUM_SUBBANDS) as u64;
        let compared = sb_or_32 * 0x01010101 + (0x80808080 - (self.ends() as u64));
        let flags = (compared >> 7) & 0x01010101;
        (((flags * 0x01010101) >> 24) & 7) as usize
    }

    // The first subband behind each of the four ranges, a byte each, the first in the lowest.
    // Kept: `range` compares all four at once, for which they have to stand in one word.
    fn ends(self) -> u32
        ensures { result ≡ word_of (ends_of self) }
    {
        match self {
            BitAllocTable::B2a => 0x1b_17_0b_03, // 3, 11, 23, 27
            BitAllocTable::B2b => 0x1e_17_0b_03, // 3, 11, 23, 30
            BitAllocTable::B2c => 0x08_08_02_02, // 2, 2, 8, 8
            BitAllocTable::B2d => 0x0c_0c_02_02, // 2, 2, 12, 12
            BitAllocTable::B1Lsf => 0x1e_0b_04_00, // 0, 4, 11, 30
        }
    }

    // The table's row of a range; zeros for range 4.
    fn row_in(self, range: usize) -> [u32; 16]
        requires { range ≤ 4 }
        ensures { result ≡ sixteen (kept_row (2 * range + column_of self)) }
    {
        kept_rows::row(2 * range + self.column())
    }

    // Which of a range's two rows the table has.
    fn column(self) -> usize
        ensures { result ≡ column_of self }
    {
        match self {
            BitAllocTable::B2a => 0,
            BitAllocTable::B2b => 0,
            BitAllocTable::B2c => 1,
            BitAllocTable::B2d => 1,
            BitAllocTable::B1Lsf => 1,
        }
    }
}

// The first of the three places of a row of so many at one of which the steps stand, if anywhere.
// Kept: by arithmetic, since `allocation_index` is to make no search (see there).
fn first_of_three(places: usize, nb_steps: u32) -> usize
    requires { 4 ≤ places }
    ensures { FirstOfThreeIs places nb_steps result }
{
    let digits = (32 - u32::leading_zeros(nb_steps)) as usize;
    let middle = digits.min(places - 2);
    middle - ((0 < middle) as usize)
}
