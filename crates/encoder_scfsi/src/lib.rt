// Which of the three scalefactor indices of a slot an encoder uses, and which of those it transmits: ISO/IEC 11172-3
// C.1.5.2.5, with Table C.4.
#![tactic(auto)]

ghost use Rattle.std.specs.Prelude.{◌≡◌, pos, ◌-ℤ◌, get_or};
ghost use Rattle.encoder_scfsi.specs.Class.{difference_class, NumberIs};
ghost use Rattle.encoder_scfsi.specs.TableC4.{prescribed_for, named};
ghost use Rattle.encoder_scfsi.specs.Storage.{stored, kept};
ghost use Rattle.encoder_scfsi.specs.Select.{CountIs, SelectionIs};

use audio_data::Scfsi;

// The class of a difference, an index minus the next granule's, and its number in Table C.4.
#[derive(Clone, Copy)]
pub enum DifferenceClass {
    Class1 = 1,
    Class2 = 2,
    Class3 = 3,
    Class4 = 4,
    Class5 = 5,
}

impl DifferenceClass {
    // The class's number in Table C.4.
    // Kept: C and the replay name a class by its printed number, which the enum says.
    pub fn as_index(self) -> u8
        ensures { NumberIs self result }
    {
        self as u8
    }
}

// The class of a difference `dscf`.
pub fn classify_difference(dscf: i16) -> DifferenceClass
    ensures { result ≡ difference_class dscf }
{
    if dscf <= -3 {
        DifferenceClass::Class1
    } else if dscf < 0 {
        DifferenceClass::Class2
    } else if dscf == 0 {
        DifferenceClass::Class3
    } else if dscf < 3 {
        DifferenceClass::Class4
    } else {
        DifferenceClass::Class5
    }
}

// Which of the three used indices are transmitted.
#[derive(Clone, Copy)]
pub struct TransmissionPattern {
    pub write0: bool,
    pub write1: bool,
    pub write2: bool,
}

impl TransmissionPattern {
    // How many of them.
    pub fn transmitted_count(self) -> usize
        ensures { CountIs self result }
    {
        (self.write0 as usize) + (self.write1 as usize) + (self.write2 as usize)
    }
}

// What is selected for one slot.
#[derive(Clone, Copy)]
pub struct ScfsiSelection {
    // The index used for each granule.
    pub used: [u8; 3],
    // Which of those are transmitted.
    pub pattern: TransmissionPattern,
    pub scfsi: Scfsi,
    // The classes of the first index minus the second, and of the second minus the third.
    pub class1: DifferenceClass,
    pub class2: DifferenceClass,
}

// The selection for the three scalefactor indices of a slot, one a granule.
pub fn select_scfsi(scalefactors: [u8; 3]) -> ScfsiSelection
    ensures { SelectionIs (get_or scalefactors 0 0) (get_or scalefactors 1 0) (get_or scalefactors 2 0) result }
{
    let class1 = class_of_difference(scalefactors[0], scalefactors[1]);
    let class2 = class_of_difference(scalefactors[1], scalefactors[2]);
    let row = row_of(class1, class2);
    let used = [
        named(row[0], scalefactors),
        named(row[1], scalefactors),
        named(row[2], scalefactors),
    ];
    let pattern = TransmissionPattern {
        write0: row[3] == 1,
        write1: row[4] == 1,
        write2: row[5] == 1,
    };
    let scfsi = Scfsi::of_code(row[6]);
    ScfsiSelection {
        used,
        pattern,
        scfsi,
        class1,
        class2,
    }
}

// The class of an index minus the next one.
fn class_of_difference(scf: u8, next: u8) -> DifferenceClass
    ensures { result ≡ difference_class (pos scf -ℤ pos next) }
{
    classify_difference((scf as i16) - (next as i16))
}

// Table C.4 in the order of the classes, which stand behind each row. A row has the scalefactor used for each granule, where
// 1, 2 and 3 name those given and 4 their maximum; 1 for each used one that is transmitted, else 0; and the code of the
// scfsi. Where one scalefactor serves all three granules, the third place is the one marked.
static TABLE_C4: [[u8; 7]; 25] = [
    [1, 2, 3, 1, 1, 1, 0], // 1 1
    [1, 2, 2, 1, 1, 0, 3], // 1 2
    [1, 2, 2, 1, 1, 0, 3], // 1 3
    [1, 3, 3, 1, 0, 1, 3], // 1 4
    [1, 2, 3, 1, 1, 1, 0], // 1 5
    [1, 1, 3, 1, 0, 1, 1], // 2 1
    [1, 1, 1, 0, 0, 1, 2], // 2 2
    [1, 1, 1, 0, 0, 1, 2], // 2 3
    [4, 4, 4, 0, 0, 1, 2], // 2 4
    [1, 1, 3, 1, 0, 1, 1], // 2 5
    [1, 1, 1, 0, 0, 1, 2], // 3 1
    [1, 1, 1, 0, 0, 1, 2], // 3 2
    [1, 1, 1, 0, 0, 1, 2], // 3 3
    [3, 3, 3, 0, 0, 1, 2], // 3 4
    [1, 1, 3, 1, 0, 1, 1], // 3 5
    [2, 2, 2, 0, 0, 1, 2], // 4 1
    [2, 2, 2, 0, 0, 1, 2], // 4 2
    [2, 2, 2, 0, 0, 1, 2], // 4 3
    [3, 3, 3, 0, 0, 1, 2], // 4 4
    [1, 2, 3, 1, 1, 1, 0], // 4 5
    [1, 2, 3, 1, 1, 1, 0], // 5 1
    [1, 2, 2, 1, 1, 0, 3], // 5 2
    [1, 2, 2, 1, 1, 0, 3], // 5 3
    [1, 3, 3, 1, 0, 1, 3], // 5 4
    [1, 2, 3, 1, 1, 1, 0], // 5 5
];

fn table_c4() -> &'static [[u8; 7]; 25]
    ensures { result.now ≡ kept }
{
    &TABLE_C4
}

fn row_of(class1: DifferenceClass, class2: DifferenceClass) -> [u8; 7]
    ensures { result ≡ stored (prescribed_for class1 class2) }
{
    let rows = table_c4();
    let at = 5 * usize::from(class1.as_index() - 1) + usize::from(class2.as_index() - 1);
    rows[at]
}

// The index that the table names so.
// Kept: the definition of Table C.4 names the four by 1 to 4 too, and the rows are compared with it as bytes; an enum would need these four cases and a translation there.
fn named(name: u8, scalefactors: [u8; 3]) -> u8
    ensures { result ≡ named (get_or scalefactors 0 0) (get_or scalefactors 1 0) (get_or scalefactors 2 0) name }
{
    let [scf1, scf2, scf3] = scalefactors;
    match name {
        1 => scf1,
        2 => scf2,
        3 => scf3,
        _ => scf1.min(scf2.min(scf3)),
    }
}
