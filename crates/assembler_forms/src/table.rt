// The entries of the words, as numbers.
ghost use Rattle.std.specs.Prelude.{◌≡◌, ◌/◌, ◌%◌, zip};
ghost use Rattle.std.specs.List.{find, list_all};
ghost use Rattle.listing_rules.specs.Entries.{entries};
ghost use Rattle.assembly_rules.specs.Text.{capitals};
ghost use Rattle.assembler_forms.specs.Table.{NumberIs, kind_from, kinds_in, codes_by, kind_takes, place_takes, places_in, places_take, code_takes};

use crate::operands::{Form, Operands};
use assembler_text::characters;

// What a place of an entry takes: any register, any but CC, one that holds a pointer; memory; a byte or a word of data; a bit's
// number, a width; a target that one byte reaches, or two.
#[derive(Clone, Copy, PartialEq, Eq)]
pub enum PlaceKind {
    Register,
    General,
    Pointer,
    Memory,
    Byte,
    Word,
    Bit,
    Width,
    Short,
    Long,
}

impl PlaceKind {
    #[tactic(auto, unfolding(crate::specs::Table::kind_from))]
    // The kind of a place by its digit in an entry's number, none for 0.
    fn from_digit(digit: u32) -> Option<PlaceKind>
        ensures { result ≡ kind_from digit }
    {
        match digit {
            1 => Some(PlaceKind::Register),
            2 => Some(PlaceKind::General),
            3 => Some(PlaceKind::Pointer),
            4 => Some(PlaceKind::Memory),
            5 => Some(PlaceKind::Byte),
            6 => Some(PlaceKind::Word),
            7 => Some(PlaceKind::Bit),
            8 => Some(PlaceKind::Width),
            9 => Some(PlaceKind::Short),
            10 => Some(PlaceKind::Long),
            _ => None,
        }
    }

    #[tactic(auto, unfolding(assembly_rules::specs::Operands::takes))]
    // Whether a place takes an operand.
    fn takes(self, form: Form) -> bool
        ensures { result ≡ kind_takes self form }
    {
        match form {
            Form::Register(r) => match self {
                PlaceKind::Register => true,
                PlaceKind::General => r != 6,
                PlaceKind::Pointer => r < 3 || r == 4,
                _ => false,
            },
            Form::Memory { .. } => self == PlaceKind::Memory,
            Form::Offset { .. } => self == PlaceKind::Memory,
            Form::Value(_) => match self {
                PlaceKind::Register => false,
                PlaceKind::General => false,
                PlaceKind::Pointer => false,
                PlaceKind::Memory => false,
                _ => true,
            },
        }
    }
}

// Whether a place takes an operand, where there are both; else there is neither.
fn place_takes(kind: Option<PlaceKind>, form: Option<Form>) -> bool
    ensures { result ≡ place_takes kind form }
{
    match (kind, form) {
        (Some(kind), Some(form)) => kind.takes(form),
        (None, None) => true,
        _ => false,
    }
}

// An entry of a word in one number: three digits for the kinds of its places, then RRR, dd, W and the opcode. A number, since
// 66 entries with slices of kinds would be a table of addresses, and six fields in each line no plainer than its digits.
#[derive(Clone, Copy)]
pub struct EntryCode(pub u32);

impl EntryCode {
    #[tactic(auto, unfolding(crate::specs::Table::kinds_in))]
    // The kinds of its places, none behind the last.
    pub fn kinds(self) -> [Option<PlaceKind>; 3]
        ensures { result ≡ kinds_in self }
    {
        [
            PlaceKind::from_digit(self.0 / 0x10000000 % 16),
            PlaceKind::from_digit(self.0 / 0x1000000 % 16),
            PlaceKind::from_digit(self.0 / 0x100000 % 16),
        ]
    }

    // RRR of its pair, where no operand gives it.
    pub fn rrr(self) -> u32
        ensures { result ≡ self.0 / 0x10000 % 16 }
    {
        self.0 / 0x10000 % 16
    }

    // The dd of its pair.
    pub fn dd(self) -> u32
        ensures { result ≡ self.0 / 0x1000 % 16 }
    {
        self.0 / 0x1000 % 16
    }

    // W of its pair.
    pub fn w(self) -> u32
        ensures { result ≡ self.0 / 0x100 % 16 }
    {
        self.0 / 0x100 % 16
    }

    // The opcode of its pair.
    pub fn opcode(self) -> u32
        ensures { result ≡ self.0 % 256 }
    {
        self.0 % 256
    }

    // How many places it has.
    fn places(self) -> usize
        ensures { result ≡ places_in self }
    {
        self.kinds().iter().filter(|kind| kind.is_some()).count()
    }

    // Whether each of its places takes its operand, and there is none behind them.
    fn takes_each(self, o: Operands) -> bool
        ensures { result ≡ places_take (kinds_in self) o.forms }
    {
        self.kinds()
            .iter()
            .zip(&o.forms)
            .all(|(kind, form)| place_takes(*kind, *form))
    }

    #[tactic(auto, unfolding(crate::specs::Table::code_takes))]
    // Whether its places take operands: as many as they are, and each its own.
    fn takes(self, o: Operands) -> bool
        ensures { result ≡ code_takes self o }
    {
        o.count as usize == self.places() && self.takes_each(o)
    }
}

// The characters of a run as one number, the first in its lowest eight bits, and 1 above the last; 0 where they are more than
// six.
pub fn run_number(run: &[u8]) -> u64
    ensures { NumberIs result (capitals run.now) }
{
    if 6 < run.len() {
        return 0;
    }
    let mut n: u64 = 1;
    for c in run.iter().rev() {
        n = n * 256 + u64::from(characters::capital(*c));
    }
    n
}

// The entries of a word by its number.
pub fn codes_of(word: u64) -> &'static [EntryCode]
    ensures { result.now ≡ codes_by entries word }
{
    match word {
        0x1504F4E => &[EntryCode(0x00000000)],
        0x152544E4953 => &[EntryCode(0x00020000)],
        0x152454658 => &[EntryCode(0x00030000)],
        0x1444957 => &[EntryCode(0x88040000)],
        0x1544C48 => &[EntryCode(0x00010012)],
        0x14944504C => &[EntryCode(0x36602102)],
        0x144504C => &[EntryCode(0x34000122)],
        0x150564F4D => &[EntryCode(0x34000123), EntryCode(0x43000126)],
        0x1564F4D => &[
            EntryCode(0x14000120),
            EntryCode(0x41000121),
            EntryCode(0x44000124),
        ],
        0x142564F4D => &[
            EntryCode(0x14000020),
            EntryCode(0x41000021),
            EntryCode(0x44000024),
        ],
        0x149564F4D => &[EntryCode(0x1600210C), EntryCode(0x46002113)],
        0x14942564F4D => &[EntryCode(0x1500100C), EntryCode(0x45001013)],
        0x1444441 => &[EntryCode(0x24000128), EntryCode(0x42000134)],
        0x149444441 => &[EntryCode(0x26002108), EntryCode(0x46002130)],
        0x142444441 => &[EntryCode(0x24000028), EntryCode(0x42000034)],
        0x14942444441 => &[EntryCode(0x25001008), EntryCode(0x45001030)],
        0x1524F => &[EntryCode(0x24000129), EntryCode(0x42000135)],
        0x149524F => &[EntryCode(0x26002109), EntryCode(0x46002131)],
        0x142524F => &[EntryCode(0x24000029), EntryCode(0x42000035)],
        0x14942524F => &[EntryCode(0x25001009), EntryCode(0x45001031)],
        0x1444E41 => &[EntryCode(0x2400012A), EntryCode(0x42000136)],
        0x149444E41 => &[EntryCode(0x2600210A), EntryCode(0x46002132)],
        0x142444E41 => &[EntryCode(0x2400002A), EntryCode(0x42000036)],
        0x14942444E41 => &[EntryCode(0x2500100A), EntryCode(0x45001032)],
        0x1544F4E => &[
            EntryCode(0x2000000B),
            EntryCode(0x40000137),
            EntryCode(0x2400012B),
        ],
        0x1434E49 => &[EntryCode(0x2000000E), EntryCode(0x4000013A)],
        0x1434544 => &[EntryCode(0x2000000F), EntryCode(0x4000013B)],
        0x142544F4E => &[EntryCode(0x40000037), EntryCode(0x2400002B)],
        0x142434E49 => &[EntryCode(0x4000003A)],
        0x142434544 => &[EntryCode(0x4000003B)],
        0x1504D4A => &[EntryCode(0x90041008)],
        0x15A4A => &[EntryCode(0x29001011), EntryCode(0x49001139)],
        0x15A4E4A => &[EntryCode(0x29001010), EntryCode(0x49001138)],
        0x1425A4A => &[EntryCode(0x49001039)],
        0x1425A4E4A => &[EntryCode(0x49001038)],
        0x145434D4A => &[EntryCode(0x4900102C)],
        0x1454E434D4A => &[EntryCode(0x4900102D)],
        0x14C4C4143 => &[EntryCode(0x49041127)],
        0x154424A => &[EntryCode(0x4790102F)],
        0x154424E4A => &[EntryCode(0x4790102E)],
        0x1504D4A4C => &[EntryCode(0xA0042108)],
        0x15A4A4C => &[EntryCode(0x2A002011), EntryCode(0x4A002139)],
        0x15A4E4A4C => &[EntryCode(0x2A002010), EntryCode(0x4A002138)],
        0x1425A4A4C => &[EntryCode(0x4A002039)],
        0x1425A4E4A4C => &[EntryCode(0x4A002038)],
        0x145434D4A4C => &[EntryCode(0x4A00202C)],
        0x1454E434D4A4C => &[EntryCode(0x4A00202D)],
        0x14C4C41434C => &[EntryCode(0x4A042127)],
        0x154424A4C => &[EntryCode(0x47A0202F)],
        0x154424E4A4C => &[EntryCode(0x47A0202E)],
        0x14C5354 => &[EntryCode(0x45903025)],
        0x142544553 => &[EntryCode(0x4700003D)],
        0x1524C43 => &[EntryCode(0x4700003E)],
        _ => &[],
    }
}

// The first of some entries that takes operands.
pub fn fitting(codes: &[EntryCode], o: Operands) -> Option<EntryCode>
    ensures { result ≡ find (λ c. code_takes c o) codes.now }
{
    codes.iter().copied().find(|code| code.takes(o))
}
