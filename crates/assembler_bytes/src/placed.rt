// The places of an instruction: their operands, and what these are worth.
ghost use Rattle.std.specs.Prelude.{◌≡◌, ◌+◌, eqb};
ghost use Rattle.ground_rules.specs.Choice.{pick};
ghost use Rattle.assembly_rules.specs.Statements.{reach_to, may_stand};
ghost use Rattle.assembler_text.specs.Places.{labels_of};
ghost use Rattle.assembler_forms.specs.Table.{kind_of};
ghost use Rattle.assembler_bytes.specs.Placed.{sum_by, worth_by, placed_in, memory_placed, stand_by, digit_by, digits_after, rrr_after, mm_after, aa_after};

use crate::data;
use assembler_forms::operands::{Form, Sum};
use assembler_forms::table::PlaceKind;
use assembler_text::labels::Labels;
use assembler_text::values;
use assembly_rules::Worth;

// The sum of an operand, if it has one.
fn sum_of(form: Option<Form>) -> Option<Sum>
    ensures { result ≡ sum_by form }
{
    form?.sum()
}

// What the sum of an operand is worth.
fn worth(text: &[u8], form: Option<Form>, labels: &Labels) -> Worth
    ensures { result ≡ worth_by (labels_of text.now labels.now) text.now form }
{
    match sum_of(form) {
        Some(sum) => values::value(text, sum.place, labels),
        None => Worth::known(0),
    }
}

#[tactic(auto, unfolding(assembly_rules::specs::Statements::reach_to))]
// How far a target is from an instruction's end.
pub fn reach(end: u64, target: u32) -> u32
    ensures { result ≡ reach_to end target }
{
    ((u64::from(target) + 65536 - end % 65536) % 65536) as u32
}

// RRR of two widths.
fn widths(first: u32, second: u32) -> u32
    ensures { result ≡ 4 + pick (eqb first 16) 2 0 + pick (eqb second 16) 1 0 }
{
    let high = if first == 16 { 2 } else { 0 };
    let low = if second == 16 { 1 } else { 0 };
    4 + high + low
}

#[tactic(auto, unfolding(assembly_rules::specs::Statements::may_stand))]
// Whether a number may stand in a place of a kind; `end` is the address behind the instruction.
fn number_stands(kind: PlaceKind, end: u64, n: u32) -> bool
    ensures { result ≡ may_stand (kind_of kind) end n }
{
    match kind {
        PlaceKind::Memory | PlaceKind::Byte => data::is_byte(n),
        PlaceKind::Bit => n < 8,
        PlaceKind::Width => (n == 8) | (n == 16),
        PlaceKind::Short => {
            let distance = reach(end, n);
            distance < 0x80 || 0xFF80 <= distance
        }
        PlaceKind::Register
        | PlaceKind::General
        | PlaceKind::Pointer
        | PlaceKind::Word
        | PlaceKind::Long => true,
    }
}

// A place of an entry with its operand and what that is worth.
#[derive(Clone, Copy)]
pub struct Placed {
    pub kind: Option<PlaceKind>,
    pub form: Option<Form>,
    pub worth: Worth,
}

// A place that is none.
pub const NOTHING: Placed = Placed {
    kind: None,
    form: None,
    worth: Worth {
        value: 0,
        known: true,
    },
};

impl Placed {
    // A place with its operand.
    pub fn new(text: &[u8], kind: Option<PlaceKind>, form: Option<Form>, labels: &Labels) -> Placed
        ensures { result ≡ placed_in (labels_of text.now labels.now) text.now kind form }
    {
        Placed {
            kind,
            form,
            worth: worth(text, form, labels),
        }
    }

    // Whether it is for memory.
    pub fn is_memory(self) -> bool
        ensures { result ≡ memory_placed self.kind }
    {
        self.kind == Some(PlaceKind::Memory)
    }

    // Whether its number may stand there; `end` is the address behind the instruction.
    pub fn may_stand(self, end: u64) -> bool
        ensures { result ≡ stand_by self.kind end self.worth.value }
    {
        self.kind
            .is_none_or(|kind| number_stands(kind, end, self.worth.value))
    }

    // Whether it has a bit's number or a width.
    fn is_digit(self) -> bool
        ensures { result ≡ digit_by self.kind self.form }
    {
        match (self.kind, self.form) {
            (Some(kind), Some(Form::Value(_))) => matches!(kind, PlaceKind::Bit | PlaceKind::Width),
            _ => false,
        }
    }

    // RRR of a bit's number, or of two widths where the next place has the second.
    fn digits(self, next: Option<Placed>) -> u32
        ensures { result ≡ digits_after self.worth.value next }
    {
        let first = self.worth.value;
        let Some(second) = next else {
            return first;
        };
        if second.is_digit() {
            return widths(first, second.worth.value);
        }
        first
    }

    // RRR of an operand, or of those behind it.
    pub fn rrr(self, next: Option<Placed>, rest: u32) -> u32
        ensures { result ≡ rrr_after self next rest }
    {
        if self.is_digit() {
            return self.digits(next);
        }
        match self.form {
            Some(Form::Register(r)) => r,
            _ => rest,
        }
    }

    // MM of an operand, or the one before it.
    pub fn mm(self, before: u32) -> u32
        ensures { result ≡ mm_after before self.form }
    {
        match self.form {
            Some(Form::Memory { mm, mode: _ }) => mm,
            Some(Form::Offset { mm, sum: _ }) => mm,
            _ => before,
        }
    }

    // AA of an operand, or the one before it.
    pub fn aa(self, before: u32) -> u32
        ensures { result ≡ aa_after before self.form }
    {
        match self.form {
            Some(Form::Memory { mm: _, mode }) => mode.number(),
            Some(Form::Offset { .. }) => 1,
            _ => before,
        }
    }
}
