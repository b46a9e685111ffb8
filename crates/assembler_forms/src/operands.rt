// Operands: registers, memory and sums.
ghost use Rattle.std.specs.Prelude.{drop, ◌≡◌, ◌≤◌, count_by};
ghost use Rattle.std.specs.List.{list_all};
ghost use Rattle.assembly_rules.specs.Text.{tokens_of};
ghost use Rattle.assembly_rules.specs.Statements.{operand_parts};
ghost use Rattle.assembly_rules.specs.Operands.{closed_memory, indexed_memory, memory_from, operand_from, operands_from};
ghost use Rattle.assembler_forms.specs.Forms.{past_mark, stops_at, register_at, base_at, whole_sum, indexing_number, form_sum, has_offset, low_in, low_by, offset_told, operand_tokens, Formed};
ghost use Rattle.assembler_forms.specs.Rows.{comma_at, ends_at, next_part, OperandRow};

use assembler_text::tokens::TokenFound;
use assembler_text::{sums, tokens};

// A register's number and the place behind it.
#[derive(Clone, Copy)]
pub(crate) struct Named {
    pub number: u32,
    pub next: usize,
}

// A sum by its first place, and whether it is low: no more than eight of its parentheses are open at once.
#[derive(Clone, Copy)]
pub struct Sum {
    pub place: usize,
    pub low: bool,
}

// What is added to memory's base where no offset is: nothing, IX, or IX that then steps on.
#[derive(Clone, Copy)]
pub enum Indexing {
    Plain,
    Indexed,
    Stepped,
}

impl Indexing {
    // AA of a mode; 1 is that of an offset.
    pub fn number(self) -> u32
        ensures { result ≡ indexing_number self }
    {
        match self {
            Indexing::Plain => 0,
            Indexing::Indexed => 2,
            Indexing::Stepped => 3,
        }
    }
}

// An operand: a register by RRR, memory by MM and its mode or its offset, or a sum. The variants are flat, so that an operand is
// small: each line copies three.
#[derive(Clone, Copy)]
pub enum Form {
    Register(u32),
    Memory { mm: u32, mode: Indexing },
    Offset { mm: u32, sum: Sum },
    Value(Sum),
}

impl Form {
    // The sum that an operand is, or that is its offset.
    pub fn sum(self) -> Option<Sum>
        ensures { result ≡ form_sum self }
    {
        match self {
            Form::Value(sum) => Some(sum),
            Form::Offset { mm: _, sum } => Some(sum),
            _ => None,
        }
    }

    // Whether an operand has an offset.
    pub fn has_offset(self) -> bool
        ensures { result ≡ has_offset self }
    {
        matches!(self, Form::Offset { .. })
    }

    // Whether an operand has no sum but a low one.
    pub fn is_low(self) -> bool
        ensures { result ≡ low_in self }
    {
        self.sum().is_none_or(|sum| sum.low)
    }
}

#[tactic(auto, unfolding(crate::specs::Forms::past_mark))]
// The place behind a character that stands next by itself.
pub fn past(text: &[u8], at: usize, c: u8) -> Option<usize>
    ensures { result ≡ past_mark text.now at c }
{
    match tokens::token_at(text, at) {
        Some(TokenFound::Mark { character, next }) if character == c => Some(next),
        _ => None,
    }
}

#[tactic(auto, unfolding(crate::specs::Forms::stops_at))]
// Whether a comma or the line's end stands next.
fn stops(text: &[u8], at: usize) -> bool
    ensures { result ≡ stops_at text.now at }
{
    match tokens::token_at(text, at) {
        None => true,
        Some(TokenFound::Run { .. }) => false,
        Some(TokenFound::Mark { character, .. }) => character == b',',
    }
}

#[tactic(auto, unfolding(crate::specs::Forms::register_at))]
// The register that stands next.
fn register_at(text: &[u8], at: usize) -> Option<Named>
    ensures { result ≡ register_at text.now at }
{
    let Some(TokenFound::Run { from, to }) = tokens::token_at(text, at) else {
        return None;
    };
    let number = sums::register_number(&text[from..to])?;
    Some(Named { number, next: to })
}

#[tactic(auto, unfolding(crate::specs::Forms::base_at))]
// MM of a base by its register's number.
fn base(number: u32) -> Option<u32>
    ensures { result ≡ base_at number }
{
    match number {
        0..=2 => Some(number),
        8 => Some(3),
        _ => None,
    }
}

// The whole sum at a place, up to a comma or the line's end.
pub fn whole_sum(text: &[u8], place: usize) -> Option<Sum>
    ensures { result ≡ whole_sum text.now place }
{
    let scanned = sums::scan(text, place);
    scanned.is_whole().then_some(Sum {
        place,
        low: scanned.most <= 8,
    })
}

// Memory without a register added, from behind its bracket on.
fn plain(text: &[u8], at: usize, mm: u32) -> Option<Form>
    ensures { Formed text.now result (closed_memory mm (operand_tokens text.now at)) }
{
    if stops(text, at) {
        return Some(Form::Memory {
            mm,
            mode: Indexing::Plain,
        });
    }
    let offset = past(text, at, b'.')?;
    let sum = whole_sum(text, offset)?;
    Some(Form::Offset { mm, sum })
}

// Memory with IX added, from behind the plus on.
fn indexed(text: &[u8], at: usize, mm: u32) -> Option<Form>
    ensures { Formed text.now result (indexed_memory mm (operand_tokens text.now at)) }
{
    let ix = register_at(text, at)?;
    if ix.number != 5 {
        return None;
    }
    if let Some(closed) = past(text, ix.next, b']') {
        return stops(text, closed).then_some(Form::Memory {
            mm,
            mode: Indexing::Indexed,
        });
    }
    let grown = past(text, ix.next, b'+')?;
    let last = past(text, grown, b']')?;
    stops(text, last).then_some(Form::Memory {
        mm,
        mode: Indexing::Stepped,
    })
}

// Memory, from behind its opening bracket on.
fn memory(text: &[u8], at: usize) -> Option<Form>
    ensures { Formed text.now result (memory_from (operand_tokens text.now at)) }
{
    let named = register_at(text, at)?;
    let mm = base(named.number)?;
    if let Some(closed) = past(text, named.next, b']') {
        return plain(text, closed, mm);
    }
    let plus = past(text, named.next, b'+')?;
    indexed(text, plus, mm)
}

// The operand at a place, up to a comma or the line's end.
pub fn operand(text: &[u8], at: usize) -> Option<Form>
    ensures { Formed text.now result (operand_from (operand_tokens text.now at)) }
{
    if let Some(open) = past(text, at, b'[') {
        return memory(text, open);
    }
    if let Some(named) = register_at(text, at) {
        let alone = named.number < 8 && stops(text, named.next);
        return alone.then_some(Form::Register(named.number));
    }
    let sum = whole_sum(text, at)?;
    Some(Form::Value(sum))
}

// How many operands there are, 4 where they are more than three, and the first three; none where what stands there is no
// operand, and behind the last.
#[derive(Clone, Copy)]
pub struct Operands {
    pub count: u32,
    pub forms: [Option<Form>; 3],
}

impl Operands {
    // Whether all are low.
    pub fn are_low(self) -> bool
        ensures { result ≡ list_all low_by self.forms }
    {
        self.forms
            .iter()
            .all(|form| form.is_none_or(|form| form.is_low()))
    }

    // How many have an offset.
    pub fn offsets(self) -> usize
        ensures value { result ≡ count_by offset_told self.forms }
        ensures few { result ≤ 3 }
    {
        self.forms
            .iter()
            .filter(|form| form.is_some_and(|form| form.has_offset()))
            .count()
    }
}

#[tactic(auto, unfolding(crate::specs::Rows::comma_at))]
// Whether a comma stands at a place.
fn comma_at(text: &[u8], at: usize) -> bool
    ensures { result ≡ comma_at text.now at }
{
    text.get(at).is_some_and(|c| *c == b',')
}

#[tactic(auto, unfolding(crate::specs::Rows::ends_at))]
// Whether the line ends at a place.
pub fn ends(text: &[u8], at: usize) -> bool
    ensures { result ≡ ends_at text.now at }
{
    tokens::token_at(text, at).is_none()
}

#[tactic(auto, unfolding(crate::specs::Rows::next_part))]
// The place behind the comma that ends what stands at a place.
pub fn next_part(text: &[u8], at: usize) -> Option<usize>
    ensures { result ≡ next_part text.now at }
{
    let stop = tokens::stop_at(text, at);
    if comma_at(text, stop) {
        return Some(stop + 1);
    }
    None
}

// The operands from a place up to the line's end. One is read after another: a loop over three places that leaves early is
// longer. A place that holds no operand is still counted, so that `NOP ]` has one and not none.
pub fn operands_at(text: &[u8], at: usize) -> Operands
    ensures { OperandRow text.now result (operands_from (operand_parts (tokens_of (drop at text.now)))) }
{
    if ends(text, at) {
        return Operands {
            count: 0,
            forms: [None; 3],
        };
    }
    let first = operand(text, at);
    let Some(at) = next_part(text, at) else {
        return Operands {
            count: 1,
            forms: [first, None, None],
        };
    };
    let second = operand(text, at);
    let Some(at) = next_part(text, at) else {
        return Operands {
            count: 2,
            forms: [first, second, None],
        };
    };
    let forms = [first, second, operand(text, at)];
    match next_part(text, at) {
        Some(_) => Operands { count: 4, forms },
        None => Operands { count: 3, forms },
    }
}
