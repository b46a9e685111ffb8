// Instructions: whether one is refused, and their bytes.
ghost use Rattle.std.specs.Prelude.{◌≡◌, List, ◌∷◌, ◌++◌, ℕ, ◌+◌, ◌/◌, ◌%◌, ltb, fold};
ghost use Rattle.std.specs.List.{list_all};
ghost use Rattle.assembly_rules.specs.Statements.{Statement, statement_size, statement_number, statement_bytes};
ghost use Rattle.assembler_text.specs.Places.{labels_of};
ghost use Rattle.assembler_forms.specs.Table.{kinds_in};
ghost use Rattle.assembler_lines.specs.Bodies.{SaysInstruction, line_answered};
ghost use Rattle.assembler_bytes.specs.Laid.{laid_at};
ghost use Rattle.assembler_bytes.specs.declared.placed.Placed.{Placed};
ghost use Rattle.assembler_bytes.specs.Placed.{all_placed, stand_by, are_moved, rrr_all, mm_after, aa_after, offset_laid, offsets_laid, number_laid, numbers_laid, first_byte, second_byte, second_laid};

use crate::placed::Placed;
use crate::{placed, stores};
use assembler_forms::operands::{Form, Operands};
use assembler_forms::table::{EntryCode, PlaceKind};
use assembler_lines::bodies::LineRefusal;
use assembler_lines::sizes;
use assembler_text::labels::Labels;

// Fills three places with those of an entry and their operands. They are written where they stay: an array as a result is
// copied by a call of memcpy, which no archive brings.
fn place_all(
    text: &[u8],
    code: EntryCode,
    operands: Operands,
    labels: &Labels,
    places: &mut [Placed; 3],
)
    ensures { places.new ≡ all_placed (labels_of text.now labels.now) text.now (kinds_in code) operands.forms }
{
    let kinds = code.kinds();
    places[0] = Placed::new(text, kinds[0], operands.forms[0], labels);
    places[1] = Placed::new(text, kinds[1], operands.forms[1], labels);
    places[2] = Placed::new(text, kinds[2], operands.forms[2], labels);
}

// The address behind an instruction.
fn end_of(code: EntryCode, operands: Operands, address: u32) -> u64
    ensures { (text : List ℕ) (s : Statement) → SaysInstruction text code operands s → result ≡ address + statement_size s }
{
    u64::from(address) + sizes::instruction_size(code, operands) as u64
}

// Whether the names in all operands are known.
fn are_known(places: &[Placed]) -> bool
    ensures { result ≡ list_all (λ (p : Placed). p.worth.known) places.now }
{
    places.iter().all(|place| place.worth.known)
}

// Whether all numbers may stand in their places.
fn may_stand(places: &[Placed], end: u64) -> bool
    ensures { result ≡ list_all (λ (p : Placed). stand_by p.kind end p.worth.value) places.now }
{
    places.iter().all(|place| place.may_stand(end))
}

// Why an instruction at an address is refused, if it is: a name is unknown, or a number may not stand in its place.
pub fn check(
    text: &[u8],
    code: EntryCode,
    operands: Operands,
    labels: &Labels,
    address: u32,
) -> Result<(), LineRefusal>
    ensures { (s : Statement) → SaysInstruction text.now code operands s → line_answered result ≡ statement_number (labels_of text.now labels.now) address s }
{
    let mut places = [placed::NOTHING; 3];
    place_all(text, code, operands, labels, &mut places);
    if !are_known(&places) {
        return Err(LineRefusal::UnknownName);
    }
    let end = end_of(code, operands, address);
    if !may_stand(&places, end) {
        return Err(LineRefusal::OutOfRange);
    }
    Ok(())
}

// Whether more than one place is for memory.
fn is_move(places: &[Placed]) -> bool
    ensures { result ≡ are_moved places.now }
{
    1 < places.iter().filter(|place| place.is_memory()).count()
}

// RRR of an entry's operands.
fn rrr_of(code: EntryCode, places: &[Placed]) -> u32
    ensures { result ≡ rrr_all (code.0 / 0x10000 % 16) places.now }
{
    let mut rrr = code.rrr();
    let mut next = None;
    for place in places.iter().rev() {
        rrr = place.rrr(next, rrr);
        next = Some(*place);
    }
    rrr
}

// Stores the pair of an entry with its operands.
fn put_pair(room: &mut [u8], code: EntryCode, places: &[Placed]) -> usize
    ensures { (bs : List ℕ) → laid_at room.new result bs ≡ laid_at room.old 0 (first_byte code places.now ∷ second_byte code places.now ∷ bs) }
{
    let rrr = rrr_of(code, places);
    let aa = places.iter().fold(0, |aa, place| place.aa(aa));
    let mm = places.iter().fold(0, |mm, place| place.mm(mm));
    let high = rrr % 8 * 32 + code.dd() * 8 + aa % 128 * 2 + code.w();
    let next = stores::put_byte(room, 0, high);
    stores::put_byte(room, next, code.opcode() * 4 + mm % 256)
}

// Stores an operand's offset, if it has one.
fn put_offset(room: &mut [u8], at: usize, place: Placed) -> usize
    ensures { (bs : List ℕ) → laid_at room.new result bs ≡ laid_at room.old at (offset_laid place ++ bs) }
{
    if place.form.is_some_and(|form| form.has_offset()) {
        return stores::put_value(room, at, false, place.worth.value);
    }
    at
}

// Stores the offsets of operands.
fn put_offsets(room: &mut [u8], at: usize, places: &[Placed]) -> usize
    ensures { (bs : List ℕ) → laid_at room.new result bs ≡ laid_at room.old at (offsets_laid places.now ++ bs) }
{
    let mut next = at;
    for place in places {
        next = put_offset(room, next, *place);
    }
    next
}

// Stores the number in a place, if it has bytes: data as it is, a target as its distance from the end.
fn put_number(room: &mut [u8], at: usize, place: Placed, end: u64) -> usize
    ensures { (bs : List ℕ) → laid_at room.new result bs ≡ laid_at room.old at (number_laid end place ++ bs) }
{
    let n = place.worth.value;
    match place.kind {
        Some(PlaceKind::Byte) => stores::put_value(room, at, false, n),
        Some(PlaceKind::Word) => stores::put_value(room, at, true, n),
        Some(PlaceKind::Short) => stores::put_value(room, at, false, placed::reach(end, n)),
        Some(PlaceKind::Long) => stores::put_value(room, at, true, placed::reach(end, n)),
        _ => at,
    }
}

// Stores the numbers in places.
fn put_numbers(room: &mut [u8], at: usize, places: &[Placed], end: u64) -> usize
    ensures { (bs : List ℕ) → laid_at room.new result bs ≡ laid_at room.old at (numbers_laid end places.now ++ bs) }
{
    let mut next = at;
    for place in places {
        next = put_number(room, next, *place, end);
    }
    next
}

// Stores the second pair of MOV M,M.
fn put_second(room: &mut [u8], at: usize, code: EntryCode, to: Placed) -> usize
    ensures { (bs : List ℕ) → laid_at room.new result bs ≡ laid_at room.old at (second_laid (code.0 / 0x100 % 16) to ++ bs) }
{
    match to.form {
        Some(Form::Memory { mm, mode }) => {
            let next = stores::put_byte(room, at, mode.number() * 2 + code.w());
            stores::put_byte(room, next, 0xCC + mm % 256)
        }
        Some(Form::Offset { mm, sum: _ }) => {
            let next = stores::put_byte(room, at, 2 + code.w());
            stores::put_byte(room, next, 0xCC + mm % 256)
        }
        _ => at,
    }
}

// Lays the bytes of an instruction at the start of a room.
pub fn put(
    text: &[u8],
    code: EntryCode,
    operands: Operands,
    labels: &Labels,
    address: u32,
    room: &mut [u8],
)
    ensures { (s : Statement) → SaysInstruction text.now code operands s → room.new ≡ laid_at room.old 0 (statement_bytes (labels_of text.now labels.now) address s) }
{
    let mut places = [placed::NOTHING; 3];
    place_all(text, code, operands, labels, &mut places);
    let next = put_pair(room, code, &places);
    if is_move(&places) {
        let next = put_offsets(room, next, &places[1..]);
        let next = put_second(room, next, code, places[0]);
        put_offset(room, next, places[0]);
        return;
    }
    let next = put_offsets(room, next, &places);
    put_numbers(room, next, &places, end_of(code, operands, address));
}
