// What a line says, read from the text.
ghost use Rattle.std.specs.Prelude.{◌≡◌, List, ◌∷◌, ℕ, ◌≤◌, drop};
ghost use Rattle.assembly_rules.specs.Text.{capitals, tokens_of};
ghost use Rattle.assembly_rules.specs.Text.Token.{run};
ghost use Rattle.assembly_rules.specs.Statements.{operand_parts, items_from, statement_of};
ghost use Rattle.assembly_rules.specs.Assembly.{is_reserved};
ghost use Rattle.assembler_forms.specs.Table.{NumberIs};
ghost use Rattle.assembler_lines.specs.Bodies.{run_at, HeadIs, BodyIs};

use crate::bodies::{Body, Head, LineRefusal, NameSpan};
use assembler_forms::{operands, table};
use assembler_text::tokens::TokenFound;
use assembler_text::{characters, sums, tokens};

// DB and DW as words' numbers.
const DB: u64 = 0x14244;

const DW: u64 = 0x15744;

#[tactic(auto, unfolding(crate::specs::Bodies::run_at))]
// The run that stands next.
fn run_at(text: &[u8], at: usize) -> Option<NameSpan>
    ensures { result ≡ run_at text.now at }
{
    match tokens::token_at(text, at) {
        Some(TokenFound::Run { from, to }) => Some(NameSpan { from, to }),
        _ => None,
    }
}

// The front of the line at a place: a name and a colon, or nothing.
pub fn head(text: &[u8], at: usize) -> Head
    ensures { HeadIs text.now at result }
{
    let unlabelled = Head {
        label: None,
        body: at,
    };
    let Some(name) = run_at(text, at) else {
        return unlabelled;
    };
    if characters::is_digit(characters::capital(text[name.from])) {
        return unlabelled;
    }
    match operands::past(text, name.to, b':') {
        Some(body) => Head {
            label: Some(name),
            body,
        },
        None => unlabelled,
    }
}

// Data from a place on: one sum or more, between commas. No iterator of the library walks commas, and one of its own would ask
// more laws than the loop.
fn items(text: &[u8], at: usize, two: bool) -> Result<Body, LineRefusal>
    requires { 1 ≤ at }
    ensures { BodyIs text.now result (items_from two (operand_parts (tokens_of (drop at text.now)))) }
{
    let mut low = true;
    let mut count: usize = 0;
    let mut part = Some(at);
    while let Some(place) = part {
        let sum = operands::whole_sum(text, place).ok_or(LineRefusal::UnknownForm)?;
        low &= sum.low;
        count += 1;
        part = operands::next_part(text, place);
    }
    if !low {
        return Err(LineRefusal::TooDeep);
    }
    let bytes = if two { 2 * count } else { count };
    Ok(Body::Items {
        two,
        place: at,
        bytes,
    })
}

// What a word says with what stands behind it.
fn worded(text: &[u8], at: usize, word: u64) -> Result<Body, LineRefusal>
    requires { 1 ≤ at }
    ensures { (name : List ℕ) → NumberIs word name → BodyIs text.now result (statement_of (run name ∷ tokens_of (drop at text.now))) }
{
    if word == DB {
        return items(text, at, false);
    }
    if word == DW {
        return items(text, at, true);
    }
    let codes = table::codes_of(word);
    if codes.is_empty() {
        return Err(LineRefusal::UnknownWord);
    }
    let operands = operands::operands_at(text, at);
    let code = table::fitting(codes, operands).ok_or(LineRefusal::UnknownForm)?;
    if !operands.are_low() {
        return Err(LineRefusal::TooDeep);
    }
    Ok(Body::Instruction { code, operands })
}

// What stands at a place, behind a label.
pub fn body(text: &[u8], at: usize) -> Result<Body, LineRefusal>
    ensures { BodyIs text.now result (statement_of (tokens_of (drop at text.now))) }
{
    match tokens::token_at(text, at) {
        None => Ok(Body::Blank),
        Some(TokenFound::Mark { .. }) => Err(LineRefusal::UnknownWord),
        Some(TokenFound::Run { from, to }) => {
            let word = table::run_number(&text[from..to]);
            worded(text, to, word)
        }
    }
}

// Whether a run is no name for a label: a word, DB, DW or a register.
pub fn is_reserved(run: &[u8]) -> bool
    ensures { result ≡ is_reserved (capitals run.now) }
{
    let word = table::run_number(run);
    let is_word = !table::codes_of(word).is_empty();
    let is_register = sums::register_number(run).is_some();
    is_word | (word == DB) | (word == DW) | is_register
}
