// What a sum is worth: sum calls term, and term calls sum inside parentheses.
ghost use Rattle.std.specs.Prelude.{◌≡◌, drop};
ghost use Rattle.assembly_rules.specs.Text.{capitals, tokens_of};
ghost use Rattle.assembly_rules.specs.Sums.{combined_worth, close_at, run_read, term_of, sum_within, sum_worth};
ghost use Rattle.assembler_text.specs.Places.{labels_of, mark_of, sign_at, lead_at};
ghost use Rattle.assembler_text.specs.Reads.{read_as, closed_as, worth_before};

use crate::labels::Labels;
use crate::tokens::TokenFound;
use crate::{constants, sums, tokens};
use assembly_rules::Worth;

// How many parentheses may be open at once.
const MOST_OPEN: u32 = 8;

// Why no worth was read: more parentheses are open than allowed, or no sum stands there.
#[derive(Clone, Copy)]
pub(crate) enum Unsummed {
    TooDeep,
    NoSum,
}

// A sign between terms.
#[derive(Clone, Copy)]
pub(crate) enum Sign {
    Plus,
    Minus,
}

// The sign that stands at a place, with the place behind it.
#[tactic(auto, unfolding(crate::specs::Places::sign_at))]
fn sign_at(text: &[u8], at: usize) -> Option<(Sign, usize)>
    ensures { result ≡ sign_at text.now at }
{
    match tokens::token_at(text, at)? {
        TokenFound::Mark {
            character: b'+',
            next,
        } => Some((Sign::Plus, next)),
        TokenFound::Mark {
            character: b'-',
            next,
        } => Some((Sign::Minus, next)),
        _ => None,
    }
}

// The sign before a sum's first term, with the place behind it: a minus, or a plus where none stands there.
#[tactic(auto, unfolding(crate::specs::Places::lead_at))]
fn lead_at(text: &[u8], at: usize) -> (Sign, usize)
    ensures { result ≡ lead_at text.now at }
{
    match sign_at(text, at) {
        Some((Sign::Minus, next)) => (Sign::Minus, next),
        _ => (Sign::Plus, at),
    }
}

// A worth with another one added or taken away.
#[tactic(auto, unfolding(assembly_rules::specs::Sums::combined_worth))]
fn combined(sign: Sign, a: Worth, b: Worth) -> Worth
    ensures { result ≡ combined_worth (mark_of sign) a b }
{
    let value = match sign {
        Sign::Plus => a.value % 65536 + b.value % 65536,
        Sign::Minus => a.value % 65536 + 65536 - b.value % 65536,
    };
    Worth {
        value: value % 65536,
        known: a.known & b.known,
    }
}

// The place behind the parenthesis that closes at a place.
fn close(text: &[u8], at: usize) -> Result<usize, Unsummed>
    ensures { (w : _) → closed_as text.now w result ≡ close_at w (tokens_of (drop at text.now)) }
{
    match tokens::token_at(text, at) {
        Some(
            TokenFound::Mark {
                character: b')',
                next,
            },
        ) => Ok(next),
        _ => Err(Unsummed::NoSum),
    }
}

// What a run is worth: a constant, or a name that is no register.
#[tactic(auto, unfolding(crate::specs::Reads::worth_before, assembly_rules::specs::Sums::run_read))]
fn run_worth(text: &[u8], run: &[u8], labels: &Labels) -> Option<Worth>
    ensures { (ts : _) → worth_before ts result ≡ run_read (labels_of text.now labels.now) (capitals run.now) ts }
{
    if sums::begins_digit(run) {
        return constants::constant(run).map(Worth::known);
    }
    match sums::register_number(run) {
        Some(_) => None,
        None => Some(labels.worth_of(text, run)),
    }
}

// One term: a constant, a name, or a sum in parentheses, of which `depth` may be open.
#[cycle(sum_term)]
fn term(text: &[u8], at: usize, depth: u32, labels: &Labels) -> Result<(Worth, usize), Unsummed>
    ensures { read_as text.now result ≡ term_of depth (labels_of text.now labels.now) (tokens_of (drop at text.now)) }
{
    match tokens::token_at(text, at) {
        Some(TokenFound::Run { from, to }) => {
            let worth = run_worth(text, &text[from..to], labels).ok_or(Unsummed::NoSum)?;
            Ok((worth, to))
        }
        Some(
            TokenFound::Mark {
                character: b'(',
                next,
            },
        ) => {
            if depth == 0 {
                return Err(Unsummed::TooDeep);
            }
            let (worth, behind) = sum(text, next, depth - 1, labels)?;
            Ok((worth, close(text, behind)?))
        }
        _ => Err(Unsummed::NoSum),
    }
}

// Terms with signs between them.
#[cycle(sum_term)]
fn sum(text: &[u8], at: usize, depth: u32, labels: &Labels) -> Result<(Worth, usize), Unsummed>
    ensures { read_as text.now result ≡ sum_within depth (labels_of text.now labels.now) (tokens_of (drop at text.now)) }
{
    let (sign, first) = lead_at(text, at);
    let (worth, behind) = term(text, first, depth, labels)?;
    let mut total = combined(sign, Worth::known(0), worth);
    let mut i = behind;
    while let Some((sign, next)) = sign_at(text, i) {
        let (worth, behind) = term(text, next, depth, labels)?;
        total = combined(sign, total, worth);
        i = behind;
    }
    Ok((total, i))
}

// What the sum at a place is worth.
pub fn value(text: &[u8], at: usize, labels: &Labels) -> Worth
    ensures { result ≡ sum_worth (labels_of text.now labels.now) (tokens_of (drop at text.now)) }
{
    match sum(text, at, MOST_OPEN, labels) {
        Ok((worth, _)) => worth,
        Err(_) => Worth::unknown(),
    }
}
