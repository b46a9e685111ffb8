// Whether tokens are a sum, and how deep its parentheses go.
ghost use Rattle.std.specs.Prelude.{◌≡◌, drop};
ghost use Rattle.assembly_rules.specs.Text.{capitals, tokens_of, before_comma};
ghost use Rattle.assembly_rules.specs.Sums.{begins_digit, is_term, mark_role, scan_start, scan_from};
ghost use Rattle.assembler_text.specs.Places.{register_named, role_at};

use crate::tokens::TokenFound;
use crate::{characters, constants, tokens};
use assembly_rules::{Role, Scan};

// A register by its name: RRR, or 8 for PP.
#[tactic(auto, using(crate::proofs::NameLaws::two_capitals), unfolding(assembly_rules::specs::Sums::register_number, assembly_rules::specs::Sums::index_in, listing_rules::specs::Characters::same_text))]
pub fn register_number(run: &[u8]) -> Option<u32>
    ensures { result ≡ register_named (capitals run.now) }
{
    let [first, second] = run else {
        return None;
    };
    match (characters::capital(*first), characters::capital(*second)) {
        (b'G', b'A') => Some(0),
        (b'G', b'B') => Some(1),
        (b'G', b'C') => Some(2),
        (b'B', b'C') => Some(3),
        (b'T', b'P') => Some(4),
        (b'I', b'X') => Some(5),
        (b'C', b'C') => Some(6),
        (b'M', b'C') => Some(7),
        (b'P', b'P') => Some(8),
        _ => None,
    }
}

// Whether a run begins with a digit, as constants do.
pub(crate) fn begins_digit(run: &[u8]) -> bool
    ensures { result ≡ begins_digit (capitals run.now) }
{
    run.first().is_some_and(|c| characters::is_digit(*c))
}

// Whether a run is a term of a sum: a constant, or a name that is no register.
#[tactic(auto, unfolding(assembly_rules::specs::Sums::is_term))]
fn is_term(run: &[u8]) -> bool
    ensures { result ≡ is_term (capitals run.now) }
{
    if begins_digit(run) {
        constants::constant(run).is_some()
    } else {
        register_number(run).is_none()
    }
}

// What a character by itself is in a sum.
fn mark_role(c: u8) -> Role
    ensures { result ≡ mark_role c }
{
    match c {
        b'+' => Role::Plus,
        b'-' => Role::Minus,
        b'(' => Role::Opens,
        b')' => Role::Closes,
        _ => Role::Other,
    }
}

// The token of a sum that stands at a place, with the place behind it; none at a comma or the line's end.
#[tactic(auto, unfolding(crate::specs::Places::role_at), using(crate::proofs::PlaceLaws::run_lies))]
fn role_at(text: &[u8], at: usize) -> Option<(Role, usize)>
    ensures { result ≡ role_at text.now at }
{
    match tokens::token_at(text, at)? {
        TokenFound::Run { from, to } => {
            let role = if is_term(&text[from..to]) {
                Role::Term
            } else {
                Role::Other
            };
            Some((role, to))
        }
        TokenFound::Mark {
            character: b',',
            ..
        } => None,
        TokenFound::Mark { character, next } => Some((mark_role(character), next)),
    }
}

// The tokens from a place up to a comma or the line's end, scanned as a sum.
pub fn scan(text: &[u8], at: usize) -> Scan
    ensures { result ≡ scan_from scan_start (before_comma (tokens_of (drop at text.now))) }
{
    let mut scan = Scan::start();
    let mut i = at;
    while let Some((role, next)) = role_at(text, i) {
        scan = scan.after(role);
        i = next;
    }
    scan
}
