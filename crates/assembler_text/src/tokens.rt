// The tokens of a line, by their places in the text.
ghost use Rattle.std.specs.Prelude.{◌≡◌, ℕ, Bool, ◌+◌, drop};
ghost use Rattle.assembler_text.specs.Places.{leading, token_at, stop_at};

use crate::characters;

// A token of a line: a run with its first place and the one behind it, or another character with the place behind it.
#[derive(Clone, Copy)]
pub enum TokenFound {
    Run { from: usize, to: usize },
    Mark { character: u8, next: usize },
}

// The place of the first character from a place on that fails a test, or of the text's end.
pub fn skip_while<F: Fn(u8) -> bool>(text: &[u8], at: usize, passes: F) -> usize
    requires { F.IsAlwaysCallable passes }
    ensures { (test : ℕ → Bool) → ((c : ℕ) (b : Bool) → F.post passes c b → b ≡ test c) → result ≡ at + leading test (drop at text.now) }
{
    for i in at..text.len() {
        if !passes(text[i]) {
            return i;
        }
    }
    at.max(text.len())
}

// The token at a place, blanks before it left out; none where the line ends.
#[tactic(auto, unfolding(crate::specs::Places::token_at, crate::specs::Places::token_from, crate::specs::Places::past_blanks, crate::specs::Places::run_end))]
pub fn token_at(text: &[u8], at: usize) -> Option<TokenFound>
    ensures { result ≡ token_at text.now at }
{
    let from = skip_while(text, at, characters::is_blank);
    let character = *text.get(from)?;
    if characters::is_run(character) {
        let to = skip_while(text, from, characters::is_run);
        return Some(TokenFound::Run { from, to });
    }
    if characters::ends_line(character) {
        return None;
    }
    Some(TokenFound::Mark {
        character,
        next: from + 1,
    })
}

// The place of the comma that stands next in the line, or of the line's end.
#[tactic(auto, unfolding(crate::specs::Places::stop_at))]
pub fn stop_at(text: &[u8], at: usize) -> usize
    ensures { result ≡ stop_at text.now at }
{
    skip_while(text, at, |c| c != 44 && !characters::ends_line(c))
}
