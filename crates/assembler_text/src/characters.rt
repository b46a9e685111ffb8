// What characters are.
ghost use Rattle.std.specs.Prelude.{◌≡◌};
ghost use Rattle.assembly_rules.specs.Text.{capital_of, is_digit, is_run, is_blank, ends_line};

// A small letter as a capital.
#[tactic(auto, unfolding(assembly_rules::specs::Text::capital_of))]
pub fn capital(c: u8) -> u8
    ensures { result ≡ capital_of c }
{
    c.to_ascii_uppercase()
}

// Whether it is a digit.
#[tactic(auto, unfolding(assembly_rules::specs::Text::is_digit))]
pub fn is_digit(c: u8) -> bool
    ensures { result ≡ is_digit c }
{
    c.is_ascii_digit()
}

// Whether it belongs to a run: a letter, a digit or _.
#[tactic(auto, unfolding(assembly_rules::specs::Text::is_run, assembly_rules::specs::Text::is_digit, assembly_rules::specs::Text::is_capital, assembly_rules::specs::Text::capital_of))]
pub(crate) fn is_run(c: u8) -> bool
    ensures { result ≡ is_run c }
{
    c.is_ascii_alphanumeric() || c == b'_'
}

// Whether it is a space, a tab or CR.
#[tactic(auto, unfolding(assembly_rules::specs::Text::is_blank))]
pub(crate) fn is_blank(c: u8) -> bool
    ensures { result ≡ is_blank c }
{
    matches!(c, b' ' | b'\t' | b'\r')
}

// Whether the tokens of a line end here: LF, or a comment.
#[tactic(auto, unfolding(assembly_rules::specs::Text::ends_line))]
pub(crate) fn ends_line(c: u8) -> bool
    ensures { result ≡ ends_line c }
{
    matches!(c, b'\n' | b';')
}
