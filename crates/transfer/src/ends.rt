// How a transfer ends: the masked compare, the codes of the ends, and what an end does to TP and XF.
ghost use Rattle.std.specs.Prelude.{◌≡◌};
ghost use Rattle.transfer_rules.specs.Ends as Ends;
ghost use Rattle.transfer_rules.specs.Ends.{code_if, offset_of, ended_by};

use ground_rules::Channel;

// Whether a byte meets TMC.
pub fn meets(tmc: u32, mc: u16, byte: u8) -> bool
    ensures { result ≡ Ends.meets_tmc tmc mc byte }
{
    let found = words::matches(byte, mc);
    let on = tmc % 4 != 0;
    if words::bit(tmc, 2) {
        on & !found
    } else {
        on & found
    }
}

// The code of an end that came, else 0.
pub(crate) fn code_if(came: bool, code: u32) -> u32
    ensures { result ≡ code_if came code }
{
    if came { code } else { 0 }
}

// The larger of two codes.
pub(crate) fn larger(a: u32, b: u32) -> u32
    ensures { result ≡ Ends.larger a b }
{
    if a < b { b } else { a }
}

// The offset that a code stands for.
pub fn offset(code: u32) -> u32
    ensures { result ≡ offset_of code }
{
    match code {
        2 => 4,
        3 => 8,
        _ => 0,
    }
}

// A channel whose transfer an end of a code ends; code 0 is no end.
pub fn ended(c: Channel, code: u32) -> Channel
    ensures { result ≡ ended_by c code }
{
    if code == 0 {
        return c;
    }
    let mut next = c;
    next.tp = crate::sides::gained(true, c.tp, offset(code));
    next.psw = machine::psw::with(c.psw, machine::psw::XF, false);
    next
}
