// A channel with some of its registers changed and every other as it was.
ghost use Rattle.std.specs.Prelude.{false, ◌≡◌};
ghost use Rattle.ground_rules.specs.Updates as Updates;
ghost use Rattle.ground_rules.specs.Updates.{with_control, renewed, holding, dropped, stopped_psw};

use crate::psw;
use ground_rules::{Channel, Mode, Pointer};

// The channel with other TP, PP, PSW, mode and mark.
#[tactic(auto, unfolding(ground_rules::specs::Updates::with_control))]
pub fn with_control(c: Channel, tp: Pointer, pp: u32, psw: u8, mode: Mode, armed: bool) -> Channel
    ensures { result ≡ with_control c tp pp psw mode armed }
{
    let ga = c.ga;
    let gb = c.gb;
    let gc = c.gc;
    let fields = c.fields;
    let held = c.held;
    Channel {
        ga,
        gb,
        gc,
        tp,
        pp,
        bc: c.bc,
        ix: c.ix,
        cc: c.cc,
        mc: c.mc,
        psw,
        mode,
        armed,
        fields,
        held,
    }
}

// The channel that holds a byte, or none, and is otherwise as it was. Its pointers are copied by their parts: as one of
// eight bytes each would be taken apart and put together again at every step.
pub fn holds(c: Channel, held: Option<u8>) -> Channel
    ensures { result ≡ holding c held }
{
    let mode = c.mode;
    let fields = c.fields;
    Channel {
        ga: Pointer {
            address: c.ga.address,
            tag: c.ga.tag,
        },
        gb: Pointer {
            address: c.gb.address,
            tag: c.gb.tag,
        },
        gc: Pointer {
            address: c.gc.address,
            tag: c.gc.tag,
        },
        tp: Pointer {
            address: c.tp.address,
            tag: c.tp.tag,
        },
        pp: c.pp,
        bc: c.bc,
        ix: c.ix,
        cc: c.cc,
        mc: c.mc,
        psw: c.psw,
        mode,
        armed: c.armed,
        fields,
        held,
    }
}

// The channel as an instruction finds it: other TP and PSW, no mark, and nothing held.
#[tactic(auto, unfolding(ground_rules::specs::Updates::renewed))]
pub fn begun(c: Channel, tp: Pointer, psw: u8) -> Channel
    ensures { result ≡ dropped (renewed c tp c.ix psw c.mode false) }
{
    let mut next = holds(c, None);
    next.tp = tp;
    next.psw = psw;
    next.armed = false;
    next
}

// PSW of a channel that stops.
#[tactic(auto, unfolding(ground_rules::specs::Updates::stopped_psw))]
pub fn stopped_psw(before: u8) -> u8
    ensures { result ≡ stopped_psw before }
{
    psw::with(psw::with(before, psw::TB, false), psw::XF, false)
}

// The channel that halts.
#[tactic(auto, unfolding(ground_rules::specs::Updates::halted))]
pub fn halted(c: Channel) -> Channel
    ensures { result ≡ Updates.halted c }
{
    let tp = c.tp;
    holds(
        with_control(c, tp, c.pp, stopped_psw(c.psw), Mode::Idle, false),
        None,
    )
}
