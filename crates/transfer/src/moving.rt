// A channel together with what it says of its transfer.
ghost use Rattle.std.specs.Prelude.{◌≡◌};
ghost use Rattle.transfer.specs.Setups.{setup_of};

use crate::{Setup, sides};
use ground_rules::Channel;

// A channel, and what it says of its transfer before a byte is read.
#[derive(Clone, Copy)]
pub(crate) struct Moving {
    pub(crate) channel: Channel,
    pub(crate) setup: Setup,
    ghost said: { setup ≡ setup_of channel },
}

impl Moving {
    // A channel with what it says.
    pub(crate) fn of(channel: Channel) -> Moving
        ensures { result.channel ≡ channel }
    {
        Moving {
            channel,
            setup: sides::plan(channel),
        }
    }
}
