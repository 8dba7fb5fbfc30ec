// An event as the tags hear it: what it asks of labels and what it asks of chips.
ghost use Rattle.std.specs.Prelude.{◌≡◌};
ghost use Rattle.request.specs.Signal.{signal_of};

use crate::chip::Order;
use crate::label::Request;

#[derive(Clone, Copy)]
pub struct Signal {
    pub label: Request,
    pub chip: Order,
}

// What event `number` with frame f asks.
pub fn hear(number: u8, f: &[u8]) -> Signal
    ensures { result ≡ signal_of number f.now }
{
    Signal {
        label: crate::label::hear(number, f),
        chip: crate::chip::hear(number, f),
    }
}
