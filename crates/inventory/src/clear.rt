// Slots and masks of a rack cleared, as a round leaves it.
ghost use Rattle.std.specs.Prelude.{◌≡◌};
ghost use Rattle.rack.specs.Facts.{RackFine};
ghost use Rattle.inventory.specs.Walk.{cleared};

use label_body::body::clear_slot;
use rack::file::{count, entry_of, kind_of, length_of};
use rack::tag::Kind;

// A label's slot and mask go, for which its body alone is lent; any other tag stays.
pub fn clear_rack(rack: &mut [u8])
    requires { RackFine rack.old }
    ensures { rack.new ≡ cleared rack.old }
{
    let n = count(rack);
    let mut at = entry_of(n);
    for i in 0..n {
        let end = at + length_of(rack, i);
        if kind_of(rack, i) == Kind::Label {
            clear_slot(&mut rack[at..end]);
        }
        at = end;
    }
}
