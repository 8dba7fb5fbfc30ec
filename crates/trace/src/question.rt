// Whether a rack has a tag of which something holds: one question for all of them, asked of each tag in turn.
ghost use Rattle.std.specs.Prelude.{◌≡◌, true, ◌≤◌, length};
ghost use Rattle.rack.specs.Facts.{TagFine};
ghost use Rattle.trace.specs.Question.{uid_on, label_fits, chip_fits, tag_fits, any_of, lowest_from};

use label_body::body::{takes_part, uid_of};
use rack::tag::Kind;
use rack::whole::Rack;
use request::label::Family;

// What is asked of a tag. It is a value and no closure: a closure would say in its clause once more what it asks, and here one definition says it.
#[derive(Clone, Copy)]
pub enum Ask {
    // A label; one that is not off; one in this state.
    Label,
    LabelOn,
    LabelIn(u8),
    // A label that is ready or selected, of a family.
    Ready(Family),
    // The label with this UID; that label, and it is not off.
    Uid(u64),
    UidOn(u64),
    // A label in this slot.
    Slot(u8),
    // A chip; one that is not off; one in this state.
    Chip,
    ChipOn,
    ChipIn(u8),
}

// Whether a label has this UID and is not off.
#[tactic(auto, unfolding(crate::specs::Question::uid_on))]
fn uid_on(b: &[u8], u: u64) -> bool
    requires { 32 ≤ length b.now }
    ensures { result ≡ uid_on u b.now }
{
    uid_of(b) == u && b[14] != 0
}

#[tactic(auto, unfolding(crate::specs::Question::label_fits))]
fn label_fits(ask: Ask, b: &[u8]) -> bool
    requires { 32 ≤ length b.now }
    ensures { result ≡ label_fits ask b.now }
{
    let state = b[14];
    match ask {
        Ask::Label => true,
        Ask::LabelOn => state != 0,
        Ask::LabelIn(s) => state == s,
        Ask::Ready(family) => takes_part(b, family),
        Ask::Uid(u) => uid_of(b) == u,
        Ask::UidOn(u) => uid_on(b, u),
        Ask::Slot(s) => b[15] == s,
        Ask::Chip | Ask::ChipOn | Ask::ChipIn(_) => false,
    }
}

#[tactic(auto, unfolding(crate::specs::Question::chip_fits))]
fn chip_fits(ask: Ask, state: u8) -> bool
    ensures { result ≡ chip_fits ask state }
{
    match ask {
        Ask::Chip => true,
        Ask::ChipOn => state != 0,
        Ask::ChipIn(s) => state == s,
        _ => false,
    }
}

#[tactic(auto, using(rack::proofs::TagKinds::fits_label, rack::proofs::TagKinds::fits_chip), unfolding(crate::specs::Question::tag_fits))]
fn tag_fits(ask: Ask, kind: Kind, b: &[u8]) -> bool
    requires { TagFine kind b.now }
    ensures { result ≡ tag_fits ask kind b.now }
{
    match kind {
        Kind::Label => label_fits(ask, b),
        Kind::Chip => chip_fits(ask, b[76]),
        Kind::Other => false,
    }
}

// Whether some tag fits.
#[tactic(auto, unfolding(crate::specs::Question::any_of))]
pub fn any(rack: &Rack, ask: Ask) -> bool
    ensures { result ≡ any_of ask rack.now }
{
    for i in 0..rack.count() {
        if tag_fits(ask, rack.kind(i), rack.body(i)) {
            return true;
        }
    }
    false
}

// The lowest slot that a label has, or 16.
#[tactic(auto, unfolding(crate::specs::Question::lowest_from))]
pub fn lowest_slot(rack: &Rack) -> u8
    ensures { result ≡ lowest_from 16 0 rack.now }
{
    for s in 0..16 {
        if any(rack, Ask::Slot(s)) {
            return s;
        }
    }
    16
}
