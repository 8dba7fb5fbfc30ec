// Whose a place of a rack file is, also of one that is not well-formed: what a refusal names.
ghost use Rattle.std.specs.Prelude.{◌≡◌, ◌≤◌, ◌<◌};
ghost use Rattle.rack.specs.File.{kind_at, length_at};
ghost use Rattle.rack.specs.Place.{entry_of, within_entry, holder_of, IsHeld};

use crate::file::entry_of;
use crate::tag::Kind;
use frame::number::byte_at;

// A tag, where its body starts, and its kind.
#[derive(Clone, Copy)]
pub struct Held {
    pub tag: usize,
    pub start: usize,
    pub kind: Kind,
}

// The tag whose entry holds a place.
pub fn entry_holding(place: usize) -> usize
    ensures { result ≡ entry_of place }
{
    place.saturating_sub(2) / 8
}

// Where in that entry it stands.
pub fn within_entry(place: usize) -> usize
    ensures { result ≡ within_entry place }
{
    place.saturating_sub(2) % 8
}

// The length of body i, from its entry, as far as that stands in the file.
fn length_at(rack: &[u8], i: usize) -> usize
    requires { i ≤ 255 }
    ensures { (result ≡ length_at rack.now i) × (result < 65536) }
{
    let entry = entry_of(i);
    let low = byte_at(rack, entry + 2);
    let high = byte_at(rack, entry + 3);
    usize::from(low) + usize::from(high) * 256
}

fn as_held(rack: &[u8], tag: usize, start: usize) -> Held
    requires { tag ≤ 255 }
    ensures { (result.tag ≡ tag) × (result.start ≡ start) × (result.kind ≡ kind_at rack.now tag) }
{
    let kind = Kind::from(byte_at(rack, entry_of(tag)));
    Held { tag, start, kind }
}

// The tag whose body holds a place.
pub fn holder(rack: &[u8], place: usize) -> Held
    ensures { IsHeld rack.now place result }
{
    let n = usize::from(byte_at(rack, 1));
    let mut at = entry_of(n);
    for i in 0..n {
        let next = at + length_at(rack, i);
        if place < next {
            return as_held(rack, i, at);
        }
        at = next;
    }
    as_held(rack, n, at)
}
