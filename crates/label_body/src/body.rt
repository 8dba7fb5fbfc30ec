// A label's body: the label it holds, a step in place, and what a walk reads and clears. `32 ≤ length` stands in each contract and in no type: bodies are
// lent mutably too, and a value around the bytes would be opened, changed and closed at each, for a fact that is one comparison.
ghost use Rattle.std.specs.Prelude.{◌≡◌, ◌≤◌, ◌<◌, length, get_or, set};
ghost use Rattle.label_body.specs.Body.{Sized, load_of, store_of, block_at, block_of, named, worked, stepped, next_label, said_label};
ghost use Rattle.label_body.specs.Facts.{WorkFits};
ghost use Rattle.label_body.specs.Slots.{uid_of, takes_part, clear};

use crate::locks::{lock_on, lock_room, set_lock};
use frame::number::number_at;
use frame::put::{put_bytes, put_number};
use frame::uid::uid_at;
use label::step::{Answer, Label, Stepped, Work, passing};
use request::label::{Call, Family, Request};

// The label that a body holds.
#[tactic(auto, unfolding(crate::specs::Body::load_of))]
pub fn load(b: &[u8]) -> Label
    requires { 32 ≤ length b.now }
    ensures { result ≡ load_of b.now }
{
    Label {
        uid: uid_at(b, 0),
        dsfid: b[8],
        afi: b[9],
        locks: b[10],
        blocks: b[11],
        size: b[12],
        ic: b[13],
        state: b[14],
        slot: b[15],
        bits: b[16],
        mask: number_at(b, 17, 8),
    }
}

// Puts a byte into a body. What is there already is not written again: few steps change a DSFID, an AFI or the locks.
#[tactic(auto, using(crate::proofs::BodyStored::set_same))]
fn put_changed(b: &mut [u8], at: usize, value: u8)
    requires { at < length b.old }
    ensures { b.new ≡ set b.old at value }
{
    if b[at] != value {
        b[at] = value;
    }
}

// Puts what a step can change of a label into a body: DSFID, AFI, locks, state, slot and mask.
#[tactic(auto, unfolding(crate::specs::Body::store_of))]
pub fn store(b: &mut [u8], l: Label)
    requires { 32 ≤ length b.old }
    ensures { b.new ≡ store_of b.old l }
{
    put_changed(b, 8, l.dsfid);
    put_changed(b, 9, l.afi);
    put_changed(b, 10, l.locks);
    b[14] = l.state;
    b[15] = l.slot;
    b[16] = l.bits;
    put_number(b, 17, l.mask, 8);
}

// Where block n stands.
#[tactic(auto, unfolding(crate::specs::Body::block_at))]
pub fn place(b: &[u8], n: u8) -> usize
    requires { 32 ≤ length b.now }
    ensures { result ≡ block_at b.now n }
{
    let size = b[12] as usize + 1;
    32 + lock_room(b) + n as usize * size
}

// The bytes of block n.
#[tactic(auto, unfolding(crate::specs::Body::block_at, crate::specs::Body::Sized))]
pub fn block(b: &[u8], n: u8) -> &[u8]
    requires { Sized b.now × (n ≤ get_or b.now 11 0) }
    ensures { result.now ≡ block_of n b.now }
{
    let at = place(b, n);
    let size = b[12] as usize + 1;
    &b[at..at + size]
}

// The lock of the block that a call's first parameter names.
#[tactic(auto, unfolding(crate::specs::Body::named))]
fn named_lock(b: &[u8], call: Call) -> u8
    ensures { result ≡ named call b.now }
{
    match call {
        Call::Do(_, _, p, _) => lock_on(b, p.first),
        _ => 0,
    }
}

// Writes the block, or locks the one, that a step names.
#[tactic(auto, using(crate::proofs::BodyRoom::sized_long, crate::proofs::BodyRoom::block_fits, crate::proofs::BodyRoom::locks_fit), unfolding(crate::specs::Body::worked, crate::specs::Facts::WorkFits))]
fn do_work(b: &mut [u8], work: Option<Work>, data: &[u8])
    requires { Sized b.old × WorkFits work (length «data».now) b.old }
    ensures { b.new ≡ worked work «data».now b.old }
{
    match work {
        None => {}
        Some(Work::Write(n)) => {
            let at = place(b, n);
            put_bytes(b, at, data, data.len());
        }
        Some(Work::Lock(n)) => set_lock(b, n),
    }
}

// The step of the label that a body holds; count bytes were sent.
#[tactic(auto, unfolding(crate::specs::Body::stepped))]
pub fn act_on(b: &[u8], r: Request, count: usize) -> Stepped
    requires { 32 ≤ length b.now }
    ensures { result ≡ stepped r count b.now }
{
    load(b).act(r, count, named_lock(b, r.call))
}

// A label's step in place: its body becomes the next body, and what it answers comes back.
#[tactic(auto, using(crate::proofs::BodyRoom::sized_long, crate::proofs::BodyStored::stored_sized, crate::proofs::StepFits::step_fits), unfolding(crate::specs::Body::said_label, crate::specs::Body::next_label))]
pub fn step(b: &mut [u8], r: Request, data: &[u8]) -> Answer
    requires { Sized b.old }
    ensures { (result ≡ said_label r (length «data».now) b.old)
        × (b.new ≡ next_label r «data».now b.old) }
{
    let stepped = act_on(b, r, data.len());
    store(b, stepped.next);
    do_work(b, stepped.work, data);
    stepped.answer
}

#[tactic(auto, unfolding(crate::specs::Slots::uid_of))]
pub fn uid_of(b: &[u8]) -> u64
    requires { 32 ≤ length b.now }
    ensures { result ≡ uid_of b.now }
{
    number_at(b, 0, 8)
}

// Whether it is ready or selected, and the family lets it answer.
#[tactic(auto, unfolding(crate::specs::Slots::takes_part, label::specs::Step::heeds, label::specs::Step::ready, crate::specs::Body::load_of))]
pub fn takes_part(b: &[u8], family: Family) -> bool
    requires { 32 ≤ length b.now }
    ensures { result ≡ takes_part family b.now }
{
    matches!(b[14], 1 | 3) && passing(family, b[9])
}

// No slot, no mask.
#[tactic(auto, unfolding(crate::specs::Slots::clear, crate::specs::Slots::seek))]
pub fn clear_slot(b: &mut [u8])
    requires { 32 ≤ length b.old }
    ensures { b.new ≡ clear b.old }
{
    b[15] = 255;
    b[16] = 0;
    put_number(b, 17, 0, 8);
}
