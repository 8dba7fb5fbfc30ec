// The locks of a label's blocks: read, set and judged here alone.
ghost use Rattle.std.specs.Prelude.{◌≡◌, ◌+◌, ◌≤◌, length, get_or};
ghost use Rattle.label_body.specs.Locks.{lock_room, lock_on, with_lock, locks_verdict};

use frame::number::byte_at;
use frame::verdict::{Verdict, judge_bytes};

// How many bytes the locks take.
#[tactic(auto, unfolding(crate::specs::Locks::lock_room))]
pub fn lock_room(b: &[u8]) -> usize
    requires { 32 ≤ length b.now }
    ensures { (result ≡ lock_room b.now) × (result ≤ 256) }
{
    b[11] as usize + 1
}

// Where the lock of block n stands.
pub(crate) fn lock_place(n: u8) -> usize
    ensures { result ≡ 32 + n }
{
    32 + n as usize
}

// The lock of block n.
#[tactic(auto, unfolding(crate::specs::Locks::lock_on))]
pub fn lock_on(b: &[u8], n: u8) -> u8
    ensures { result ≡ lock_on n b.now }
{
    byte_at(b, lock_place(n))
}

// Locks block n.
#[tactic(auto, unfolding(crate::specs::Locks::with_lock, crate::specs::Locks::lock_room))]
pub fn set_lock(b: &mut [u8], n: u8)
    requires { (32 + lock_room b.old ≤ length b.old) × (n ≤ get_or b.old 11 0) }
    ensures { b.new ≡ with_lock n b.old }
{
    b[lock_place(n)] = 1;
}

// The first offence among the locks.
#[tactic(auto, unfolding(crate::specs::Locks::locks_verdict, crate::specs::Locks::lock_room))]
pub fn judge_locks(b: &[u8]) -> Verdict
    requires { 32 + lock_room b.now ≤ length b.now }
    ensures { result ≡ locks_verdict b.now }
{
    judge_bytes(b, 32, lock_room(b), 1)
}
