// Which label frames need no look at the rack to tell what they changed, or a look at one label alone.
ghost use Rattle.std.specs.Prelude.{◌≡◌};
ghost use Rattle.rack.specs.Facts.{TagFine};
ghost use Rattle.trace.specs.Calm.{calm_task, calm_call, one_task, one_call, owned_by, may_differ};

use frame::uid::{same_uid, uid_at};
use rack::tag::Kind;
use request::label::{Call, Target};
use request::table::{Success, Task, row_of};

// Whether a task gives what it reads.
#[tactic(auto, unfolding(crate::specs::Calm::calm_task))]
fn is_reading(success: Success) -> bool
    ensures { result ≡ calm_task success }
{
    matches!(
        success,
        Success::Block | Success::Info | Success::Blocks | Success::Locks
    )
}

// Whether a frame leaves all of every label but its slot and mask.
#[tactic(auto, unfolding(crate::specs::Calm::calm_call))]
pub fn is_calm(call: Call) -> bool
    ensures { result ≡ calm_call call }
{
    match call {
        Call::Ignored | Call::Off | Call::On | Call::EndOfFrame => false,
        Call::Nobody | Call::Inventory(_, _, _, _) | Call::Fault(_, _) => true,
        Call::Do(_, task, _, _) => is_reading(row_of(task).success),
    }
}

// Whether a task is for one UID, and is no Select, which all labels hear.
#[tactic(auto, unfolding(crate::specs::Calm::one_task))]
fn is_for_one(to: Target, task: Task) -> bool
    ensures { result ≡ one_task to task }
{
    matches!(to, Target::One) && row_of(task).code != 0x25
}

// Whether a frame changes nothing that is told of any label but the one whose UID it has.
#[tactic(auto, unfolding(crate::specs::Calm::one_call))]
pub fn is_one(call: Call) -> bool
    ensures { result ≡ one_call call }
{
    matches!(call, Call::Do(to, task, _, _) if is_for_one(to, task))
}

#[tactic(auto, using(rack::proofs::TagKinds::label_sized, label_body::proofs::BodyRoom::sized_long), unfolding(crate::specs::Calm::owned_by))]
fn is_owner(uid: [u8; 8], kind: Kind, b: &[u8]) -> bool
    requires { TagFine kind b.now }
    ensures { result ≡ owned_by uid kind b.now }
{
    matches!(kind, Kind::Label) && same_uid(uid, uid_at(b, 0))
}

// Whether a tag may have a line.
#[tactic(auto, unfolding(crate::specs::Calm::may_differ))]
pub fn may_differ(one: bool, uid: [u8; 8], kind: Kind, b: &[u8]) -> bool
    requires { TagFine kind b.now }
    ensures { result ≡ may_differ one uid kind b.now }
{
    !one || is_owner(uid, kind, b)
}
