// Who answered, where several did.
ghost use Rattle.std.specs.Prelude.{◌≡◌, ◌<◌};
ghost use Rattle.print.specs.Line.{laid};
ghost use Rattle.print.specs.Seen.{seen};
ghost use Rattle.rack.specs.File.{count_of, kind_at};
ghost use Rattle.rack.specs.Facts.{TagFine, body_of};
ghost use Rattle.rack.specs.Tag.{carrying};
ghost use Rattle.trace.specs.Owners.{tag_uid, answers_by, owner_text, owners_text};

use crate::change::put_when;
use chip_body::body::uid_of;
use frame::number::byte_at;
use frame::uid::uid_at;
use print::line::Line;
use rack::tag::{Kind, said_of, speaking};
use rack::whole::Rack;
use request::signal::Signal;

#[tactic(auto, using(print::proofs::Lines::lines, rack::proofs::TagKinds::label_sized, rack::proofs::TagKinds::chip_80, label_body::proofs::BodyRoom::sized_long), unfolding(crate::specs::Owners::tag_uid))]
fn put_tag_uid(line: &mut Line, kind: Kind, b: &[u8])
    requires { TagFine kind b.now }
    ensures { seen line.new ≡ laid (seen line.old) (tag_uid kind b.now) }
{
    match kind {
        Kind::Label => line.uid(uid_at(b, 0)),
        Kind::Chip => line.uid(uid_of(b)),
        Kind::Other => {}
    }
}

// Tag i's UID, behind a comma where there are more before it.
#[tactic(auto, using(print::proofs::Lines::lines), unfolding(crate::specs::Owners::owner_text))]
fn put_owner(line: &mut Line, more: bool, rack: &Rack, i: usize)
    requires { i < count_of rack.now }
    ensures { seen line.new ≡ laid (seen line.old) (owner_text more (kind_at rack.now i) (body_of rack.now i)) }
{
    put_when(line, more, b", ");
    put_tag_uid(line, rack.kind(i), rack.body(i));
}

// Whether tag i answers.
#[tactic(auto, unfolding(crate::specs::Owners::answers_by))]
fn answers(rack: &Rack, i: usize, signal: Signal, bytes: &[u8], draw: u8) -> bool
    requires { i < count_of rack.now }
    ensures { result ≡ answers_by (carrying signal bytes.now) draw (kind_at rack.now i) (body_of rack.now i) }
{
    speaking(said_of(rack.kind(i), rack.body(i), signal, bytes, draw))
}

// The UIDs of the tags that answer, in the order of the entries.
#[tactic(auto, using(print::proofs::Lines::gathered, crate::proofs::QuestionTags::some_none, crate::proofs::QuestionTags::some_more), unfolding(crate::specs::Owners::owners_text))]
pub fn put_owners(line: &mut Line, signal: Signal, bytes: &[u8], draws: &[u8], rack: &Rack)
    ensures { seen line.new ≡ laid (seen line.old) (owners_text (carrying signal bytes.now) draws.now rack.now) }
{
    let mut more = false;
    for i in 0..rack.count() {
        if answers(rack, i, signal, bytes, byte_at(draws, i)) {
            put_owner(line, more, rack, i);
            more = true;
        }
    }
}
