// What an event changed: a line for each tag whose told fields are others.
ghost use Rattle.std.specs.Prelude.{◌≡◌, ◌≤◌, ◌<◌};
ghost use Rattle.print.specs.Line.{laid};
ghost use Rattle.print.specs.Seen.{seen};
ghost use Rattle.rack.specs.File.{count_of, kind_at};
ghost use Rattle.rack.specs.Facts.{TagFine, body_of};
ghost use Rattle.trace.specs.Calm.{may_differ, Only};
ghost use Rattle.trace.specs.Changes.{tag_line, lines_text, changes_text};

use crate::calm::may_differ;
use crate::chips::put_chip_line;
use crate::labels::put_label_line;
use print::line::Line;
use rack::tag::Kind;
use rack::whole::Rack;

// A tag's line, where it has one.
#[tactic(auto, using(print::proofs::Lines::lines, rack::proofs::TagKinds::label_sized, rack::proofs::TagKinds::chip_80), unfolding(crate::specs::Changes::tag_line))]
fn put_tag_line(line: &mut Line, kind: Kind, a: &[u8], b: &[u8])
    requires { TagFine kind b.now }
    ensures { seen line.new ≡ laid (seen line.old) (tag_line kind a.now b.now) }
{
    match kind {
        Kind::Label => put_label_line(line, a, b),
        Kind::Chip => put_chip_line(line, a, b),
        Kind::Other => {}
    }
}

// Whether tag i, on the rack before, may have a line.
#[tactic(auto, unfolding(crate::specs::Calm::may_differ))]
fn may_have_line(one: bool, uid: [u8; 8], rack: &Rack, i: usize) -> bool
    requires { i < count_of rack.now }
    ensures { result ≡ may_differ one uid (kind_at rack.now i) (body_of rack.now i) }
{
    may_differ(one, uid, rack.kind(i), rack.body(i))
}

// Tag i's line, where it has one.
#[tactic(auto, using(print::proofs::Lines::lines, rack::proofs::TagKinds::label_sized, rack::proofs::TagKinds::chip_80), unfolding(crate::specs::Changes::tag_line))]
fn put_line_at(line: &mut Line, old: &Rack, new: &Rack, i: usize)
    requires { (i < count_of old.now) × (i < count_of new.now) }
    ensures { seen line.new ≡ laid (seen line.old) (tag_line (kind_at new.now i) (body_of old.now i) (body_of new.now i)) }
{
    put_tag_line(line, new.kind(i), old.body(i), new.body(i));
}

// The lines of all tags; of others than those that may have one none is looked for.
#[tactic(auto, using(print::proofs::Lines::gathered), unfolding(crate::specs::Changes::lines_text, crate::specs::Calm::Only))]
fn put_lines(line: &mut Line, one: bool, uid: [u8; 8], old: &Rack, new: &Rack)
    requires value { count_of old.now ≡ count_of new.now }
    requires only { Only one uid old.now new.now }
    ensures { seen line.new ≡ laid (seen line.old) (lines_text old.now new.now) }
{
    for i in 0..new.count() {
        if may_have_line(one, uid, old, i) {
            put_line_at(line, old, new, i);
        }
    }
}

// What changed between a rack and the one that an event left; where `one` holds, of the label with this UID alone.
#[tactic(auto, using(print::proofs::Lines::lines), unfolding(crate::specs::Changes::changes_text))]
pub fn put_changes(line: &mut Line, one: bool, uid: [u8; 8], old: &Rack, new: &Rack)
    requires { Only one uid old.now new.now }
    ensures { seen line.new ≡ laid (seen line.old) (changes_text old.now new.now) }
{
    if old.count() == new.count() {
        put_lines(line, one, uid, old, new);
    }
}
