// A rack as text, or the line why it is refused.
ghost use Rattle.std.specs.Prelude.{◌≡◌};
ghost use Rattle.frame.specs.Choose.{gather};
ghost use Rattle.rack.specs.File.{count_of};
ghost use Rattle.rack.specs.Facts.{TagFine};
ghost use Rattle.print.specs.Line.{laid};
ghost use Rattle.print.specs.Seen.{seen};
ghost use Rattle.sheet.specs.Tags.{head_text, tag_text, tag_at, rack_text, sheet_text};

use crate::chips::put_chip;
use crate::labels::put_label;
use crate::refusal::put_refusal;
use crate::words::put_tags_word;
use print::line::Line;
use rack::tag::Kind;
use rack::whole::Rack;

// The first line: n tags in a file of so many bytes.
#[tactic(auto, using(print::proofs::Lines::lines), unfolding(crate::specs::Tags::head_text))]
pub fn put_head(line: &mut Line, n: usize, len: usize)
    ensures { seen line.new ≡ laid (seen line.old) (head_text n len) }
{
    line.put(b"rack edition 1  # ");
    line.decimal(n as u64);
    put_tags_word(line, n);
    line.decimal(len as u64);
    line.put(b" bytes\n");
}

// Tag i, by its kind.
#[tactic(auto, using(print::proofs::Lines::lines, rack::proofs::TagKinds::label_sized, rack::proofs::TagKinds::chip_80), unfolding(crate::specs::Tags::tag_text))]
pub fn put_tag(line: &mut Line, kind: Kind, i: usize, body: &[u8])
    requires { TagFine kind body.now }
    ensures { seen line.new ≡ laid (seen line.old) (tag_text kind i body.now) }
{
    match kind {
        Kind::Label => put_label(line, i, body),
        Kind::Chip => put_chip(line, i, body),
        Kind::Other => {}
    }
}

#[tactic(auto, using(print::proofs::Lines::gathered), unfolding(crate::specs::Tags::tag_at))]
fn put_tags(line: &mut Line, rack: &Rack)
    ensures { seen line.new ≡ laid (seen line.old) (gather (count_of rack.now) (tag_at rack.now)) }
{
    let n = rack.count();
    for i in 0..n {
        put_tag(line, rack.kind(i), i, rack.body(i));
    }
}

// A rack that is well-formed.
#[tactic(auto, using(print::proofs::Lines::lines), unfolding(crate::specs::Tags::rack_text))]
pub fn put_rack(line: &mut Line, rack: &Rack)
    ensures { seen line.new ≡ laid (seen line.old) (rack_text rack.now) }
{
    put_head(line, rack.count(), rack.bytes().len());
    put_tags(line, rack);
}

// Any file.
#[tactic(auto, using(print::proofs::Lines::lines), unfolding(crate::specs::Tags::sheet_text))]
pub fn put_sheet(line: &mut Line, file: &[u8])
    ensures { seen line.new ≡ laid (seen line.old) (sheet_text file.now) }
{
    match Rack::judged(file) {
        Ok(rack) => put_rack(line, &rack),
        Err(offence) => {
            put_refusal(line, file, Err(offence));
            line.put(b"\n");
        }
    }
}
