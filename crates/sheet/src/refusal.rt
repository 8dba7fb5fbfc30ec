// Why a rack is refused, in words.
ghost use Rattle.std.specs.Prelude.{◌≡◌, ◌-◌};
ghost use Rattle.print.specs.Line.{laid};
ghost use Rattle.print.specs.Seen.{seen};
ghost use Rattle.sheet.specs.Refusal.{head_words, entry_words, lock_words, label_words, chip_words, body_words, tag_words, held_words, rule_words, rule_of, offence_of, words_for, place_of, refusal_text};

use chip_body::field as chip_field;
use frame::verdict::{Offence, Rule, Verdict};
use label_body::field as label_field;
use print::line::Line;
use rack::place::{entry_holding, holder, within_entry};
use rack::tag::Kind;

#[tactic(auto, using(print::proofs::Lines::lines), unfolding(crate::specs::Refusal::head_words))]
fn put_head_words(line: &mut Line, place: usize)
    ensures { seen line.new ≡ laid (seen line.old) (head_words place) }
{
    line.put(match place {
        0 => b"edition is not 1",
        _ => b"more than 64 tags",
    });
}

#[tactic(auto, using(print::proofs::Lines::lines), unfolding(crate::specs::Refusal::entry_words))]
fn put_entry_words(line: &mut Line, k: usize)
    ensures { seen line.new ≡ laid (seen line.old) (entry_words k) }
{
    line.put(match k {
        0 => b"kind is neither 1 nor 2",
        1 => b"not 0",
        2 => b"length of the body",
        _ => b"place of the body",
    });
}

#[tactic(auto, using(print::proofs::Lines::lines), unfolding(crate::specs::Refusal::label_words, crate::specs::Refusal::lock_words, print::specs::Named::word_number))]
fn put_label_words(line: &mut Line, field: label_field::Field)
    ensures { seen line.new ≡ laid (seen line.old) (label_words field) }
{
    match field {
        label_field::Field::Other => {}
        label_field::Field::Locks => line.put(b"locks"),
        label_field::Field::Blocks => line.put(b"blocks do not fit the length"),
        label_field::Field::Size => line.put(b"block length"),
        label_field::Field::State => line.put(b"state"),
        label_field::Field::Slot => line.put(b"slot"),
        label_field::Field::Bits => line.put(b"mask length"),
        label_field::Field::Mask => line.put(b"mask"),
        label_field::Field::Zero => line.put(b"not 0"),
        label_field::Field::Lock(n) => line.word_number(b"lock of block ", n as u64),
    }
}

#[tactic(auto, using(print::proofs::Lines::lines), unfolding(crate::specs::Refusal::chip_words))]
fn put_chip_words(line: &mut Line, field: chip_field::Field)
    ensures { seen line.new ≡ laid (seen line.old) (chip_words field) }
{
    line.put(match field {
        chip_field::Field::Other => b"",
        chip_field::Field::State => b"state",
        chip_field::Field::Id => b"Chip_ID",
        chip_field::Field::Reload => b"reload",
        chip_field::Field::Fixed => b"fixed-ID option",
    });
}

#[tactic(auto, using(print::proofs::Lines::lines), unfolding(crate::specs::Refusal::body_words))]
fn put_body_words(line: &mut Line, kind: Kind, place: usize)
    ensures { seen line.new ≡ laid (seen line.old) (body_words kind place) }
{
    match kind {
        Kind::Label => put_label_words(line, label_field::field_at(place)),
        Kind::Chip => put_chip_words(line, chip_field::field_at(place)),
        Kind::Other => {}
    }
}

#[tactic(auto, using(print::proofs::Lines::lines), unfolding(crate::specs::Refusal::tag_words))]
fn put_tag_words(line: &mut Line, i: usize)
    ensures { seen line.new ≡ laid (seen line.old) (tag_words i) }
{
    line.put(b"tag ");
    line.decimal(i as u64);
    line.put(b": ");
}

#[tactic(auto, using(print::proofs::Lines::lines), unfolding(crate::specs::Refusal::held_words))]
fn put_held_words(line: &mut Line, rack: &[u8], place: usize)
    ensures { seen line.new ≡ laid (seen line.old) (held_words rack.now place) }
{
    let h = holder(rack, place);
    put_tag_words(line, h.tag);
    put_body_words(line, h.kind, place.saturating_sub(h.start));
}

#[tactic(auto, using(print::proofs::Lines::lines), unfolding(crate::specs::Refusal::rule_words))]
fn put_rule_words(line: &mut Line, rack: &[u8], rule: Rule, place: usize)
    ensures { seen line.new ≡ laid (seen line.old) (rule_words rack.now rule place) }
{
    match rule {
        Rule::Length => line.put(b"the file ends here, in the middle of a rack"),
        Rule::Head => put_head_words(line, place),
        Rule::Entry => {
            put_tag_words(line, entry_holding(place));
            put_entry_words(line, within_entry(place));
        }
        Rule::Body => put_held_words(line, rack, place),
        Rule::Behind => line.put(b"bytes behind the last tag"),
    }
}

// The rule that a number names: every number but the first four names the last.
#[tactic(auto, unfolding(crate::specs::Refusal::rule_of))]
fn rule_of(number: u8) -> Rule
    ensures { result ≡ rule_of number }
{
    match number {
        10 => Rule::Length,
        11 => Rule::Head,
        12 => Rule::Entry,
        13 => Rule::Body,
        _ => Rule::Behind,
    }
}

// The offence that a number and a place tell, whatever they are: for who has a refusal as numbers.
pub fn offence_of(number: u8, place: usize) -> Offence
    ensures { result ≡ offence_of number place }
{
    Offence {
        rule: rule_of(number),
        place,
    }
}

// What a verdict says; one that names no offence has the last words.
fn put_words_for(line: &mut Line, rack: &[u8], v: Verdict)
    ensures { seen line.new ≡ laid (seen line.old) (words_for rack.now v) }
{
    match v {
        Err(offence) => put_rule_words(line, rack, offence.rule, offence.place),
        Ok(()) => line.put(b"bytes behind the last tag"),
    }
}

// Where a verdict finds an offence.
fn place_of(v: Verdict) -> usize
    ensures { result ≡ place_of v }
{
    match v {
        Err(offence) => offence.place,
        Ok(()) => 0,
    }
}

// Why a rack is refused: what a verdict on it says, in one line without its end.
#[tactic(auto, using(print::proofs::Lines::lines), unfolding(crate::specs::Refusal::refusal_text))]
pub fn put_refusal(line: &mut Line, rack: &[u8], v: Verdict)
    ensures { seen line.new ≡ laid (seen line.old) (refusal_text rack.now v) }
{
    line.put(b"refused 1: byte ");
    line.decimal(place_of(v) as u64);
    line.put(b": ");
    put_words_for(line, rack, v);
}
