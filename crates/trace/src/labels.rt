// What changed of a label: its body before, a, and behind an event, b.
ghost use Rattle.std.specs.Prelude.{◌≡◌, ◌+◌, ◌≤◌, length, get_or};
ghost use Rattle.frame.specs.Number.{part};
ghost use Rattle.label_body.specs.Body.{Sized};
ghost use Rattle.print.specs.Line.{laid};
ghost use Rattle.print.specs.Seen.{seen};
ghost use Rattle.trace.specs.Labels.{state_words, state_change, bit_change, label_fields, block_content, block_lock, block_change, block_changes, label_changes};
ghost use Rattle.trace.specs.Labels.{sized_prop, label_told, told_line, label_line};

use crate::change::{
    close_line, is_new, open_line, put_byte_change, put_content, put_lock_change, put_when,
    same_bytes,
};
use frame::number::byte_at;
use frame::uid::uid_at;
use label_body::body::place;
use label_body::locks::lock_on;
use print::line::Line;

// A label's body before an event, and behind it.
#[derive(Clone, Copy)]
struct Label<'a> {
    before: &'a [u8],
    after: &'a [u8],
    ghost sized: { Sized after.now } by { sized_prop after.now },
    ghost whole: { length after.now ≤ length before.now },
}

#[tactic(auto, using(print::proofs::Lines::lines), unfolding(crate::specs::Labels::state_words))]
fn put_state(line: &mut Line, s: u8)
    ensures { seen line.new ≡ laid (seen line.old) (state_words s) }
{
    match s {
        0 => line.put(b", off"),
        1 => line.put(b", ready"),
        2 => line.put(b", quiet"),
        _ => line.put(b", selected"),
    }
}

// A chip's is apart: other place, words and definition, and nothing but the test alike.
#[tactic(auto, using(print::proofs::Lines::lines), unfolding(crate::specs::Labels::state_change))]
fn put_state_change(line: &mut Line, a: &[u8], b: &[u8])
    ensures { seen line.new ≡ laid (seen line.old) (state_change (get_or a.now 14 0) (get_or b.now 14 0)) }
{
    let new = byte_at(b, 14);
    if byte_at(a, 14) != new {
        put_state(line, new);
    }
}

// Words, where the bit of byte 10 that is 1 at a weight was not set and is.
#[tactic(auto, using(print::proofs::Lines::lines), unfolding(crate::specs::Labels::bit_change))]
fn put_bit_change(line: &mut Line, s: &[u8], a: &[u8], b: &[u8], weight: u8)
    requires { 1 ≤ weight }
    ensures { seen line.new ≡ laid (seen line.old) (bit_change s.now weight (get_or a.now 10 0) (get_or b.now 10 0)) }
{
    let old = byte_at(a, 10) / weight % 2;
    let new = byte_at(b, 10) / weight % 2;
    let told = is_new(old == 1, new == 1);
    put_when(line, told, s);
}

// State, AFI, DSFID and their locks.
#[tactic(auto, using(print::proofs::Lines::lines), unfolding(crate::specs::Labels::label_fields))]
fn put_fields(line: &mut Line, a: &[u8], b: &[u8])
    ensures { seen line.new ≡ laid (seen line.old) (label_fields a.now b.now) }
{
    put_state_change(line, a, b);
    put_byte_change(line, b", AFI ", a, b, 9);
    put_byte_change(line, b", DSFID ", a, b, 8);
    put_bit_change(line, b", AFI locked", a, b, 1);
    put_bit_change(line, b", DSFID locked", a, b, 2);
}

// Block n, where its bytes changed.
#[tactic(auto, using(print::proofs::Lines::lines, label_body::proofs::BodyRoom::sized_long, label_body::proofs::BodyRoom::block_inside, crate::proofs::ChangeLaid::part_of), unfolding(crate::specs::Labels::block_content))]
fn put_block_content(line: &mut Line, c: &Label, n: u8)
    requires { n ≤ get_or c.now.after.now 11 0 }
    ensures { seen line.new ≡ laid (seen line.old) (block_content c.now.before.now c.now.after.now n) }
{
    let p = place(c.after, n);
    let size = c.after[12] as usize + 1;
    if !same_bytes(c.before, c.after, p, size) {
        put_content(line, n, &c.after[p..p + size]);
    }
}

#[tactic(auto, using(print::proofs::Lines::lines), unfolding(crate::specs::Labels::block_lock))]
fn put_block_lock(line: &mut Line, a: &[u8], b: &[u8], n: u8)
    ensures { seen line.new ≡ laid (seen line.old) (block_lock a.now b.now n) }
{
    let old = lock_on(a, n);
    let new = lock_on(b, n);
    put_lock_change(line, old == 1, new == 1, n);
}

#[tactic(auto, using(print::proofs::Lines::lines), unfolding(crate::specs::Labels::block_change))]
fn put_block(line: &mut Line, c: &Label, n: u8)
    requires { n ≤ get_or c.now.after.now 11 0 }
    ensures { seen line.new ≡ laid (seen line.old) (block_change c.now.before.now c.now.after.now n) }
{
    put_block_content(line, c, n);
    put_block_lock(line, c.before, c.after, n);
}

#[tactic(auto, using(print::proofs::Lines::gathered, label_body::proofs::BodyRoom::sized_long), unfolding(crate::specs::Labels::block_changes))]
fn put_blocks(line: &mut Line, c: &Label)
    ensures { seen line.new ≡ laid (seen line.old) (block_changes c.now.before.now c.now.after.now) }
{
    for n in 0..=c.after[11] {
        put_block(line, c, n);
    }
}

#[tactic(auto, using(print::proofs::Lines::lines), unfolding(crate::specs::Labels::label_changes))]
fn put_label_changes(line: &mut Line, c: &Label)
    ensures { seen line.new ≡ laid (seen line.old) (label_changes c.now.before.now c.now.after.now) }
{
    put_fields(line, c.before, c.after);
    put_blocks(line, c);
}

// Whether something changed that is told: state, AFI, DSFID, locks or blocks. A body before that is shorter has nothing to be told from.
#[tactic(auto, unfolding(crate::specs::Labels::label_told))]
fn is_told(a: &[u8], b: &[u8]) -> bool
    requires { 32 ≤ length b.now }
    ensures { result ≡ label_told a.now b.now }
{
    b.len() <= a.len() && (!same_bytes(a, b, 8, 7) || !same_bytes(a, b, 32, b.len() - 32))
}

#[tactic(auto, using(print::proofs::Lines::lines, crate::proofs::ChangeLaid::coloned_laid, label_body::proofs::BodyRoom::sized_long), unfolding(crate::specs::Labels::told_line, crate::specs::Labels::coloned_changes))]
fn put_told(line: &mut Line, c: &Label)
    ensures { seen line.new ≡ laid (seen line.old) (told_line c.now.before.now c.now.after.now) }
{
    let from = open_line(line, b"  label ", uid_at(c.after, 0));
    put_label_changes(line, c);
    close_line(line, from);
}

// A label's line, where it has one. (A chip's has other lengths and texts.)
#[tactic(auto, using(print::proofs::Lines::lines, label_body::proofs::BodyRoom::sized_long, crate::proofs::ChangeLaid::told_whole), unfolding(crate::specs::Labels::label_line))]
pub fn put_label_line(line: &mut Line, a: &[u8], b: &[u8])
    requires { Sized b.now }
    ensures { seen line.new ≡ laid (seen line.old) (label_line a.now b.now) }
{
    if is_told(a, b) {
        let label = Label {
            before: a,
            after: b,
        };
        put_told(line, &label);
    }
}
