// What changed of a chip: its body before, a, and behind an event, b.
ghost use Rattle.std.specs.Prelude.{◌≡◌, ◌≤◌, length, get_or};
ghost use Rattle.print.specs.Line.{laid};
ghost use Rattle.print.specs.Seen.{seen};
ghost use Rattle.trace.specs.Chips.{state_words, state_change, became_text, reload_change, chip_fields, counter_text, is_counter, word_text, word_change};
ghost use Rattle.trace.specs.Chips.{word_lock, chip_block, chip_blocks, chip_changes, chip_told, told_line, chip_line};

use crate::change::{
    close_line, open_line, put_byte_change, put_content, put_lock_change, same_bytes,
};
use chip::step::is_locked;
use chip_body::body::{block_of, place, uid_of};
use frame::number::byte_at;
use print::line::Line;

// A chip's body before an event, and behind it.
#[derive(Clone, Copy)]
struct Chip<'a> {
    before: &'a [u8],
    after: &'a [u8],
    ghost long: { (80 ≤ length before.now) × (80 ≤ length after.now) },
}

#[tactic(auto, using(print::proofs::Lines::lines), unfolding(crate::specs::Chips::state_words))]
fn put_state(line: &mut Line, s: u8)
    ensures { seen line.new ≡ laid (seen line.old) (state_words s) }
{
    match s {
        0 => line.put(b", off"),
        1 => line.put(b", ready"),
        2 => line.put(b", inventory"),
        3 => line.put(b", selected"),
        4 => line.put(b", deselected"),
        _ => line.put(b", deactivated"),
    }
}

// A label's is apart: other place, words and definition, and nothing but the test alike.
#[tactic(auto, using(print::proofs::Lines::lines), unfolding(crate::specs::Chips::state_change))]
fn put_state_change(line: &mut Line, a: &[u8], b: &[u8])
    ensures { seen line.new ≡ laid (seen line.old) (state_change (get_or a.now 76 0) (get_or b.now 76 0)) }
{
    let new = byte_at(b, 76);
    if byte_at(a, 76) != new {
        put_state(line, new);
    }
}

// Reload on or off.
#[tactic(auto, using(print::proofs::Lines::lines), unfolding(crate::specs::Chips::became_text))]
fn put_became(line: &mut Line, on: u8)
    ensures { seen line.new ≡ laid (seen line.old) (became_text on) }
{
    if on == 1 {
        line.put(b", reload on");
    } else {
        line.put(b", reload off");
    }
}

#[tactic(auto, using(print::proofs::Lines::lines), unfolding(crate::specs::Chips::reload_change))]
fn put_reload_change(line: &mut Line, a: &[u8], b: &[u8])
    ensures { seen line.new ≡ laid (seen line.old) (reload_change (get_or a.now 78 0) (get_or b.now 78 0)) }
{
    let new = byte_at(b, 78);
    if byte_at(a, 78) != new {
        put_became(line, new);
    }
}

// State, Chip_ID and reload.
#[tactic(auto, using(print::proofs::Lines::lines), unfolding(crate::specs::Chips::chip_fields))]
fn put_fields(line: &mut Line, a: &[u8], b: &[u8])
    ensures { seen line.new ≡ laid (seen line.old) (chip_fields a.now b.now) }
{
    put_state_change(line, a, b);
    put_byte_change(line, b", Chip_ID ", a, b, 77);
    put_reload_change(line, a, b);
}

// Counter n and its value.
#[tactic(auto, using(print::proofs::Lines::lines), unfolding(crate::specs::Chips::counter_text))]
fn put_counter(line: &mut Line, n: u8, v: u32)
    ensures { seen line.new ≡ laid (seen line.old) (counter_text n v) }
{
    line.put(b", counter ");
    line.decimal(n as u64);
    line.put(b" is ");
    line.decimal(v as u64);
}

#[tactic(auto, unfolding(crate::specs::Chips::is_counter))]
fn is_counter(n: u8) -> bool
    ensures { result ≡ is_counter n }
{
    n == 5 || n == 6
}

// Block n, or the counter that it is.
#[tactic(auto, using(print::proofs::Lines::lines, crate::proofs::ChangeLaid::place_low, crate::proofs::ChangeLaid::part_of), unfolding(crate::specs::Chips::word_text))]
fn put_word(line: &mut Line, c: &Chip, n: u8)
    ensures { seen line.new ≡ laid (seen line.old) (word_text c.now.after.now n) }
{
    if is_counter(n) {
        put_counter(line, n, block_of(c.after, n));
    } else {
        let p = place(n);
        put_content(line, n, &c.after[p..p + 4]);
    }
}

#[tactic(auto, using(print::proofs::Lines::lines, crate::proofs::ChangeLaid::place_low), unfolding(crate::specs::Chips::word_change))]
fn put_word_change(line: &mut Line, c: &Chip, n: u8)
    ensures { seen line.new ≡ laid (seen line.old) (word_change c.now.before.now c.now.after.now n) }
{
    if !same_bytes(c.before, c.after, place(n), 4) {
        put_word(line, c, n);
    }
}

#[tactic(auto, using(print::proofs::Lines::lines), unfolding(crate::specs::Chips::word_lock))]
fn put_word_lock(line: &mut Line, c: &Chip, n: u8)
    ensures { seen line.new ≡ laid (seen line.old) (word_lock c.now.before.now c.now.after.now n) }
{
    let old = is_locked(block_of(c.before, 255), n);
    let new = is_locked(block_of(c.after, 255), n);
    put_lock_change(line, old, new, n);
}

#[tactic(auto, using(print::proofs::Lines::lines), unfolding(crate::specs::Chips::chip_block))]
fn put_block(line: &mut Line, c: &Chip, n: u8)
    ensures { seen line.new ≡ laid (seen line.old) (chip_block c.now.before.now c.now.after.now n) }
{
    put_word_change(line, c, n);
    put_word_lock(line, c, n);
}

// Blocks 0 to 15.
#[tactic(auto, using(print::proofs::Lines::gathered), unfolding(crate::specs::Chips::chip_blocks))]
fn put_blocks(line: &mut Line, c: &Chip)
    ensures { seen line.new ≡ laid (seen line.old) (chip_blocks c.now.before.now c.now.after.now) }
{
    for n in 0..16 {
        put_block(line, c, n);
    }
}

#[tactic(auto, using(print::proofs::Lines::lines), unfolding(crate::specs::Chips::chip_changes))]
fn put_chip_changes(line: &mut Line, c: &Chip)
    ensures { seen line.new ≡ laid (seen line.old) (chip_changes c.now.before.now c.now.after.now) }
{
    put_fields(line, c.before, c.after);
    put_blocks(line, c);
    put_word_change(line, c, 255);
}

// Whether something changed. A body before that is no chip's has nothing to be told from.
#[tactic(auto, unfolding(crate::specs::Chips::chip_told))]
fn is_told(a: &[u8], b: &[u8]) -> bool
    requires { 80 ≤ length b.now }
    ensures { result ≡ chip_told a.now b.now }
{
    80 <= a.len() && !same_bytes(a, b, 0, 80)
}

#[tactic(auto, using(print::proofs::Lines::lines, crate::proofs::ChangeLaid::coloned_laid), unfolding(crate::specs::Chips::told_line, crate::specs::Chips::coloned_changes))]
fn put_told(line: &mut Line, c: &Chip)
    ensures { seen line.new ≡ laid (seen line.old) (told_line c.now.before.now c.now.after.now) }
{
    let from = open_line(line, b"  chip ", uid_of(c.after));
    put_chip_changes(line, c);
    close_line(line, from);
}

// A chip's line, where it has one. (A label's has other lengths and texts.)
#[tactic(auto, using(print::proofs::Lines::lines, crate::proofs::ChangeLaid::told_long), unfolding(crate::specs::Chips::chip_line))]
pub fn put_chip_line(line: &mut Line, a: &[u8], b: &[u8])
    requires { 80 ≤ length b.now }
    ensures { seen line.new ≡ laid (seen line.old) (chip_line a.now b.now) }
{
    if is_told(a, b) {
        let chip = Chip {
            before: a,
            after: b,
        };
        put_told(line, &chip);
    }
}
