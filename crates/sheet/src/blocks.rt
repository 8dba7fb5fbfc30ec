// The line of a block, and a tag's first line.
ghost use Rattle.std.specs.Prelude.{◌≡◌};
ghost use Rattle.print.specs.Line.{laid};
ghost use Rattle.print.specs.Seen.{seen};
ghost use Rattle.print.specs.Hex.{uid_text};
ghost use Rattle.sheet.specs.Blocks.{shown, shown_text, block_front, block_line, counter_line, all_zero, tag_line};

use crate::words::{put_blanks_behind, put_lock_column};
use print::line::Line;
use print::quote::is_visible;

// A byte as ASCII, or a dot.
#[tactic(auto, unfolding(crate::specs::Blocks::shown, print::specs::Quote::visible))]
fn as_shown(b: u8) -> u8
    ensures { result ≡ shown b }
{
    if is_visible(b) { b } else { b'.' }
}

// Bytes as ASCII.
#[tactic(auto, using(print::proofs::Lines::lines, crate::proofs::BlocksShown::shown_more))]
pub fn put_shown(line: &mut Line, s: &[u8])
    ensures { seen line.new ≡ laid (seen line.old) (shown_text s.now) }
{
    for b in s {
        line.put(&[as_shown(*b)]);
    }
}

#[tactic(auto, using(print::proofs::Lines::lines), unfolding(crate::specs::Blocks::block_front))]
fn put_block_front(line: &mut Line, n: u8, s: &[u8], locked: bool)
    ensures { seen line.new ≡ laid (seen line.old) (block_front n s.now locked) }
{
    line.put(b"  ");
    line.decimal(n as u64);
    put_blanks_behind(line, n);
    line.hex(s);
    put_lock_column(line, locked);
    line.put(b"  # ");
}

#[tactic(auto, using(print::proofs::Lines::lines), unfolding(crate::specs::Blocks::block_line))]
pub fn put_block_line(line: &mut Line, n: u8, s: &[u8], locked: bool)
    ensures { seen line.new ≡ laid (seen line.old) (block_line n s.now locked) }
{
    put_block_front(line, n, s, locked);
    put_shown(line, s);
    line.put(b"\n");
}

#[tactic(auto, using(print::proofs::Lines::lines), unfolding(crate::specs::Blocks::counter_line))]
pub fn put_counter_line(line: &mut Line, n: u8, s: &[u8], locked: bool, counter: u32)
    ensures { seen line.new ≡ laid (seen line.old) (counter_line n s.now locked counter) }
{
    put_block_front(line, n, s, locked);
    line.put(b"counter ");
    line.decimal(counter as u64);
    line.put(b"\n");
}

pub fn is_all_zero(s: &[u8]) -> bool
    ensures { result ≡ all_zero s.now }
{
    s.iter().all(|b| *b == 0)
}

// What kind of tag it is, its UID, and that it is tag i.
#[tactic(auto, using(print::proofs::Lines::lines), unfolding(crate::specs::Blocks::tag_line))]
pub fn put_tag_line(line: &mut Line, word: &[u8], uid: [u8; 8], i: usize)
    ensures { seen line.new ≡ laid (seen line.old) (tag_line word.now (uid_text uid) i) }
{
    line.put(word);
    line.uid(uid);
    line.put(b"  # tag ");
    line.decimal(i as u64);
    line.put(b"\n");
}
