// A chip as text.
ghost use Rattle.std.specs.Prelude.{◌≡◌, ◌≤◌, length};
ghost use Rattle.frame.specs.Choose.{gather};
ghost use Rattle.print.specs.Line.{laid};
ghost use Rattle.print.specs.Seen.{seen};
ghost use Rattle.sheet.specs.Chips.{id_field, option_fields, chip_line, chip_head, as_new, counter?, chip_block_line, chip_block, chip_text};

use crate::blocks::{put_block_line, put_counter_line, put_tag_line};
use crate::words::{put_chip_state, put_yes_or_no};
use chip::step::{Chip, is_locked};
use chip_body::body::{block_of, bytes_of, load, uid_of};
use print::line::Line;

#[tactic(auto, using(print::proofs::Lines::lines), unfolding(crate::specs::Chips::id_field))]
fn put_id_field(line: &mut Line, c: Chip)
    ensures { seen line.new ≡ laid (seen line.old) (id_field c) }
{
    line.put(b"  id ");
    line.byte(c.id);
}

#[tactic(auto, using(print::proofs::Lines::lines), unfolding(crate::specs::Chips::option_fields))]
fn put_option_fields(line: &mut Line, c: Chip)
    ensures { seen line.new ≡ laid (seen line.old) (option_fields c) }
{
    line.put(b"  fixed ");
    put_yes_or_no(line, c.fixed);
    line.put(b"  reload ");
    put_yes_or_no(line, c.reload);
}

#[tactic(auto, using(print::proofs::Lines::lines), unfolding(crate::specs::Chips::chip_line))]
fn put_chip_line(line: &mut Line, c: Chip)
    ensures { seen line.new ≡ laid (seen line.old) (chip_line c) }
{
    line.put(b"  state ");
    put_chip_state(line, c.state);
    put_id_field(line, c);
    put_option_fields(line, c);
    line.put(b"\n");
}

// A chip's first two lines; it is tag i.
#[tactic(auto, using(print::proofs::Lines::lines), unfolding(crate::specs::Chips::chip_head))]
pub fn put_chip_head(line: &mut Line, i: usize, body: &[u8])
    requires { 80 ≤ length body.now }
    ensures { seen line.new ≡ laid (seen line.old) (chip_head i body.now) }
{
    put_tag_line(line, b"chip ", uid_of(body), i);
    put_chip_line(line, load(body));
}

// Whether block a holds v as a new chip's does, and is not told for that.
#[tactic(auto, unfolding(crate::specs::Chips::as_new))]
fn is_as_new(a: u8, v: u32) -> bool
    ensures { result ≡ as_new a v }
{
    match a {
        0..=4 => v == 0xFFFFFFFF,
        7..=15 => v == 0,
        _ => false,
    }
}

fn is_counter(a: u8) -> bool
    ensures { result ≡ counter? a }
{
    (5..7).contains(&a)
}

#[tactic(auto, using(print::proofs::Lines::lines), unfolding(crate::specs::Chips::chip_block_line))]
fn put_chip_block_line(line: &mut Line, body: &[u8], a: u8, locked: bool)
    requires { 80 ≤ length body.now }
    ensures { seen line.new ≡ laid (seen line.old) (chip_block_line body.now a locked) }
{
    let bytes = bytes_of(body, a);
    if is_counter(a) {
        put_counter_line(line, a, bytes, locked, block_of(body, a));
    } else {
        put_block_line(line, a, bytes, locked);
    }
}

// The line of block a, if it has one.
#[tactic(auto, using(print::proofs::Lines::lines), unfolding(crate::specs::Chips::chip_block))]
pub fn put_chip_block(line: &mut Line, body: &[u8], a: u8)
    requires { 80 ≤ length body.now }
    ensures { seen line.new ≡ laid (seen line.old) (chip_block body.now a) }
{
    let locked = is_locked(block_of(body, 255), a);
    if locked || !is_as_new(a, block_of(body, a)) {
        put_chip_block_line(line, body, a, locked);
    }
}

#[tactic(auto, using(print::proofs::Lines::gathered))]
fn put_chip_blocks(line: &mut Line, body: &[u8])
    requires { 80 ≤ length body.now }
    ensures { seen line.new ≡ laid (seen line.old) (gather 16 (chip_block body.now)) }
{
    for a in 0..16 {
        put_chip_block(line, body, a);
    }
}

// A chip, which is tag i.
#[tactic(auto, using(print::proofs::Lines::lines), unfolding(crate::specs::Chips::chip_text))]
pub fn put_chip(line: &mut Line, i: usize, body: &[u8])
    requires { 80 ≤ length body.now }
    ensures { seen line.new ≡ laid (seen line.old) (chip_text i body.now) }
{
    put_chip_head(line, i, body);
    put_chip_blocks(line, body);
    put_chip_block(line, body, 255);
}
