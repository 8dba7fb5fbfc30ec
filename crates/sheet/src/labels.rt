// A label as text.
ghost use Rattle.std.specs.Prelude.{◌≡◌, ◌≤◌, get_or};
ghost use Rattle.frame.specs.Choose.{gather};
ghost use Rattle.frame.specs.Number.{bytes_of};
ghost use Rattle.frame.specs.Ending.{bytes_for};
ghost use Rattle.label_body.specs.Body.{Sized, load_of, blocks_of};
ghost use Rattle.print.specs.Hex.{uid_text};
ghost use Rattle.print.specs.Line.{laid};
ghost use Rattle.print.specs.Seen.{seen};
ghost use Rattle.sheet.specs.Labels.{mask_text, mask_field, slot_field, afi_field, dsfid_field, ic_field, byte_fields, label_line, blocks_line, label_head};
ghost use Rattle.sheet.specs.Labels.{label_block, label_text};

use crate::blocks::{is_all_zero, put_block_line, put_tag_line};
use crate::words::{put_label_state, put_lock_mark};
use frame::put::put_number;
use label::step::Label;
use label_body::body::{block, load};
use label_body::locks::lock_on;
use print::line::Line;

// The bytes of a mask of so many bits.
fn put_mask_bytes(line: &mut Line, bits: u8, mask: u64)
    ensures { seen line.new ≡ laid (seen line.old) (uid_text (bytes_of (bytes_for bits) mask)) }
{
    let mut bytes = [0u8; 32];
    put_number(&mut bytes, 0, mask, 32);
    let k = (bits as usize + 7) / 8;
    line.back(&bytes[0..k]);
}

// A mask.
#[tactic(auto, using(print::proofs::Lines::lines), unfolding(crate::specs::Labels::mask_text))]
pub fn put_mask(line: &mut Line, bits: u8, mask: u64)
    ensures { seen line.new ≡ laid (seen line.old) (mask_text bits mask) }
{
    line.decimal(bits as u64);
    line.put(b"/");
    put_mask_bytes(line, bits, mask);
}

#[tactic(auto, using(print::proofs::Lines::lines), unfolding(crate::specs::Labels::mask_field))]
fn put_mask_field(line: &mut Line, bits: u8, mask: u64)
    ensures { seen line.new ≡ laid (seen line.old) (mask_field bits mask) }
{
    if bits != 0 {
        line.put(b"  mask ");
        put_mask(line, bits, mask);
    }
}

#[tactic(auto, using(print::proofs::Lines::lines), unfolding(crate::specs::Labels::slot_field))]
fn put_slot_field(line: &mut Line, l: Label)
    ensures { seen line.new ≡ laid (seen line.old) (slot_field l) }
{
    if l.slot != 255 {
        line.put(b"  slot ");
        line.decimal(l.slot as u64);
        put_mask_field(line, l.bits, l.mask);
    }
}

#[tactic(auto, using(print::proofs::Lines::lines), unfolding(crate::specs::Labels::afi_field))]
fn put_afi_field(line: &mut Line, l: Label)
    ensures { seen line.new ≡ laid (seen line.old) (afi_field l) }
{
    line.put(b"  afi ");
    line.byte(l.afi);
    put_lock_mark(line, l.locks % 2 == 1);
}

#[tactic(auto, using(print::proofs::Lines::lines), unfolding(crate::specs::Labels::dsfid_field))]
fn put_dsfid_field(line: &mut Line, l: Label)
    ensures { seen line.new ≡ laid (seen line.old) (dsfid_field l) }
{
    line.put(b"  dsfid ");
    line.byte(l.dsfid);
    put_lock_mark(line, l.locks / 2 % 2 == 1);
}

#[tactic(auto, using(print::proofs::Lines::lines), unfolding(crate::specs::Labels::ic_field))]
fn put_ic_field(line: &mut Line, l: Label)
    ensures { seen line.new ≡ laid (seen line.old) (ic_field l) }
{
    line.put(b"  ic ");
    line.byte(l.ic);
}

#[tactic(auto, using(print::proofs::Lines::lines), unfolding(crate::specs::Labels::byte_fields))]
fn put_byte_fields(line: &mut Line, l: Label)
    ensures { seen line.new ≡ laid (seen line.old) (byte_fields l) }
{
    put_afi_field(line, l);
    put_dsfid_field(line, l);
    put_ic_field(line, l);
}

#[tactic(auto, using(print::proofs::Lines::lines), unfolding(crate::specs::Labels::label_line))]
fn put_label_line(line: &mut Line, l: Label)
    ensures { seen line.new ≡ laid (seen line.old) (label_line l) }
{
    line.put(b"  state ");
    put_label_state(line, l.state);
    put_byte_fields(line, l);
    put_slot_field(line, l);
    line.put(b"\n");
}

#[tactic(auto, using(print::proofs::Lines::lines), unfolding(crate::specs::Labels::blocks_line))]
fn put_blocks_line(line: &mut Line, l: Label)
    ensures { seen line.new ≡ laid (seen line.old) (blocks_line l) }
{
    line.put(b"  blocks ");
    line.decimal(l.blocks as u64 + 1);
    line.put(b" of ");
    line.decimal(l.size as u64 + 1);
    line.put(b"\n");
}

// A label's first three lines; it is tag i.
#[tactic(auto, using(print::proofs::Lines::lines), unfolding(crate::specs::Labels::label_head))]
pub fn put_label_head(line: &mut Line, i: usize, l: Label)
    ensures { seen line.new ≡ laid (seen line.old) (label_head i l) }
{
    put_tag_line(line, b"label ", l.uid, i);
    put_label_line(line, l);
    put_blocks_line(line, l);
}

// The line of block n, if it has one.
#[tactic(auto, using(print::proofs::Lines::lines), unfolding(crate::specs::Labels::label_block))]
pub fn put_label_block(line: &mut Line, body: &[u8], n: u8)
    requires { Sized body.now × (n ≤ get_or body.now 11 0) }
    ensures { seen line.new ≡ laid (seen line.old) (label_block body.now n) }
{
    let bytes = block(body, n);
    let locked = lock_on(body, n) == 1;
    if locked || !is_all_zero(bytes) {
        put_block_line(line, n, bytes, locked);
    }
}

#[tactic(auto, using(print::proofs::Lines::gathered))]
fn put_label_blocks(line: &mut Line, body: &[u8], blocks: usize)
    requires { Sized body.now × (blocks ≡ blocks_of body.now) }
    ensures { seen line.new ≡ laid (seen line.old) (gather blocks (label_block body.now)) }
{
    for n in 0..blocks {
        put_label_block(line, body, n as u8);
    }
}

// A label, which is tag i.
#[tactic(auto, using(print::proofs::Lines::lines, label_body::proofs::BodyRoom::sized_long), unfolding(crate::specs::Labels::label_text, label_body::specs::Body::load_of))]
pub fn put_label(line: &mut Line, i: usize, body: &[u8])
    requires { Sized body.now }
    ensures { seen line.new ≡ laid (seen line.old) (label_text i body.now) }
{
    let l = load(body);
    put_label_head(line, i, l);
    put_label_blocks(line, body, l.blocks as usize + 1);
}
