// The words of one change. A change opens with a comma; the first of a line has its comma made a colon.
ghost use Rattle.std.specs.Prelude.{◌≡◌, ◌+◌, ◌≤◌, [], ◌∷◌, length, get_or};
ghost use Rattle.print.specs.Hex.{uid_text};
ghost use Rattle.print.specs.Line.{laid, marked};
ghost use Rattle.print.specs.Seen.{seen};
ghost use Rattle.trace.specs.Change.{when_text, changed_text, byte_change, rose, same_bytes, block_name, quoted_block, hex_block, content_text, lock_text};
ghost use Rattle.trace.specs.Change.{lock_change};

use frame::number::byte_at;
use print::line::Line;
use print::quote::is_printable;

// Words, where something is so.
#[tactic(auto, using(print::proofs::Lines::lines), unfolding(crate::specs::Change::when_text))]
pub fn put_when(line: &mut Line, told: bool, s: &[u8])
    ensures { seen line.new ≡ laid (seen line.old) (when_text told s.now) }
{
    if told {
        line.put(s);
    }
}

// A name and a byte.
#[tactic(auto, using(print::proofs::Lines::lines), unfolding(crate::specs::Change::changed_text))]
fn put_changed(line: &mut Line, name: &[u8], b: u8)
    ensures { seen line.new ≡ laid (seen line.old) (changed_text name.now b) }
{
    line.put(name);
    line.byte(b);
}

// Byte i, by its name, where it changed.
#[tactic(auto, using(print::proofs::Lines::lines), unfolding(crate::specs::Change::byte_change))]
pub fn put_byte_change(line: &mut Line, name: &[u8], a: &[u8], b: &[u8], i: usize)
    ensures { seen line.new ≡ laid (seen line.old) (byte_change name.now (get_or a.now i 0) (get_or b.now i 0)) }
{
    let new = byte_at(b, i);
    if byte_at(a, i) != new {
        put_changed(line, name, new);
    }
}

// Whether what was not so is so.
#[tactic(auto, unfolding(crate::specs::Change::rose))]
pub fn is_new(old: bool, new: bool) -> bool
    ensures { result ≡ rose old new }
{
    !old && new
}

// Whether n bytes from a place on are the same. Each is looked at, whatever those before it say: a loop with no way out is compiled to many bytes at a
// time, and of a whole rack few bytes change.
#[tactic(auto, unfolding(crate::specs::Change::same_bytes))]
pub fn same_bytes(a: &[u8], b: &[u8], at: usize, n: usize) -> bool
    requires { (at + n ≤ length a.now) × (at + n ≤ length b.now) }
    ensures { result ≡ same_bytes n at a.now b.now }
{
    let mut same = true;
    for k in 0..n {
        if a[at + k] != b[at + k] {
            same = false;
        }
    }
    same
}

#[tactic(auto, using(print::proofs::Lines::lines), unfolding(crate::specs::Change::block_name))]
fn put_block_name(line: &mut Line, n: u8)
    ensures { seen line.new ≡ laid (seen line.old) (block_name n) }
{
    line.put(b", block ");
    line.decimal(n as u64);
}

#[tactic(auto, using(print::proofs::Lines::lines), unfolding(crate::specs::Change::quoted_block))]
fn put_quoted_block(line: &mut Line, n: u8, s: &[u8])
    ensures { seen line.new ≡ laid (seen line.old) (quoted_block n s.now) }
{
    put_block_name(line, n);
    line.put(b" ");
    line.quoted(s);
}

#[tactic(auto, using(print::proofs::Lines::lines), unfolding(crate::specs::Change::hex_block))]
fn put_hex_block(line: &mut Line, n: u8, s: &[u8])
    ensures { seen line.new ≡ laid (seen line.old) (hex_block n s.now) }
{
    put_block_name(line, n);
    line.hex(s);
}

// Block n and its bytes, as text where they can be read.
#[tactic(auto, using(print::proofs::Lines::lines), unfolding(crate::specs::Change::content_text))]
pub fn put_content(line: &mut Line, n: u8, s: &[u8])
    ensures { seen line.new ≡ laid (seen line.old) (content_text n s.now) }
{
    if is_printable(s) {
        put_quoted_block(line, n, s);
    } else {
        put_hex_block(line, n, s);
    }
}

#[tactic(auto, using(print::proofs::Lines::lines), unfolding(crate::specs::Change::lock_text))]
fn put_lock(line: &mut Line, n: u8)
    ensures { seen line.new ≡ laid (seen line.old) (lock_text n) }
{
    put_block_name(line, n);
    line.put(b" locked");
}

// That block n is locked, where it is so now and was not.
#[tactic(auto, using(print::proofs::Lines::lines), unfolding(crate::specs::Change::lock_change))]
pub fn put_lock_change(line: &mut Line, old: bool, new: bool, n: u8)
    ensures { seen line.new ≡ laid (seen line.old) (lock_change old new n) }
{
    if is_new(old, new) {
        put_lock(line, n);
    }
}

// A tag's line is opened, by its kind and UID; the place where its changes start.
#[tactic(auto, using(print::proofs::Lines::lines))]
pub fn open_line(line: &mut Line, kind: &[u8], uid: [u8; 8]) -> usize
    ensures opened { seen line.new ≡ laid (laid (seen line.old) kind.now) (uid_text uid) }
    ensures start { result ≡ length (seen line.new).text }
{
    line.put(kind);
    line.uid(uid);
    line.len()
}

// It is closed: the comma that stands first among its changes is made a colon.
#[tactic(auto, using(print::proofs::Lines::lines))]
pub fn close_line(line: &mut Line, from: usize)
    ensures { seen line.new ≡ laid (marked (seen line.old) from 58) (10 ∷ []) }
{
    line.set(from, b':');
    line.put(b"\n");
}
