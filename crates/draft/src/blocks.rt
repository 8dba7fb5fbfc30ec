// A line that is a block: its number, its bytes in hex or as a text in quotes, and `locked`.
ghost use Rattle.std.specs.Prelude.{◌≡◌, length, replicate};
ghost use Rattle.text.specs.Hex.{blank_before};
ghost use Rattle.draft.specs.Bodies.{Drafts, block_size};
ghost use Rattle.draft.specs.Blocks.{Lays, pairs_left, pair_place, stopped, hex_by, hexed, closed, quoted, data_from, finished, block_of, block_line};

use crate::bodies::{block_size, has_block, set_block};
use crate::words::{Part, Why, behind, ended, no_part, no_what};
use frame::number::byte_at;
use print::put::put_text;
use rack::tag::Kind;
use text::hex::{HexError, is_gap, read_bytes};
use text::words::is_blank;
use verbs::data::place;
use verbs::tokens::{Rest, Span, find, rest_of, text_of};
use verbs::trouble::What;

// Of n pairs still to be passed, how many are left behind one; `0x` is none.
#[tactic(auto, unfolding(crate::specs::Blocks::pairs_left))]
fn pairs_left(second: u8, n: usize) -> usize
    ensures { result ≡ pairs_left second n }
{
    if second.to_ascii_lowercase() == b'x' {
        return n;
    }
    n.saturating_sub(1)
}

// The place of byte n of a run of pairs.
#[tactic(auto, using(crate::proofs::BlocksPairs::steps), unfolding(crate::specs::Blocks::pair_place))]
fn place_of(s: &[u8], n: usize) -> usize
    ensures { result ≡ pair_place s.now n }
{
    let mut at = 0;
    let mut more = n;
    for _ in 0..s.len() {
        if is_gap(byte_at(s, at)) {
            at = place(at, 1);
        } else if more == 0 {
            return at;
        } else {
            more = pairs_left(byte_at(s, place(at, 1)), more);
            at = place(at, 2);
        }
    }
    at
}

// Here and below a place of the whole line, and not the `Rest` from it on: what stands before it counts too, and what is wrong is told by its column.
#[tactic(auto, unfolding(text::specs::Hex::blank_before))]
fn blank_before(line: &[u8], at: usize) -> bool
    ensures { result ≡ blank_before line.now at }
{
    at != 0 && is_blank(byte_at(line, at - 1))
}

// A byte that is no digit ends the bytes where it opens a word.
#[tactic(auto, unfolding(crate::specs::Blocks::stopped))]
fn stopped(line: &[u8], at: usize) -> Result<usize, Why>
    ensures { result ≡ stopped line.now at }
{
    if blank_before(line, at) {
        return Ok(at);
    }
    Err(no_what(at, What::Digit))
}

// How a run of hex ended that started at a place; a block has so many bytes.
#[tactic(auto, unfolding(crate::specs::Blocks::hex_by))]
fn hex_by(e: HexError, line: &[u8], at: usize, size: usize) -> Result<usize, Why>
    ensures { result ≡ hex_by e line.now at size }
{
    match e {
        HexError::Bad(i) => stopped(line, place(at, i)),
        HexError::Odd(i) => Err(no_what(place(at, i), What::Pair)),
        HexError::Full => Err(no_part(place(at, place_of(rest_of(line, at), size)), Part::NoMore)),
    }
}

#[tactic(auto, unfolding(crate::specs::Blocks::hexed))]
fn hex(line: &[u8], at: usize, bytes: &mut [u8]) -> Result<usize, Why>
    ensures { Lays (hexed (length bytes.old) line.now at) bytes.old result bytes.new }
{
    let size = bytes.len();
    match read_bytes(rest_of(line, at), bytes) {
        Ok(_) => Ok(line.len()),
        Err(e) => hex_by(e, line, at, size),
    }
}

// A text must be followed by a blank or the end of the line.
#[tactic(auto, unfolding(crate::specs::Blocks::closed))]
fn closed(line: &[u8], at: usize) -> Result<usize, Why>
    ensures { result ≡ closed line.now at }
{
    if line.len() <= at || is_blank(byte_at(line, at)) {
        return Ok(at);
    }
    Err(no_what(at, What::End))
}

// A text, from behind its first quote on.
#[tactic(auto, unfolding(crate::specs::Blocks::quoted))]
fn quoted(line: &[u8], from: usize, bytes: &mut [u8]) -> Result<usize, Why>
    ensures { Lays (quoted (length bytes.old) line.now from) bytes.old result bytes.new }
{
    let end = find(line, from, b'"');
    if line.len() <= end {
        return Err(no_what(line.len(), What::Quote));
    }
    let s = text_of(line, Span { from, to: end });
    if bytes.len() < s.len() {
        return Err(no_part(place(from, bytes.len()), Part::NoMore));
    }
    put_text(bytes, 0, s);
    closed(line, place(end, 1))
}

// A block's bytes, to the front of a buffer of as many.
#[tactic(auto, unfolding(crate::specs::Blocks::data_from))]
fn data(rest: Rest, bytes: &mut [u8]) -> Result<usize, Why>
    ensures { Lays (data_from (length bytes.old) rest.entry.line.now rest.entry.at) bytes.old result bytes.new }
{
    let from = rest.word().from;
    if byte_at(rest.line, from) == b'"' {
        return quoted(rest.line, place(from, 1), bytes);
    }
    hex(rest.line, rest.at, bytes)
}

// Writes block n where the rest of the line was read well.
#[tactic(auto, unfolding(crate::specs::Blocks::finished))]
fn finish(b: &mut [u8], kind: Kind, n: u8, bytes: &[u8], rest: Rest) -> Result<usize, Why>
    ensures { Drafts (finished kind n bytes.now rest.entry.line.now rest.entry.at b.old) result b.new }
{
    let locked = rest.next_is(b"locked");
    let to = ended(Rest {
        line: rest.line,
        at: behind(rest, locked),
    })?;
    set_block(b, kind, n, bytes, if locked { 1 } else { 0 });
    Ok(to)
}

// The block from its bytes on; bytes is a buffer of zeros, as many as it has.
#[tactic(auto, unfolding(crate::specs::Blocks::block_of))]
fn block_of(b: &mut [u8], kind: Kind, n: u8, bytes: &mut [u8], rest: Rest) -> Result<usize, Why>
    ensures { Drafts (block_of kind n bytes.old rest.entry.line.now rest.entry.at b.old) result b.new }
{
    let to = data(rest, bytes)?;
    let line = rest.line;
    finish(b, kind, n, bytes, Rest { line, at: to })
}

// Block n, from its bytes on.
fn numbered(b: &mut [u8], kind: Kind, n: u8, rest: Rest) -> Result<usize, Why>
    ensures { Drafts
        (block_of kind n (replicate (block_size kind b.old) 0) rest.entry.line.now rest.entry.at
        b.old)
        result b.new }
{
    let size = block_size(b, kind);
    let mut bytes = [0u8; 256];
    block_of(b, kind, n, &mut bytes[0..size], rest)
}

#[tactic(auto, unfolding(crate::specs::Blocks::block_line))]
pub fn block(b: &mut [u8], kind: Kind, line: &[u8]) -> Result<usize, Why>
    ensures { Drafts (block_line kind line.now b.old) result b.new }
{
    let rest = Rest { line, at: 0 };
    let f = rest.number();
    let n = f.value.ok_or(no_part(f.word.from, Part::Block))?;
    if !has_block(b, kind, n) {
        return Err(no_part(f.word.from, Part::Block));
    }
    numbered(b, kind, n, rest.behind(f.word))
}
