// Lines from a reader, through a buffer that the caller lends.
//
// A line is what stands before a newline, or before the end of the input, without a carriage return right before its newline. A line of as many
// bytes as the buffer has, or more, is too long, and is passed over to its newline.
ghost use Rattle.std.specs.Prelude.{◌≡◌, ◌==◌, ◌+◌, ◌-◌, ◌≤◌, ◌<◌, length, position};
ghost use Rattle.text.specs.declared.lines.Source.TheVariants.{Holding};
ghost use Rattle.text.specs.Lines.{Inside, is_end, has_ended, ended_at, no_line, line_end, line_at, last_line, to_front};
ghost use Rattle.text.specs.Lines.{next_of, is_found, Passed, Brought, Follows};

use crate::file::read_part;
use std::io::Read;

// Where the reading stands: at buf[start..end], which was read and not handed out; or the input has ended, and the places say nothing any more.
#[derive(Clone, Copy, PartialEq, Eq)]
pub enum Source {
    Holding(usize, usize),
    Ended(usize, usize),
}

// How a read of a line ended: at a line, with its places, buf[from..to], till the next call; at a line that was too long, now passed; at the end of
// the input.
#[derive(Clone, Copy, PartialEq, Eq)]
pub enum Reached {
    Line(usize, usize),
    Long,
    End,
}

// What a call found, and where the reading stands behind it.
#[derive(Clone, Copy, PartialEq, Eq)]
pub struct Got {
    pub reached: Reached,
    pub source: Source,
}

pub fn is_end(reached: Reached) -> bool
    ensures { result ≡ is_end reached }
{
    matches!(reached, Reached::End)
}

// Whether nothing more comes.
pub fn has_ended(source: Source) -> bool
    ensures { result ≡ has_ended source }
{
    matches!(source, Source::Ended(_, _))
}

// The source of a reader of which nothing was read yet.
pub fn source_of() -> Source
    ensures { result ≡ Holding 0 0 }
{
    Source::Holding(0, 0)
}

fn ended() -> Source
    ensures { result ≡ ended_at }
{
    Source::Ended(0, 0)
}

// The next line of a source that was used with this reader and this buffer only, which has room for a byte. It reads until a line is whole or the
// input has ended; a read that fails ends the input, and its cause is written to standard error.
pub fn next<R: Read>(rt: &HostRuntime, reader: &mut R, s: Source, buf: &mut [u8]) -> Got
    ensures inside { Inside result.reached (length buf.new) }
    ensures follows { Follows (next_of s buf.old) buf.old buf.new result }
{
    let Source::Holding(start, end) = s else {
        return no_line(Reached::End, s);
    };
    if buf.len() < end || end < start {
        return no_line(Reached::End, ended());
    }
    match newline(&buf[start..end]) {
        Some(n) => line(buf, start, start + n, end),
        None => {
            let n = to_front(buf, start, end);
            fill(rt, reader, n, buf)
        }
    }
}

// Whether `next` gives its answer without a read, which may have to wait.
pub fn at_hand(s: Source, buf: &[u8]) -> bool
    ensures { result ≡ is_found (next_of s buf.now) }
{
    let Source::Holding(start, end) = s else {
        return true;
    };
    if buf.len() < end || end < start {
        return true;
    }
    newline(&buf[start..end]).is_some()
}

// The place of the first newline in s.
fn newline(s: &[u8]) -> Option<usize>
    ensures { result ≡ position (λ c. c == 10) s.now }
{
    s.iter().position(|c| *c == b'\n')
}

// What is no line.
fn no_line(reached: Reached, source: Source) -> Got
    ensures { result ≡ no_line reached source }
{
    Got { reached, source }
}

// Where the line buf[from..at], which a newline ends, itself ends: a carriage return right before the newline does not count.
#[tactic(auto, unfolding(crate::specs::Lines::line_end))]
fn line_end(buf: &[u8], from: usize, at: usize) -> usize
    requires from_le_at { from ≤ at }
    requires at_in_bounds { at < length buf.now }
    ensures lower_bound { from ≤ result }
    ensures upper_bound { result ≤ at }
    ensures value { result ≡ line_end buf.now from at }
{
    if from < at && buf[at - 1] == b'\r' {
        at - 1
    } else {
        at
    }
}

// The line buf[from..at], which a newline ends; what was read ends at `end`.
fn line(buf: &[u8], from: usize, at: usize, end: usize) -> Got
    requires from_le_at { from ≤ at }
    requires at_in_bounds { at < length buf.now }
    ensures inside { Inside result.reached (length buf.now) }
    ensures value { result ≡ line_at buf.now from at (Holding (at + 1) end) }
{
    Got {
        reached: Reached::Line(from, line_end(buf, from, at)),
        source: Source::Holding(at + 1, end),
    }
}

// The last line, buf[0..to], which no newline ends, unless nothing is left.
#[tactic(auto, unfolding(crate::specs::Lines::last_line))]
fn last(to: usize) -> Got
    ensures inside { Inside result.reached to }
    ensures value { result ≡ last_line to }
{
    if to == 0 {
        return no_line(Reached::End, ended());
    }
    Got {
        reached: Reached::Line(0, to),
        source: ended(),
    }
}

// Moves buf[start..end] to the front, and answers its length.
fn to_front(buf: &mut [u8], start: usize, end: usize) -> usize
    requires start_le_end { start ≤ end }
    requires end_in_bounds { end ≤ length buf.old }
    ensures upper_bound { result ≤ length buf.new }
    ensures value { result ≡ end - start }
    ensures buf_after { buf.new ≡ to_front buf.old start end }
{
    buf.copy_within(start..end, 0);
    end - start
}

// Reads behind buf's first n bytes, which have no newline, until a line is whole. What stood before a read that failed is no line.
fn fill<R: Read>(rt: &HostRuntime, reader: &mut R, n: usize, buf: &mut [u8]) -> Got
    requires { n ≤ length buf.old }
    ensures inside { Inside result.reached (length buf.new) }
    ensures brought { Brought n buf.old buf.new result }
{
    let mut end = n;

    // Not a `for`: a turn adds as many as its read brought.
    while end < buf.len() {
        let Some(more) = read_part(rt, reader, b"input", &mut buf[end..]) else {
            return no_line(Reached::End, ended());
        };
        if more == 0 {
            return last(end);
        }
        if let Some(i) = newline(&buf[end..end + more]) {
            return line(buf, 0, end + i, end + more);
        }
        end += more;
    }
    pass(rt, reader, buf)
}

// Passes over the rest of a line that is too long: at most 2^62 reads, which no input outlasts.
fn pass<R: Read>(rt: &HostRuntime, reader: &mut R, buf: &mut [u8]) -> Got
    ensures inside { Inside result.reached (length buf.new) }
    ensures passed { Passed buf.new result }
{
    for _ in 0..4611686018427387904u64 {
        let n = read_part(rt, reader, b"input", buf).unwrap_or(0);
        if n == 0 {
            break;
        }
        if let Some(at) = newline(&buf[..n]) {
            return no_line(Reached::Long, Source::Holding(at + 1, n));
        }
    }
    no_line(Reached::Long, ended())
}
