// Hex digits read as bytes.
ghost use Rattle.std.specs.Prelude.{◌≡◌, ◌+◌, ◌*◌, ◌<◌, ◌≤◌, length, get_or, drop, is_some, IfSome, IfOk};
ghost use Rattle.std.proofs.lemmas.List.Edits.{sets};
ghost use Rattle.text.specs.Hex.{value_of, blank_before};
ghost use Rattle.text.specs.Runs.{is_gap, opening, hex_of};
ghost use Rattle.text.specs.RunsPlaces.{passed_at, piece_at};

use crate::words::is_blank;

// Why a run of hex cannot be read: at the place of a byte that is no hex digit; at the place of a digit that stands alone; more bytes than there is
// room for.
#[derive(Clone, Copy, PartialEq, Eq)]
pub enum HexError {
    Bad(usize),
    Odd(usize),
    Full,
}

// The value of a digit, capital or small.
#[tactic(auto, unfolding(crate::specs::Hex::value_of))]
pub fn value(c: u8) -> Option<u8>
    ensures value { result ≡ value_of c }
    ensures upper_bound { IfSome result (λ d. d < 16) }
{
    match c {
        b'0'..=b'9' => Some(c - b'0'),
        b'A'..=b'F' => Some(c - b'A' + 10),
        b'a'..=b'f' => Some(c - b'a' + 10),
        _ => None,
    }
}

// Blanks, colons and dashes part bytes.
#[tactic(auto, unfolding(crate::specs::Runs::is_gap))]
pub fn is_gap(c: u8) -> bool
    ensures { result ≡ is_gap c }
{
    is_blank(c) || c == b':' || c == b'-'
}

fn is_digit(c: u8) -> bool
    ensures { result ≡ is_some (value_of c) }
{
    value(c).is_some()
}

// Whether s[at..] starts with `0x`, the letter in either case, and two digits right behind it.
fn opens(s: &[u8], at: usize) -> bool
    requires { at ≤ length s.now }
    ensures { result ≡ opening (drop at s.now) }
{
    if s.len() - at < 4 || s[at] != b'0' || s[at + 1].to_ascii_lowercase() != b'x' {
        return false;
    }
    is_digit(s[at + 2]) && is_digit(s[at + 3])
}

// Whether a blank stands before a place.
#[tactic(auto, unfolding(crate::specs::Hex::blank_before))]
pub fn blank_before(s: &[u8], at: usize) -> bool
    requires { at ≤ length s.now }
    ensures { result ≡ blank_before s.now at }
{
    at != 0 && is_blank(s[at - 1])
}

// How many bytes are passed over at s[at]: a gap, or a `0x` before a pair.
#[tactic(auto, unfolding(crate::specs::RunsPlaces::passed_at))]
fn passed_at(s: &[u8], at: usize) -> usize
    requires { at < length s.now }
    ensures { result ≡ passed_at s.now at }
{
    if is_gap(s[at]) {
        1
    } else if opens(s, at) {
        2
    } else {
        0
    }
}

// Reads pairs of hex digits from s to the start of out, and says how many bytes they are. Gaps may stand around pairs and `0x` before them, and a `#`
// behind a blank ends the run.
pub fn read_bytes(s: &[u8], out: &mut [u8]) -> Result<usize, HexError>
    ensures value { result ≡ (hex_of (length out.old) s.now).run }
    ensures out_after { out.new ≡ sets out.old 0 (hex_of (length out.old) s.now).bytes }
    ensures upper_bound { IfOk result (λ n. n ≤ length out.new) }
{
    let mut at = 0;
    let mut n = 0;

    // Not a `for`: a turn goes one place on or two.
    while at < s.len() {
        let passed = passed_at(s, at);
        if 0 < passed {
            at += passed;
            continue;
        }
        let Some(byte) = piece_at(s, at, n, out.len())? else {
            return Ok(n);
        };
        out[n] = byte;
        n += 1;
        at += 2;
    }
    Ok(n)
}

// The byte that stands at s[at], which is no gap, where n bytes were read and there is room for `room`; or none: a `#` behind a blank ends the run.
fn piece_at(s: &[u8], at: usize, n: usize, room: usize) -> Result<Option<u8>, HexError>
    requires { at < length s.now }
    ensures { result ≡ piece_at s.now at n room }
{
    let Some(high) = value(s[at]) else {
        if s[at] == b'#' && blank_before(s, at) {
            return Ok(None);
        }
        return Err(HexError::Bad(at));
    };
    if s.len() - at < 2 || is_gap(s[at + 1]) {
        return Err(HexError::Odd(at));
    }
    let Some(low) = value(s[at + 1]) else {
        return Err(HexError::Bad(at + 1));
    };
    if room <= n {
        return Err(HexError::Full);
    }
    Ok(Some(high * 16 + low))
}
