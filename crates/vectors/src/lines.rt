// Each line of standard input is written again, with what came of it and what it changed in the rack. A line is one that the program play takes, or
// a word of our own and bytes:
//
// = BYTES                   the rack from here on
// ! PLACE PLACE BYTES       sets bytes of it, from a place that is given high byte first
// sum BYTES                 the check sums of bytes
// mask UID MASK BITS [SLOT] whether a UID ends in a mask, with a slot above it where one is given; eight bytes each, low byte first
// try EVENT DRAWS ROOM ROOM an event with no frame, so many draws and a buffer of so many bytes, high byte first
// walk [AFI]                a walk
// into ROOM                 a walk with a list of so many bytes
// request COMMAND DATA      a request, written and played, and its answer read
// narrow COMMAND DATA       a request, written to 63 bytes
// answer COMMAND CONTENT    an answer, with its check sum added, read
// frame COMMAND FRAME       an answer read as it stands
//
// A COMMAND is its kind, target, Option and code (high byte first), then its byte, of 23 and 2C the count less 1 behind it; of an Inventory whether there
// are sixteen slots, whether an AFI is given, the AFI, the length of the mask and the mask.
ghost use Rattle.std.specs.Prelude.{◌≤◌, length};

use crate::changes::print_changes;
use crate::replies::{play_event, print_trouble};
use crate::{racks, readers, sums};
use print::say::say;
use script::lines::{Action, action_of};
use text::hex::read_bytes;
use text::lines::{Reached, next, source_of};
use text::words::first_word;

// The most turns that are taken: no input outlasts them.
const TURNS: u64 = 4611686018427387904;

// A word of our own.
#[derive(Clone, Copy)]
enum Word {
    Answer,
    Frame,
    Into,
    Mask,
    Narrow,
    Request,
    Sum,
    Try,
    Walk,
}

// The word that starts with a byte.
fn word_of(mark: u8) -> Option<Word> {
    match mark {
        b'a' => Some(Word::Answer),
        b'f' => Some(Word::Frame),
        b'i' => Some(Word::Into),
        b'm' => Some(Word::Mask),
        b'n' => Some(Word::Narrow),
        b'r' => Some(Word::Request),
        b's' => Some(Word::Sum),
        b't' => Some(Word::Try),
        b'w' => Some(Word::Walk),
        _ => None,
    }
}

// Copies as much of src over the front of dst as both have.
fn copy(src: &[u8], dst: &mut [u8]) {
    let n = src.len().min(dst.len());
    dst[0..n].copy_from_slice(&src[0..n]);
}

// Reads hex to the front of out: how many bytes, or 0 where it is no hex.
fn read_hex(line: &[u8], out: &mut [u8]) -> usize
    ensures { result ≤ length out.new }
{
    read_bytes(line, out).unwrap_or(0)
}

// Sets bytes from a place on, which the first two give.
fn set_bytes(bytes: &[u8], tags: &mut [u8]) {
    if bytes.len() < 2 {
        return;
    }
    let at = u16::from_be_bytes([bytes[0], bytes[1]]) as usize;
    if tags.len() < at {
        return;
    }
    copy(&bytes[2..], &mut tags[at..]);
}

fn poke(line: &[u8], tags: &mut [u8]) {
    let mut bytes = [0u8; 64];
    let n = read_hex(line, &mut bytes);
    set_bytes(&bytes[0..n], tags);
}

// A line as the program play takes it.
fn play_line(rt: &HostRuntime, line: &[u8], tags: &mut [u8], draws: &mut [u8]) {
    let mut bytes = [0u8; 512];
    match action_of(line, draws, &mut bytes) {
        Ok(Action::Nothing | Action::Random) => {}
        Ok(Action::Play(number, n)) => {
            say(rt, b" ->");
            play_event(rt, tags, number, &bytes[0..n], draws);
        }
        Err(trouble) => {
            say(rt, b" -> ");
            print_trouble(rt, trouble);
        }
    }
}

fn act(rt: &HostRuntime, word: Word, bytes: &[u8], tags: &mut [u8], draws: &[u8]) {
    match word {
        Word::Answer => readers::answer(rt, bytes),
        Word::Frame => readers::frame(rt, bytes),
        Word::Into => racks::into(rt, bytes, tags),
        Word::Mask => sums::mask(rt, bytes),
        Word::Narrow => readers::narrow(rt, bytes),
        Word::Request => readers::request(rt, bytes, tags, draws),
        Word::Sum => sums::sum(rt, bytes),
        Word::Try => racks::try_event(rt, bytes, tags),
        Word::Walk => racks::walk_all(rt, bytes, tags),
    }
}

// A line of ours.
fn our_line(rt: &HostRuntime, word: Word, line: &[u8], tags: &mut [u8], draws: &[u8]) {
    let said = first_word(line);
    let rest = said.rest;
    let mut bytes = [0u8; 512];
    let n = read_hex(&line[rest..], &mut bytes);
    say(rt, b" -> ");
    act(rt, word, &bytes[0..n], tags, draws);
}

fn any_line(rt: &HostRuntime, mark: u8, line: &[u8], tags: &mut [u8], draws: &mut [u8]) {
    match word_of(mark) {
        Some(word) => our_line(rt, word, line, tags, draws),
        None => play_line(rt, line, tags, draws),
    }
}

// A line and what it changed.
fn change(rt: &HostRuntime, mark: u8, line: &[u8], tags: &mut [u8], draws: &mut [u8]) {
    let mut old = [0u8; 16384];
    copy(tags, &mut old);
    any_line(rt, mark, line, tags, draws);
    print_changes(rt, &old, tags);
}

// A line, with a rack in the first len bytes of tags; returns the length of the rack now.
fn take(rt: &HostRuntime, line: &[u8], tags: &mut [u8], len: usize, draws: &mut [u8]) -> usize {
    if line.is_empty() {
        return len;
    }
    let mark = line[0];
    if mark == b'=' {
        return read_hex(&line[1..], tags);
    }
    if tags.len() < len {
        return 0;
    }
    if mark == b'!' {
        poke(&line[1..], &mut tags[0..len]);
    } else {
        change(rt, mark, line, &mut tags[0..len], draws);
    }
    len
}

// A line written again, with what came of it.
fn turn(rt: &HostRuntime, line: &[u8], tags: &mut [u8], len: usize, draws: &mut [u8]) -> usize {
    say(rt, line);
    let now = take(rt, line, tags, len, draws);
    say(rt, b"\n");
    now
}

// Every line of the input.
fn lines(rt: &HostRuntime, buf: &mut [u8], tags: &mut [u8], draws: &mut [u8]) {
    let mut input = rt.stdin();
    let mut source = source_of();
    let mut len: usize = 0;
    for _ in 0..TURNS {
        let got = next(rt, &mut input, source, buf);
        match got.reached {
            Reached::Line(from, to) => len = turn(rt, &buf[from..to], tags, len, draws),
            Reached::Long => {}
            Reached::End => return,
        }
        source = got.source;
    }
}

pub fn run(rt: &HostRuntime) {
    let mut buf = [0u8; 65536];
    let mut tags = [0u8; 16384];
    let mut draws = [0u8; 64];
    lines(rt, &mut buf, &mut tags, &mut draws);
}
