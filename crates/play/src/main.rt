// play [-q] RACK [NEXT]: plays a rack over the lines on standard input, tells what comes of each, and writes the rack left to NEXT; -q: replies alone.
#![tactic(auto)]

mod session;
mod told;
mod turns;

ghost use Rattle.rack.specs.Facts.{RackFine};

use crate::session::{Session, play_lines};
use crate::told::OUT;
use frame::verdict::Offence;
use print::fail::tell;
use print::line::Line;
use print::say::say;
use rack::file::judge;
use sheet::refusal::put_refusal;
use text::args::{PATH_MAX, count, path, word};
use text::file::load;
use text::save::save;

// Not inlined, as `leave` is not, so that what the one lays on the stack is gone when the other needs it.
#[inline(never)]
fn play_all(rt: &HostRuntime, quiet: bool, tags: &mut [u8]) -> bool
    requires { RackFine tags.old }
{
    let mut room = [0u8; OUT];
    let mut session = Session::new(&mut room);
    play_lines(rt, quiet, &mut session, tags)
}

// Where argument i names a NEXT, the rack left goes to it.
#[inline(never)]
fn leave(rt: &HostRuntime, i: usize, tags: &[u8]) {
    if count(rt) <= i {
        return;
    }
    let mut named = [0u8; PATH_MAX];
    if let Some(n) = path(rt, i, b"NEXT", &mut named) {
        save(rt, &named[..n], tags);
    }
}

// Why a rack is not played.
fn refuse(rt: &HostRuntime, tags: &[u8], offence: Offence) {
    let mut room = [0u8; 256];
    let mut line = Line::new(&mut room);
    put_refusal(&mut line, tags, Err(offence));
    line.put(b"\n");
    say(rt, line.text());
}

// Plays a rack where it is well-formed; argument i may name a NEXT, which is not written where output was lost.
fn run(rt: &HostRuntime, quiet: bool, i: usize, tags: &mut [u8]) {
    if let Err(offence) = judge(tags) {
        refuse(rt, tags, offence);
    } else if play_all(rt, quiet, tags) {
        leave(rt, i, tags);
    }
}

fn usage(rt: &HostRuntime) {
    tell(
        rt,
        b"usage: play [-q] RACK [NEXT], with events on standard input\n",
    );
}

// Whether the first argument is -q.
fn is_quiet(rt: &HostRuntime) -> bool {
    let mut first = [0u8; 3];
    let n = word(rt, 1, &mut first);
    n == 2 && first[0] == b'-' && first[1] == b'q'
}

// The arguments from RACK on: one or two.
fn play(rt: &HostRuntime, quiet: bool, first: usize) {
    let words = count(rt);
    if words <= first || 2 < words - first {
        usage(rt);
        return;
    }
    let mut tags = [0u8; 65537];
    if let Some(len) = load(rt, first, b"RACK", &mut tags) {
        run(rt, quiet, first + 1, &mut tags[..len]);
    }
}

fn main(rt: HostRuntime) {
    if is_quiet(&rt) {
        play(&rt, true, 2);
    } else {
        play(&rt, false, 1);
    }
}
