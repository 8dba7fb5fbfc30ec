// All lines of the input, one after the other, and what is said of them.
ghost use Rattle.std.specs.Prelude.{◌≡◌, ◌≤◌, true, false, length, replicate};
ghost use Rattle.print.specs.Line.{lent, buffer, full};
ghost use Rattle.print.specs.Seen.{seen};
ghost use Rattle.rack.specs.Facts.{RackFine};
ghost use Rattle.text.specs.declared.lines.Source.TheVariants.{Holding};
ghost use Rattle.text.specs.Lines.{Inside};
ghost use Rattle.play.specs.Session.{stand, stand_of, start_of, line_of, may_wait, Stepped, Laid, Over};

use crate::told::Desk;
use crate::turns::turn;
use print::fail::tell;
use print::line::Line;
use print::say::say;
use text::lines::{Reached, Source, at_hand, has_ended, next, source_of};
use text::mark::after_mark;

// A line of less than 262,144 bytes has less than 131,072 bytes in hex.
const LONGEST: usize = 262144;

const BYTES: usize = 131072;

// So many turns at most follow on one another, which no input outlasts: 2^62.
const TURNS: u64 = 4611686018427387904;

// Where the program stands between two lines: the reading and its buffer, how many lines were read, the draws, the bytes of the last line, and what is
// lent to every event. It is made once, since some of it is long.
#[derive(Drop)]
pub struct Session<'a> {
    source: Source,
    n: u64,
    buf: [u8; LONGEST],
    draws: [u8; 64],
    bytes: [u8; BYTES],
    desk: Desk<'a>,
}

impl<'a> Session<'a> {
    // Nothing is read yet, and all draws are 0. All that is said is laid into the room that is lent.
    pub fn new(room: &'a mut [u8]) -> Session<'a>
        ensures source { result.source ≡ Holding 0 0 }
        ensures count { result.n ≡ 0 }
        ensures draws { result.draws ≡ replicate 64 0 }
        ensures out { seen result.desk.out ≡ lent room.old 0 room.entry.ghost_name }
    {
        Session {
            source: source_of(),
            n: 0,
            buf: [0; LONGEST],
            draws: [0; 64],
            bytes: [0; BYTES],
            desk: Desk::new(room),
        }
    }
}

// Where line n starts: only the first may have a mark.
#[tactic(auto, unfolding(crate::specs::Session::start_of))]
fn start(n: u64, line: &[u8]) -> usize
    ensures value { result ≡ start_of n line.now }
    ensures upper_bound { result ≤ length line.now }
{
    if n == 1 { after_mark(line) } else { 0 }
}

// Line n, where one was reached.
fn line_in(n: u64, reached: Reached, buf: &[u8]) -> &[u8]
    requires { Inside reached (length buf.now) }
    ensures { result.now ≡ line_of n reached buf.now }
{
    match reached {
        Reached::Line(from, to) => {
            let first = from + start(n, &buf[from..to]);
            &buf[first..to]
        }
        _ => &buf[..0],
    }
}

// Finds the next line and plays it, or what is found instead; what is said of it is laid.
fn play_next(rt: &HostRuntime, quiet: bool, session: &mut Session, tags: &mut [u8])
    requires { RackFine tags.old }
    ensures { Stepped quiet (stand_of session.old tags.old) (stand_of session.new tags.new)
        (seen session.old.desk.out) (seen session.new.desk.out) }
{
    let mut input = rt.stdin();
    let got = next(rt, &mut input, session.source, &mut session.buf);
    session.source = got.source;
    session.n = session.n.wrapping_add(1);
    turn(
        rt,
        quiet,
        got.reached,
        line_in(session.n, got.reached, &session.buf),
        session.n,
        tags,
        &mut session.draws,
        &mut session.bytes,
        &mut session.desk,
    );
}

// Whether what was said may wait for the next line: that one is at hand, and half of the room is left for it, which is more than a line says.
#[tactic(auto, unfolding(crate::specs::Session::may_wait))]
fn may_wait(session: &Session) -> bool
    ensures { result ≡ may_wait session.now.source session.now.buf (length (buffer (seen session.now.desk.out))) (length (seen session.now.desk.out).text) }
{
    !has_ended(session.source)
        && session.desk.out.len() <= session.desk.out.room() / 2
        && at_hand(session.source, &session.buf)
}

// Plays a line and those that are at hand behind it; what is said of them is laid one behind the other.
fn play_some(rt: &HostRuntime, quiet: bool, session: &mut Session, tags: &mut [u8])
    requires { RackFine tags.old }
    ensures { Laid quiet (stand_of session.old tags.old) (stand_of session.new tags.new)
        (seen session.old.desk.out) (seen session.new.desk.out) }
{
    session.desk.out.clear();
    play_next(rt, quiet, session, tags);
    for _ in 0..TURNS {
        if !may_wait(session) {
            return;
        }
        play_next(rt, quiet, session, tags);
    }
}

// Writes the text laid; whether all of it had room and was written. By reckoning it always has room: this is so that none is ever cut.
fn hand_over(rt: &HostRuntime, out: &Line) -> bool
    ensures { result ≡ true → full (seen out.now) ≡ false }
{
    if !out.is_full() {
        return say(rt, out.text());
    }
    tell(rt, b"output: too long\n");
    false
}

// Plays every line of the input, counted from here on. Whether all that was said was written; if not, it stops there.
pub fn play_lines(rt: &HostRuntime, quiet: bool, session: &mut Session, tags: &mut [u8]) -> bool
    requires { RackFine tags.old }
    ensures { result ≡ true → Over quiet (stand session.old.source session.old.buf 0 tags.old session.old.draws session.old.bytes) tags.new }
{
    session.n = 0;
    for _ in 0..TURNS {
        play_some(rt, quiet, session, tags);
        if !hand_over(rt, &session.desk.out) {
            return false;
        }
        if has_ended(session.source) {
            return true;
        }
    }
    false
}
