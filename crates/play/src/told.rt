// An event played, and what is said of it.
ghost use Rattle.std.specs.Prelude.{◌≡◌, true, false};
ghost use Rattle.print.specs.Line.{laid, lent};
ghost use Rattle.print.specs.Seen.{seen};
ghost use Rattle.request.specs.Signal.{signal_of};
ghost use Rattle.rack.specs.Facts.{RackFine};
ghost use Rattle.play.specs.Facts.{Unchanged};
ghost use Rattle.play.specs.Told.{left, beside_reply, behind_reply, told_text, Played};

use event::call::{LEAST, Report, event_on};
use print::line::Line;
use rack::whole::Rack;
use request::label::data_of;
use request::signal::{Signal, hear};
use script::draws::draws_for;
use tell::line::{put_line, put_quiet};
use tell::meaning::{part_of, put_answer};
use trace::calm::{is_calm, is_one};
use trace::changes::put_changes;
use trace::owners::put_owners;
use trace::why::put_why;

// The longest rack has as many bytes.
const RACK: usize = 65536;

// More than any meaning has.
const MEANING: usize = 10240;

// More than twice what is said of an event.
pub const OUT: usize = 131072;

// What is lent to every event, made once, since some of it is long: for the rack as it was before, for an answer and what that means, and a line for
// all that is said.
#[derive(Drop)]
pub struct Desk<'a> {
    before: [u8; RACK],
    answer: [u8; LEAST],
    meaning: [u8; MEANING],
    pub out: Line<'a>,
}

impl<'a> Desk<'a> {
    // All that is said is laid into the room that is lent.
    pub fn new(room: &'a mut [u8]) -> Desk<'a>
        ensures { seen result.out ≡ lent room.old 0 room.entry.ghost_name }
    {
        Desk {
            before: [0; RACK],
            answer: [0; LEAST],
            meaning: [0; MEANING],
            out: Line::new(room),
        }
    }
}

// An event that was played: what was asked, with which draws, the rack before and behind it, and what came of it.
#[derive(Drop)]
struct Happened<'f, 'd, 'a> {
    number: u8,
    frame: &'f [u8],
    signal: Signal,
    draws: &'d [u8],
    old: Rack<'a>,
    tags: Rack<'a>,
    report: Report,
    answer: &'a [u8],
    ghost heard: { signal ≡ signal_of number frame.now },
}

// What an answer that was alone means, why nobody answered, or who did.
#[tactic(auto, using(print::proofs::Lines::lines), unfolding(crate::specs::Told::beside_reply))]
fn put_beside(line: &mut Line, e: &Happened)
    ensures { seen line.new ≡ laid (seen line.old) (beside_reply e.now.number e.now.frame.now e.now.draws.now e.now.old
        (left e.now.report e.now.tags e.now.answer.now)) }
{
    match e.report.answered {
        1 => put_answer(
            line,
            e.number,
            e.signal,
            part_of(e.answer, 0, e.report.length),
        ),
        0 => put_why(line, e.number, e.frame, e.signal, &e.tags),
        _ => put_owners(line, e.signal, data_of(e.frame), e.draws, &e.old),
    }
}

// What a frame changed. Most label frames change nothing that is told, and others but one label: of the rest the racks, which are long, are not
// compared.
#[tactic(auto, using(print::proofs::Lines::lines), unfolding(crate::specs::Told::behind_reply))]
fn put_behind(line: &mut Line, e: &Happened)
    requires { Unchanged e.now.number e.now.signal.label e.now.old e.now.tags }
    ensures { seen line.new ≡ laid (seen line.old) (behind_reply e.now.number e.now.old e.now.tags) }
{
    let asked = e.signal.label;
    if e.number == 3 {
        if !is_calm(asked.call) {
            put_changes(line, is_one(asked.call), asked.uid, &e.old, &e.tags);
        }
    } else if e.number == 5 {
        put_changes(line, false, asked.uid, &e.old, &e.tags);
    }
}

// The line of a reply with what it means, and the lines of what changed. The meaning is laid by itself first.
fn put_told(out: &mut Line, room: &mut [u8; MEANING], n: u64, e: &Happened)
    requires { Unchanged e.now.number e.now.signal.label e.now.old e.now.tags }
    ensures { seen out.new ≡ laid (seen out.old) (told_text n e.now.number e.now.frame.now e.now.draws.now e.now.old
        (left e.now.report e.now.tags e.now.answer.now)) }
{
    let mut meaning = Line::new(room);
    put_beside(&mut meaning, e);
    put_line(
        out,
        n,
        e.number,
        e.signal,
        e.report,
        e.answer,
        meaning.text(),
    );
    put_behind(out, e);
}

// Plays the event that line n asks, and lays all that is said of it. What stood in the desk's buffers before does not matter.
fn play_told(n: u64, number: u8, frame: &[u8], tags: &mut [u8], draws: &[u8], desk: &mut Desk)
    requires { RackFine tags.old }
    ensures { Played false n number frame.now draws.now tags.old (seen desk.old.out) tags.new (seen desk.new.out) }
{
    let mut before = Line::new(&mut desk.before);
    before.put(tags);
    let few = &draws[..draws_for(tags, draws.len())];
    let report = event_on(tags, number, frame, few, &mut desk.answer);
    let e = Happened {
        number,
        frame,
        signal: hear(number, frame),
        draws: few,
        old: Rack::of(before.text()),
        tags: Rack::of(tags),
        report,
        answer: &desk.answer,
    };
    put_told(&mut desk.out, &mut desk.meaning, n, &e);
}

// Plays it, and lays the reply alone.
fn play_quietly(n: u64, number: u8, frame: &[u8], tags: &mut [u8], draws: &[u8], desk: &mut Desk)
    requires { RackFine tags.old }
    ensures { Played true n number frame.now draws.now tags.old (seen desk.old.out) tags.new (seen desk.new.out) }
{
    let few = &draws[..draws_for(tags, draws.len())];
    let report = event_on(tags, number, frame, few, &mut desk.answer);
    put_quiet(&mut desk.out, n, number, report, &desk.answer);
}

pub fn play_event(
    quiet: bool,
    n: u64,
    number: u8,
    frame: &[u8],
    tags: &mut [u8],
    draws: &[u8],
    desk: &mut Desk,
)
    requires { RackFine tags.old }
    ensures { Played quiet n number frame.now draws.now tags.old (seen desk.old.out) tags.new (seen desk.new.out) }
{
    if quiet {
        play_quietly(n, number, frame, tags, draws, desk);
    } else {
        play_told(n, number, frame, tags, draws, desk);
    }
}
