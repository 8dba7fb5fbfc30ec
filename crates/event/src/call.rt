// The event.
ghost use Rattle.std.specs.Prelude.{◌≡◌, ◌≤◌, length, MatchResult};
ghost use Rattle.std.proofs.lemmas.List.Edits.{sets};
ghost use Rattle.frame.specs.Refusal.{refusal_number};
ghost use Rattle.rack.specs.File.{count_of};
ghost use Rattle.rack.specs.Facts.{RackFine, Tellable, body_of};
ghost use Rattle.rack.specs.Tag.{carrying, frame_of};
ghost use Rattle.event.specs.Event.{next_rack, refusal_of, Replied};
ghost use Rattle.event.specs.Pass.{PassOf};

use frame::refusal::Refusal;
use rack::file::{body_of, entry_of, judge, kind_of, length_of};
use rack::tag::{Said, speaking, step_tag, write_said};
use rack::whole::Rack;
use request::label::data_of;
use request::signal::{Signal, hear};

// The room that every answer buffer has: that of 256 blocks of 32 bytes, each with its lock.
pub const LEAST: usize = 8451;

// What an event reports: the refusal's number or 0, how many tags answered, the length of an answer that was alone. C gets it as it stands.
#[repr(C)]
#[derive(Clone, Copy)]
pub struct Report {
    pub number: u8,
    pub answered: u8,
    pub length: usize,
}

impl Report {
    // A refusal: its number, and every other number 0.
    fn refused(refusal: Refusal) -> Report
        ensures { result ≡ record { number = refusal_number refusal; answered = 0; length = 0 } }
    {
        Report {
            number: refusal.number(),
            answered: 0,
            length: 0,
        }
    }

    // No refusal.
    fn played(answered: u8, length: usize) -> Report
        ensures { result ≡ record { number = 0; answered = answered; length = length } }
    {
        Report {
            number: 0,
            answered,
            length,
        }
    }
}

// What a tag said, and which.
#[derive(Clone, Copy)]
struct Spoken {
    who: usize,
    said: Said,
}

// What a pass over the tags heard: how many answered, and the answer that is alone.
#[derive(Clone, Copy)]
struct Pass {
    answered: u8,
    alone: Option<Spoken>,
}

// Every tag takes its step in turn, for which its body alone is lent: the signal and the bytes are decoded once. Draw i is entry i's.
fn play(rack: &mut [u8], signal: Signal, bytes: &[u8], draws: &[u8]) -> Pass
    requires rack_fine { RackFine rack.old }
    requires draws_len { length draws.now ≡ count_of rack.old }
    ensures pass_of { PassOf rack.old (carrying signal bytes.now) draws.now (count_of rack.old) result.answered result.alone }
    ensures rack_after { rack.new ≡ next_rack rack.old (carrying signal bytes.now) draws.now }
{
    let mut answered: u8 = 0;
    let mut alone = None;
    let mut at = entry_of(draws.len());
    for (i, draw) in draws.iter().enumerate() {
        let kind = kind_of(rack, i);
        let end = at + length_of(rack, i);
        let said = step_tag(kind, &mut rack[at..end], signal, bytes, *draw);
        if speaking(said) {
            alone = if answered == 0 {
                Some(Spoken { who: i, said })
            } else {
                None
            };
            answered += 1;
        }
        at = end;
    }
    Pass { answered, alone }
}

// Whether an event is played on a well-formed rack, or the refusal that applies.
#[tactic(auto, using(rack::proofs::FileVerdict::fine_rack), unfolding(crate::specs::Event::refusal_of))]
fn admit(rack: &Rack, number: u8, draws: usize, room: usize) -> Result<(), Refusal>
    ensures { MatchResult result (λ _. refusal_of rack.now number draws room ≡ 0)
        (λ refusal. refusal_number refusal ≡ refusal_of rack.now number draws room) }
{
    if draws != rack.count() {
        return Err(Refusal::Draws);
    }
    if room < LEAST {
        return Err(Refusal::Room);
    }
    if !matches!(number, 1..=5) {
        return Err(Refusal::Event);
    }
    Ok(())
}

// The frame of an answer opens the answer buffer.
fn tell(rack: &Rack, by: Spoken, answer: &mut [u8]) -> usize
    requires tellable { Tellable rack.now by.who by.said }
    requires room { length (frame_of by.said (body_of rack.now by.who)) ≤ length answer.old }
    ensures { (result ≡ length (frame_of by.said (body_of rack.now by.who)))
        × (answer.new ≡ sets answer.old 0 (frame_of by.said (body_of rack.now by.who))) }
{
    write_said(by.said, body_of(rack.bytes(), by.who), answer)
}

// Plays an event on a rack that is known to be well-formed. `RackFine` is asked where a rack is written, and no type has it there: it would have to be
// shown anew at each body, which `rebuilt_fine` does once.
pub fn event_on(
    rack: &mut [u8],
    number: u8,
    frame: &[u8],
    draws: &[u8],
    answer: &mut [u8],
) -> Report
    requires { RackFine rack.old }
    ensures { Replied rack.old number frame.now draws.now answer.old result rack.new
        answer.new }
{
    if let Err(refusal) = admit(&Rack::of(rack), number, draws.len(), answer.len()) {
        return Report::refused(refusal);
    }
    let signal = hear(number, frame);
    let pass = play(rack, signal, data_of(frame), draws);
    match pass.alone {
        Some(by) => Report::played(pass.answered, tell(&Rack::of(rack), by, answer)),
        None => Report::played(pass.answered, 0),
    }
}

// Plays an event: 1 field off, 2 field on, 3 label frame, 4 bare end of frame, 5 chip frame.
pub fn event(rack: &mut [u8], number: u8, frame: &[u8], draws: &[u8], answer: &mut [u8]) -> Report
    ensures { Replied rack.old number frame.now draws.now answer.old result rack.new
        answer.new }
{
    if judge(rack).is_err() {
        return Report::refused(Refusal::Rack);
    }
    event_on(rack, number, frame, draws, answer)
}
