// The reply to an event, and what is wrong with a line, printed.
use event::call::{LEAST, event};
use print::line::Line;
use print::say::say;
use script::draws::draws_for;
use tell::line::put_reply;
use tell::meaning::part_of;
use verbs::trouble::{Trouble, put_trouble};

// Plays an event on a rack and prints its reply, a space in front.
pub fn play_event(rt: &HostRuntime, tags: &mut [u8], number: u8, frame: &[u8], draws: &[u8]) {
    let mut answer = [0u8; LEAST];
    let n = draws_for(tags, draws.len());
    let report = event(tags, number, frame, part_of(draws, 0, n), &mut answer);
    let mut room = [0u8; 32768];
    let mut line = Line::new(&mut room);
    put_reply(&mut line, report, &answer);
    say(rt, line.text());
}

pub fn print_trouble(rt: &HostRuntime, trouble: Trouble) {
    let mut room = [0u8; 128];
    let mut line = Line::new(&mut room);
    put_trouble(&mut line, trouble);
    say(rt, line.text());
}
