// The reader's side: requests written and played on the rack, answers read.
ghost use Rattle.std.specs.Prelude.{◌≤◌, length};

use crate::meanings::print_reading;
use crate::racks::play;
use crate::sums::seal_into;
use answer::reading::read_answer;
use event::call::LEAST;
use face::fields::{Fields, command_of};
use frame::number::{byte_at, number_at};
use frame::refusal::Refusal;
use print::say::{print_bytes, print_number, say, say_number};
use reader::command::Command;
use reader::writer::try_write;
use script::draws::draws_for;

// The UID that commands to one UID name.
fn uid() -> [u8; 8] {
    [0x11, 0, 0, 0, 0, 0, 0, 0]
}

fn mask_of(bytes: &[u8]) -> u64 {
    if bytes.len() < 17 {
        0
    } else {
        number_at(bytes, 9, 8)
    }
}

// The command that bytes start with; what it does not have is not looked at.
fn command(bytes: &[u8]) -> Command {
    let f = Fields {
        kind: byte_at(bytes, 0),
        target: byte_at(bytes, 1),
        option: byte_at(bytes, 2) == 1,
        sixteen: byte_at(bytes, 5) == 1,
        given: byte_at(bytes, 6) == 1,
        afi: byte_at(bytes, 7),
        bits: byte_at(bytes, 8),
        byte: byte_at(bytes, 5),
        code: byte_at(bytes, 3) as u16 * 256 + byte_at(bytes, 4) as u16,
        mask: mask_of(bytes),
        more: byte_at(bytes, 6),
    };
    command_of(f)
}

// How many bytes a command has: of kind 1 some codes have more than the others.
fn length_of(bytes: &[u8]) -> usize {
    if byte_at(bytes, 0) != 1 || byte_at(bytes, 3) != 0 {
        return 6;
    }
    match byte_at(bytes, 4) {
        0x01 => 17,
        0x23 | 0x2C => 7,
        _ => 6,
    }
}

// The place behind a command.
fn behind(bytes: &[u8]) -> usize
    ensures { result ≤ length bytes.now }
{
    length_of(bytes).min(bytes.len())
}

// What a frame means as an answer to a command that was sent with n bytes of data.
fn read(rt: &HostRuntime, bytes: &[u8], n: usize, frame: &[u8]) {
    print_reading(rt, read_answer(command(bytes), uid(), n, frame));
}

// The answer to a command, if one came, read back.
fn read_back(rt: &HostRuntime, bytes: &[u8], answered: u8, answer: &[u8], len: usize) {
    if answered != 1 {
        say(rt, b" -> silence");
        return;
    }
    if answer.len() < len {
        return;
    }
    say(rt, b" -> ");
    print_bytes(rt, &answer[0..len]);
    say(rt, b" = ");
    read(rt, bytes, bytes.len() - behind(bytes), &answer[0..len]);
}

// The event of a command's kind.
fn event_of(bytes: &[u8]) -> u8 {
    if byte_at(bytes, 0) == 2 { 5 } else { 3 }
}

// A command's frame is played, and its answer read.
fn send(rt: &HostRuntime, bytes: &[u8], frame: &[u8], tags: &mut [u8], draws: &[u8]) {
    let mut answer = [0u8; LEAST];
    let n = draws_for(tags, draws.len());
    let report = play(event_of(bytes), frame, tags, &draws[0..n], &mut answer);
    read_back(rt, bytes, report.answered, &answer, report.length);
}

// The request of a command, with the data behind it.
fn write(bytes: &[u8], out: &mut [u8]) -> Result<usize, Refusal> {
    let at = behind(bytes);
    try_write(command(bytes), uid(), &bytes[at..], out)
}

pub fn request(rt: &HostRuntime, bytes: &[u8], tags: &mut [u8], draws: &[u8]) {
    let mut out = [0xEEu8; 64];
    match write(bytes, &mut out) {
        Ok(n) => {
            if n <= out.len() {
                print_bytes(rt, &out[0..n]);
                send(rt, bytes, &out[0..n], tags, draws);
            }
        }
        Err(why) => say_number(rt, b"refused ", why.number() as u64),
    }
}

pub fn narrow(rt: &HostRuntime, bytes: &[u8]) {
    let mut out = [0xEEu8; 63];
    let number = match write(bytes, &mut out) {
        Ok(_) => 0,
        Err(why) => why.number(),
    };
    print_number(rt, number as u64);
}

// An answer to a command that was sent with one byte of data.
pub fn answer(rt: &HostRuntime, bytes: &[u8]) {
    let at = behind(bytes);
    let mut frame = [0u8; 512];
    let n = seal_into(&bytes[at..], &mut frame);
    read(rt, bytes, 1, &frame[0..n]);
}

pub fn frame(rt: &HostRuntime, bytes: &[u8]) {
    let at = behind(bytes);
    read(rt, bytes, 0, &bytes[at..]);
}
