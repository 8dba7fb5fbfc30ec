// One line of the input played, and what is said of it.
ghost use Rattle.std.specs.Prelude.{◌≡◌};
ghost use Rattle.print.specs.Line.{laid};
ghost use Rattle.print.specs.Seen.{seen};
ghost use Rattle.rack.specs.Facts.{RackFine};
ghost use Rattle.text.specs.declared.lines.Reached.TheVariants as got;
ghost use Rattle.play.specs.Turns.{wrong_text, long_text, draws_text, Turned};

use crate::told::{Desk, play_event};
use print::fail::fail;
use print::line::Line;
use script::lines::{Action, action_of};
use std::random::RandomSource;
use text::lines::Reached;
use verbs::trouble::{Trouble, put_trouble};

// Line n cannot be read.
#[tactic(auto, using(print::proofs::Lines::lines), unfolding(crate::specs::Turns::wrong_text))]
fn put_wrong(line: &mut Line, n: u64, trouble: Trouble)
    ensures { seen line.new ≡ laid (seen line.old) (wrong_text n trouble) }
{
    line.word_number(b"line ", n);
    line.put(b": ");
    put_trouble(line, trouble);
    line.put(b"\n");
}

#[tactic(auto, using(print::proofs::Lines::lines), unfolding(crate::specs::Turns::long_text))]
fn put_long(line: &mut Line, n: u64)
    ensures { seen line.new ≡ laid (seen line.old) (long_text n) }
{
    line.word_number(b"line ", n);
    line.put(b": too long\n");
}

// Draws as a line that asks for them again.
#[tactic(auto, using(print::proofs::Lines::lines), unfolding(crate::specs::Turns::draws_text))]
fn put_draws(line: &mut Line, n: u64, draws: &[u8])
    ensures { seen line.new ≡ laid (seen line.old) (draws_text n draws.now) }
{
    line.decimal(n);
    line.put(b" draws");
    line.hex(draws);
    line.put(b"\n");
}

// Draws from the system. What fails is written to standard error, and they stay.
fn draw(rt: &HostRuntime, draws: &mut [u8]) {
    if let Err(why) = rt.fill_bytes(draws) {
        fail(rt, b"draws", why);
    }
}

// One answer of `next`: line n is played, or is too long. What is said of it is laid.
pub fn turn(
    rt: &HostRuntime,
    quiet: bool,
    reached: Reached,
    line: &[u8],
    n: u64,
    tags: &mut [u8],
    draws: &mut [u8],
    bytes: &mut [u8],
    desk: &mut Desk,
)
    requires { RackFine tags.old }
    ensures { Turned quiet n reached line.now tags.old draws.old bytes.old (seen desk.old.out) tags.new
        draws.new bytes.new (seen desk.new.out) }
{
    match reached {
        Reached::Line(_, _) => play_line(rt, quiet, line, n, tags, draws, bytes, desk),
        Reached::Long => put_long(&mut desk.out, n),
        Reached::End => {}
    }
}

// Plays line n.
fn play_line(
    rt: &HostRuntime,
    quiet: bool,
    line: &[u8],
    n: u64,
    tags: &mut [u8],
    draws: &mut [u8],
    bytes: &mut [u8],
    desk: &mut Desk,
)
    requires { RackFine tags.old }
    ensures { Turned quiet n (got.Line 0 0) line.now tags.old draws.old bytes.old (seen desk.old.out) tags.new
        draws.new bytes.new (seen desk.new.out) }
{
    match action_of(line, draws, bytes) {
        Ok(Action::Nothing) => {}
        Ok(Action::Play(number, len)) => {
            play_event(quiet, n, number, &bytes[..len], tags, draws, desk);
        }
        Ok(Action::Random) => {
            draw(rt, draws);
            put_draws(&mut desk.out, n, draws);
        }
        Err(trouble) => put_wrong(&mut desk.out, n, trouble),
    }
}
