// What an event line asks.
ghost use Rattle.std.specs.Prelude.{◌≡◌, false, ◌≤◌, length, drop};
ghost use Rattle.script.specs.Lines.{ended_action, frame_action, framed_action, sealed, framed_bytes, drawn_action, drawn_draws, read_to, draws_effect, effect_of};

use crate::commands::commanded;
use crate::draws::set_draws;
use frame::check_sum::seal;
use text::words::{Keyword, first_word};
use verbs::tokens::Rest;
use verbs::trouble::{Trouble, What};

// What a line asks to be done.
#[derive(Clone, Copy)]
pub enum Action {
    // A blank line, a comment or draws, which are set.
    Nothing,
    // An event: its number, and how many bytes its frame has.
    Play(u8, usize),
    // Draws from the system.
    Random,
}

// What a line asks that must end at a place.
#[tactic(auto, unfolding(crate::specs::Lines::ended_action))]
fn ended(rest: Rest, action: Action) -> Result<Action, Trouble>
    ensures { result ≡ ended_action rest.entry.line.now rest.entry.at action }
{
    rest.ended(What::End)?;
    Ok(action)
}

// An event with the first n of the bytes and their check sum.
#[tactic(auto, unfolding(crate::specs::Lines::sealed))]
fn summed(number: u8, bytes: &mut [u8], n: usize) -> Result<Action, Trouble>
    ensures value { result ≡ frame_action false number (length bytes.old) n }
    ensures bytes_after { bytes.new ≡ sealed n bytes.old }
{
    if bytes.len() < 2 || bytes.len() - 2 < n {
        return Err(Trouble::Full);
    }
    let m = seal(bytes, n);
    Ok(Action::Play(number, m))
}

// An event with a frame; where it is not whole, its check sum is added.
fn framed(rest: Rest, number: u8, whole: bool, bytes: &mut [u8]) -> Result<Action, Trouble>
    requires { rest.at ≤ length rest.line.now }
    ensures value { result ≡ framed_action number whole rest.entry.at (drop rest.entry.at rest.entry.line.now) (length bytes.old) }
    ensures bytes_after { bytes.new ≡ framed_bytes whole (drop rest.entry.at rest.entry.line.now) bytes.old }
{
    let n = rest.hex(bytes)?;
    if whole {
        return Ok(Action::Play(number, n));
    }
    summed(number, bytes, n)
}

// Draws for what follows.
fn drawn(rest: Rest, draws: &mut [u8], bytes: &mut [u8]) -> Result<Action, Trouble>
    requires { rest.at ≤ length rest.line.now }
    ensures value { result ≡ drawn_action rest.entry.at (drop rest.entry.at rest.entry.line.now) (length bytes.old) }
    ensures draws_after { draws.new ≡ drawn_draws (drop rest.entry.at rest.entry.line.now) (length bytes.old) draws.old }
    ensures bytes_after { bytes.new ≡ read_to (drop rest.entry.at rest.entry.line.now) bytes.old }
{
    let n = rest.hex(bytes)?;
    set_draws(draws, &bytes[..n]);
    Ok(Action::Nothing)
}

// Draws for what follows, or `random`.
#[tactic(auto, unfolding(crate::specs::Lines::draws_effect))]
fn drawn_or_random(rest: Rest, draws: &mut [u8], bytes: &mut [u8]) -> Result<Action, Trouble>
    requires { rest.at ≤ length rest.line.now }
    ensures value { result ≡ (draws_effect rest.entry.line.now rest.entry.at draws.old bytes.old).action }
    ensures draws_after { draws.new ≡ (draws_effect rest.entry.line.now rest.entry.at draws.old bytes.old).draws }
    ensures bytes_after { bytes.new ≡ (draws_effect rest.entry.line.now rest.entry.at draws.old bytes.old).bytes }
{
    if rest.next_is(b"random") {
        return ended(rest.next(), Action::Random);
    }
    drawn(rest, draws, bytes)
}

// What a line asks; the bytes behind its word go to the front of a buffer. A line of draws sets them.
pub fn action_of(line: &[u8], draws: &mut [u8], bytes: &mut [u8]) -> Result<Action, Trouble>
    ensures value { result ≡ (effect_of line.now draws.old bytes.old).action }
    ensures draws_after { draws.new ≡ (effect_of line.now draws.old bytes.old).draws }
    ensures bytes_after { bytes.new ≡ (effect_of line.now draws.old bytes.old).bytes }
{
    let first = first_word(line);
    let rest = Rest {
        line,
        at: first.rest,
    };
    match first.word {
        Keyword::Empty | Keyword::Comment => Ok(Action::Nothing),
        Keyword::Off => ended(rest, Action::Play(1, 0)),
        Keyword::On => ended(rest, Action::Play(2, 0)),
        Keyword::Eof => ended(rest, Action::Play(4, 0)),
        Keyword::Label => framed(rest, 3, true, bytes),
        Keyword::LabelSeal => framed(rest, 3, false, bytes),
        Keyword::Chip => framed(rest, 5, true, bytes),
        Keyword::ChipSeal => framed(rest, 5, false, bytes),
        Keyword::Draws => drawn_or_random(rest, draws, bytes),
        Keyword::Unknown => commanded(line, bytes),
    }
}
