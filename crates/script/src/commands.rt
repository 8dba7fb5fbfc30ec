// A command that a line asks: the frame that a reader sends for it.
ghost use Rattle.std.specs.Prelude.{◌≡◌, length};
ghost use Rattle.reader.specs.Request.{event_for};
ghost use Rattle.script.specs.Commands.{refused, Sends, sent, sent_from, command_of};

use crate::lines::Action;
use frame::refusal::Refusal;
use reader::command::Command;
use reader::writer::try_write;
use verbs::commands::{Asked, asked_in};
use verbs::tokens::Rest;
use verbs::trouble::Trouble;

// The event that a command's frame is.
#[tactic(auto, unfolding(reader::specs::Request::event_for))]
fn event_of(c: Command) -> u8
    ensures { result ≡ event_for c }
{
    match c {
        Command::Inventory(_, _, _, _, _, _) | Command::Label(_, _, _, _) => 3,
        Command::Chip(_, _, _) => 5,
        Command::Other(_, _) => 0,
    }
}

// What the writer's refusal says of a line: no such request, or no room for one.
fn refused(why: Refusal) -> Trouble
    ensures { result ≡ refused why }
{
    match why {
        Refusal::Fields => Trouble::NoRequest,
        _ => Trouble::Full,
    }
}

fn send(c: Command, uid: [u8; 8], data: &[u8], bytes: &mut [u8]) -> Result<Action, Trouble>
    ensures { Sends (sent c uid «data».now bytes.old) result bytes.new }
{
    match try_write(c, uid, data, bytes) {
        Ok(n) => Ok(Action::Play(event_of(c), n)),
        Err(why) => Err(refused(why)),
    }
}

// The command with the bytes that it sends, which start at its place of the line and go through a buffer.
fn send_from(
    asked: Asked,
    line: &[u8],
    data: &mut [u8],
    bytes: &mut [u8],
) -> Result<Action, Trouble>
    ensures { Sends (sent_from asked line.now (length «data».old) bytes.old) result bytes.new }
{
    let behind = Rest { line, at: asked.at };
    let n = behind.bytes(data)?;
    send(asked.command, asked.uid, &data[..n], bytes)
}

// What a line asks whose first word is no event's. A request has at most 64 bytes, and so do its data.
pub fn commanded(line: &[u8], bytes: &mut [u8]) -> Result<Action, Trouble>
    ensures { Sends (command_of line.now bytes.old) result bytes.new }
{
    let asked = asked_in(line)?;
    let mut data = [0u8; 64];
    send_from(asked, line, &mut data, bytes)
}
