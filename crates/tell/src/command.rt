// The command that an event asks, so that its answer can be read.
ghost use Rattle.std.specs.Prelude.{◌≡◌, ◌&&◌};
ghost use Rattle.request.specs.Table.{row_of};
ghost use Rattle.tell.specs.Commands.{within, label_command, chip_command, command_of, reading_for};

use answer::reading::{Reading, read_answer};
use reader::command::{ChipTask, Command};
use request::chip::Order;
use request::label::{Call, Family, Params, Target};
use request::signal::Signal;
use request::table::{Task, row_of};

// How many bytes of data are taken to stand beside a command: right for every block.
const DATA: usize = 4;

// Whether Option is set and the task may have it.
fn has_option(task: Task, option: bool) -> bool
    ensures { result ≡ option && (row_of task).option }
{
    option && row_of(task).option
}

// Parameters of a command that has a request: where blocks over 255 are asked for, the first alone.
#[tactic(auto, unfolding(crate::specs::Commands::within))]
fn keep_within(p: Params) -> Params
    ensures { result ≡ within p }
{
    if p.first as u32 + p.second as u32 <= 255 {
        p
    } else {
        Params {
            first: p.first,
            second: 0,
        }
    }
}

#[tactic(auto, unfolding(crate::specs::Commands::label_command))]
fn label_command(call: Call) -> Command
    ensures { result ≡ label_command call }
{
    match call {
        Call::Ignored | Call::Off | Call::On | Call::Nobody => Command::Other(0, 0),
        Call::EndOfFrame => Command::Inventory(Target::Everyone, false, Family::Any, true, 0, 0),
        Call::Inventory(family, sixteen, bits, mask) => {
            Command::Inventory(Target::Everyone, false, family, sixteen, bits, mask)
        }
        Call::Fault(to, _) => {
            let p = Params {
                first: 0,
                second: 0,
            };
            Command::Label(to, false, Task::Ready, p)
        }
        Call::Do(to, task, p, option) => {
            Command::Label(to, has_option(task, option), task, keep_within(p))
        }
    }
}

#[tactic(auto, unfolding(crate::specs::Commands::chip_command))]
fn chip_command(order: Order) -> Command
    ensures { result ≡ chip_command order }
{
    match order {
        Order::Ignored | Order::Off | Order::On => Command::Other(0, 0),
        Order::Initiate => Command::Chip(Target::Everyone, false, ChipTask::Initiate),
        Order::Pcall => Command::Chip(Target::Everyone, false, ChipTask::Pcall),
        Order::Marker(slot) => Command::Chip(Target::Everyone, false, ChipTask::Marker(slot)),
        Order::Select(id) => Command::Chip(Target::Everyone, false, ChipTask::Select(id)),
        Order::Completion => Command::Chip(Target::Everyone, false, ChipTask::Completion),
        Order::Reset => Command::Chip(Target::Everyone, false, ChipTask::Reset),
        Order::Read(n) => Command::Chip(Target::Everyone, false, ChipTask::Read(n)),
        Order::Uid => Command::Chip(Target::Everyone, false, ChipTask::Uid),
        Order::Write(n, _) => Command::Chip(Target::Everyone, false, ChipTask::Write(n)),
    }
}

// The command that event `number` asks. Where it is for one UID, that stands in the signal.
#[tactic(auto, unfolding(crate::specs::Commands::command_of))]
pub fn command_of(number: u8, signal: Signal) -> Command
    ensures { result ≡ command_of number signal }
{
    if number == 5 {
        chip_command(signal.chip)
    } else {
        label_command(signal.label.call)
    }
}

// What a frame means as an answer to event `number`.
#[tactic(auto, unfolding(crate::specs::Commands::reading_for))]
pub fn reading_of(number: u8, signal: Signal, frame: &[u8]) -> Reading
    ensures { result ≡ reading_for number signal frame.now }
{
    read_answer(command_of(number, signal), signal.label.uid, DATA, frame)
}
