// A command put together from the numbers that C hands over, and its UID.
ghost use Rattle.std.specs.Prelude.{◌≡◌, Bool, ltb, Some, None, if◌then◌else◌};
ghost use Rattle.request.specs.declared.label.Target.{Target};
ghost use Rattle.reader.specs.declared.command.Command.TheVariants.{Other};
ghost use Rattle.face.specs.Fields.{family_of, target_of, chip_command, label_command, command_of, uid_of, command_for, or_command, or_chip};

use frame::uid::uid_at;
use reader::command::{ChipTask, Command};
use request::label::{Family, Params, Target};
use request::table::find;

// A command's numbers; which of them count depends on the command. given says whether there is an AFI;
// byte is a block, an address, a slot, a Chip_ID or a value to write; more is how many blocks are asked for behind that one. C gives it as it stands.
#[repr(C)]
#[derive(Clone, Copy)]
pub struct Fields {
    pub kind: u8,
    pub target: u8,
    pub option: bool,
    pub sixteen: bool,
    pub given: bool,
    pub afi: u8,
    pub bits: u8,
    pub byte: u8,
    pub code: u16,
    pub mask: u64,
    pub more: u8,
}

// The family asked for: an AFI byte, or none.
pub fn family_of(given: bool, afi: u8) -> Family
    ensures { result ≡ family_of given afi }
{
    if given {
        Family::Only(afi)
    } else {
        Family::Any
    }
}

// The target of a number; a number over 2 is none.
#[tactic(auto, unfolding(crate::specs::Fields::target_of))]
fn target_of(n: u8) -> Option<Target>
    ensures { result ≡ (if ltb 2 n then None else Some (target_of n)) }
{
    match n {
        0 => Some(Target::Everyone),
        1 => Some(Target::Selected),
        2 => Some(Target::One),
        _ => None,
    }
}

// A label's command: Inventory, or a task by its code.
#[tactic(auto, unfolding(crate::specs::Fields::label_command, crate::specs::Fields::task_command), using(request::proofs::TableLookup::look_over))]
fn label_command(f: Fields, to: Target) -> Option<Command>
    ensures { or_command result (Other 1 0) ≡ label_command f to }
{
    if f.code == 0x01 {
        let family = family_of(f.given, f.afi);
        return Some(Command::Inventory(to, f.option, family, f.sixteen, f.bits, f.mask));
    }
    let code = u8::try_from(f.code).ok()?;
    let row = find(code)?;
    let p = Params {
        first: f.byte,
        second: f.more,
    };
    Some(Command::Label(to, f.option, row.task, p))
}

// A chip's task by its code, with the byte that goes with it.
#[tactic(auto, unfolding(crate::specs::Fields::chip_command))]
fn chip_task(code: u16, byte: u8) -> Option<ChipTask>
    ensures { (to : Target) → (option : Bool) → or_chip result to option ≡ chip_command code to option byte }
{
    match code {
        0x0600 => Some(ChipTask::Initiate),
        0x0604 => Some(ChipTask::Pcall),
        0x06 => Some(ChipTask::Marker(byte)),
        0x08 => Some(ChipTask::Read(byte)),
        0x09 => Some(ChipTask::Write(byte)),
        0x0B => Some(ChipTask::Uid),
        0x0C => Some(ChipTask::Reset),
        0x0E => Some(ChipTask::Select(byte)),
        0x0F => Some(ChipTask::Completion),
        _ => None,
    }
}

fn chip_command(f: Fields, to: Target) -> Option<Command>
    ensures { or_command result (Other 2 0) ≡ chip_command f.code to f.option f.byte }
{
    let task = chip_task(f.code, f.byte)?;
    Some(Command::Chip(to, f.option, task))
}

// The command that the numbers name, if they name one.
#[tactic(auto, unfolding(crate::specs::Fields::command_of))]
fn named(f: Fields) -> Option<Command>
    ensures { or_command result (Other f.kind 0) ≡ command_of f }
{
    let to = target_of(f.target)?;
    match f.kind {
        1 => label_command(f, to),
        2 => chip_command(f, to),
        _ => None,
    }
}

pub fn command_of(f: Fields) -> Command
    ensures { result ≡ command_of f }
{
    named(f).unwrap_or(Command::Other(f.kind, 0))
}

// A UID of eight bytes; zeros where they are not eight.
#[tactic(auto, unfolding(crate::specs::Fields::uid_of), using(answer::proofs::AnswerWays::all_there))]
pub fn uid_of(bytes: &[u8]) -> [u8; 8]
    ensures { result ≡ uid_of bytes.now }
{
    if bytes.len() == 8 {
        uid_at(bytes, 0)
    } else {
        [0; 8]
    }
}

// The command of these numbers with n bytes of a UID.
#[tactic(auto, unfolding(crate::specs::Fields::command_for))]
pub fn command_for(f: Fields, n: usize) -> Command
    ensures { result ≡ command_for f n }
{
    if f.target != 2 || n == 8 {
        command_of(f)
    } else {
        Command::Other(f.kind, 0)
    }
}
