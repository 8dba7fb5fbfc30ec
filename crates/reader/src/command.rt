// What a reader can send, and whether there is a request with these fields.
ghost use Rattle.std.specs.Prelude.{◌≡◌, not, ◌&&◌};
ghost use Rattle.reader.specs.Command.{everyone, data_fits, range_fits, label_fits, chip_fits, inventory_fits, valid};

use frame::uid::low_bits;
use request::chip::is_listed;
use request::label::{Family, Params, Target, most_bits, target_fits};
use request::table::{Row, Task, option_fits, row_of};

// What a chip is asked. A write's four bytes stand beside the command.
#[derive(Clone, Copy)]
pub enum ChipTask {
    Initiate,
    Pcall,
    Marker(u8),
    Select(u8),
    Completion,
    Reset,
    Read(u8),
    Uid,
    Write(u8),
}

// Each command carries its own target; where that is one UID, the UID's bytes stand beside the command. The bool is Option.
#[derive(Clone, Copy)]
pub enum Command {
    // Family, whether sixteen slots, mask length, mask.
    Inventory(Target, bool, Family, bool, u8, u64),
    // A task and its parameters, as far as it has them. A write's bytes stand beside the command.
    Label(Target, bool, Task, Params),
    Chip(Target, bool, ChipTask),
    // A kind or code that is none of these.
    Other(u8, u8),
}

pub fn is_everyone(to: Target) -> bool
    ensures { result ≡ everyone to }
{
    matches!(to, Target::Everyone)
}

// Whether so many bytes of data are right for a task: a block's are 1 to 32, and no others are looked at.
fn data_fits(row: Row, n: usize) -> bool
    ensures { result ≡ data_fits row n }
{
    !row.block || 1 <= n && n <= 32
}

// Whether the blocks that two parameters name have numbers: a first one, and so many more.
fn range_fits(row: Row, p: Params) -> bool
    ensures { result ≡ range_fits row p }
{
    row.len < 6 || p.first as u32 + p.second as u32 <= 255
}

#[tactic(auto, unfolding(crate::specs::Command::label_fits))]
fn label_fits(to: Target, option: bool, task: Task, p: Params, n: usize) -> bool
    ensures { result ≡ label_fits to option task p n }
{
    let row = row_of(task);
    option_fits(row, option) && target_fits(row, to) && data_fits(row, n) && range_fits(row, p)
}

// Whether a chip can be sent a task and so many bytes: slots are 1 to 15, addresses listed, and a write has four bytes.
#[tactic(auto, unfolding(crate::specs::Command::chip_fits))]
fn task_fits(task: ChipTask, n: usize) -> bool
    ensures { result ≡ chip_fits task n }
{
    match task {
        ChipTask::Marker(s) => 1 <= s && s <= 15,
        ChipTask::Read(a) => is_listed(a),
        ChipTask::Write(a) => n == 4 && is_listed(a),
        _ => true,
    }
}

// A chip command is for everyone, without Option.
fn chip_fits(to: Target, option: bool, task: ChipTask, n: usize) -> bool
    ensures { result ≡ not option && (everyone to && chip_fits task n) }
{
    !option && is_everyone(to) && task_fits(task, n)
}

// Whether a mask is no longer than allowed and has no bits above its length.
#[tactic(auto, unfolding(crate::specs::Command::inventory_fits), using(crate::proofs::CommandWays::mask_kept))]
fn mask_fits(sixteen: bool, bits: u8, mask: u64) -> bool
    ensures { result ≡ inventory_fits sixteen bits mask }
{
    bits <= most_bits(sixteen) && low_bits(mask, bits as u32) == mask
}

// An Inventory is for everyone, without Option.
fn inventory_fits(to: Target, option: bool, sixteen: bool, bits: u8, mask: u64) -> bool
    ensures { result ≡ not option && (everyone to && inventory_fits sixteen bits mask) }
{
    !option && is_everyone(to) && mask_fits(sixteen, bits, mask)
}

// Whether there is a request with these fields, and n bytes of data beside it.
#[tactic(auto, unfolding(crate::specs::Command::valid))]
pub fn is_valid(c: Command, n: usize) -> bool
    ensures { result ≡ valid c n }
{
    match c {
        Command::Inventory(to, option, _, sixteen, bits, mask) => {
            inventory_fits(to, option, sixteen, bits, mask)
        }
        Command::Label(to, option, task, p) => label_fits(to, option, task, p, n),
        Command::Chip(to, option, task) => chip_fits(to, option, task, n),
        Command::Other(_, _) => false,
    }
}
