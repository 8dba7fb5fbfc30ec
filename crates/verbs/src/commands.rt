// A command from its word and what stands behind it.
ghost use Rattle.std.specs.Prelude.{◌≡◌};
ghost use Rattle.verbs.specs.Commands.{asks, closed, opened, label_asked, lock_asked, last_from, read_to, read_asked, status_to, status_asked};
ghost use Rattle.verbs.specs.Commands.{tail_asked, block_of, block_asked, field_of, field_asked};
ghost use Rattle.verbs.specs.Commands.{chip_asked, select_asked, counted_by, counted_asked, inventory_end, mask_of, mask_asked, family_of, family_asked};
ghost use Rattle.verbs.specs.Commands.{inventory_asked, verb_asked, line_asked};

use crate::pieces::{Aim, Found, Mask};
use crate::tokens::Rest;
use crate::trouble::{Trouble, What, expected};
use crate::verb::{Counted, Tail, Verb, verb_of};
use reader::command::{ChipTask, Command};
use request::label::{Family, Params, Target};
use request::table::Task;

// What a line asks: a command, the UID of its target, and the place of the line where the bytes that it sends start, which is the line's end where it
// sends none.
#[derive(Clone, Copy)]
pub struct Asked {
    pub command: Command,
    pub uid: [u8; 8],
    pub at: usize,
}

impl Aim {
    // A task for this target, with Option or without.
    #[tactic(auto, unfolding(crate::specs::Commands::asks))]
    fn asks(self, option: bool, task: Task, first: u8, second: u8) -> Command
        ensures { result ≡ asks self option task first second }
    {
        Command::Label(self.to, option, task, Params { first, second })
    }
}

// A command at whose end a line must end.
#[tactic(auto, unfolding(crate::specs::Commands::closed))]
fn close(rest: Rest, what: What, command: Command, uid: [u8; 8]) -> Result<Asked, Trouble>
    ensures { result ≡ closed rest.entry.line.now rest.entry.at what command uid }
{
    rest.ended(what)?;
    Ok(Asked {
        command,
        uid,
        at: rest.line.len(),
    })
}

// A command behind which bytes must stand.
#[tactic(auto, unfolding(crate::specs::Commands::opened))]
fn open(rest: Rest, command: Command, uid: [u8; 8]) -> Result<Asked, Trouble>
    ensures { result ≡ opened rest.entry.line.now rest.entry.at command uid }
{
    let w = rest.word();
    if w.is_empty() {
        return Err(expected(w.from, What::Data));
    }
    Ok(Asked {
        command,
        uid,
        at: w.from,
    })
}

// A task for a target.
#[tactic(auto, unfolding(crate::specs::Commands::label_asked))]
fn label(rest: Rest, what: What, task: Task) -> Result<Asked, Trouble>
    ensures { result ≡ label_asked rest.entry.line.now rest.entry.at what task }
{
    let t = rest.target();
    let aim = t.wanted(what)?;
    close(
        rest.behind(t.word),
        What::End,
        aim.asks(false, task, 0, 0),
        aim.uid,
    )
}

// `lock` asks for Option; where something else stands, `what` should.
#[tactic(auto, unfolding(crate::specs::Commands::lock_asked))]
fn locked(
    rest: Rest,
    what: What,
    task: Task,
    aim: Aim,
    first: u8,
    second: u8,
) -> Result<Asked, Trouble>
    ensures { result ≡ lock_asked rest.entry.line.now rest.entry.at what task aim first second }
{
    if rest.next_is(b"lock") {
        return close(
            rest.next(),
            What::End,
            aim.asks(true, task, first, second),
            aim.uid,
        );
    }
    close(rest, what, aim.asks(false, task, first, second), aim.uid)
}

// A last block, no lower than the first: how many there are behind that.
#[tactic(auto, unfolding(crate::specs::Commands::last_from))]
fn last_from(rest: Rest, first: u8) -> Found<u8>
    ensures { result ≡ last_from rest.entry.line.now rest.entry.at first }
{
    let n = rest.number();
    Found {
        value: n.value.and_then(|last| last.checked_sub(first)),
        word: n.word,
    }
}

// Blocks are read up to a last one.
#[tactic(auto, unfolding(crate::specs::Commands::read_to))]
fn read_to(rest: Rest, aim: Aim, first: u8) -> Result<Asked, Trouble>
    ensures { result ≡ read_to rest.entry.line.now rest.entry.at aim first }
{
    let n = last_from(rest, first);
    let more = n.wanted(What::Last)?;
    locked(
        rest.behind(n.word),
        What::LockOrEnd,
        Task::ReadMany,
        aim,
        first,
        more,
    )
}

// A block is read, or with `to` several.
#[tactic(auto, unfolding(crate::specs::Commands::read_asked))]
fn read(rest: Rest, aim: Aim, first: u8) -> Result<Asked, Trouble>
    ensures { result ≡ read_asked rest.entry.line.now rest.entry.at aim first }
{
    if rest.next_is(b"to") {
        return read_to(rest.next(), aim, first);
    }
    locked(rest, What::ToLockOrEnd, Task::Read, aim, first, 0)
}

// The locks of blocks up to a last one.
#[tactic(auto, unfolding(crate::specs::Commands::status_to))]
fn status_to(rest: Rest, aim: Aim, first: u8) -> Result<Asked, Trouble>
    ensures { result ≡ status_to rest.entry.line.now rest.entry.at aim first }
{
    let n = last_from(rest, first);
    let more = n.wanted(What::Last)?;
    close(
        rest.behind(n.word),
        What::End,
        aim.asks(false, Task::Status, first, more),
        aim.uid,
    )
}

// The lock of a block, or with `to` of several.
#[tactic(auto, unfolding(crate::specs::Commands::status_asked))]
fn status(rest: Rest, aim: Aim, first: u8) -> Result<Asked, Trouble>
    ensures { result ≡ status_asked rest.entry.line.now rest.entry.at aim first }
{
    if rest.next_is(b"to") {
        return status_to(rest.next(), aim, first);
    }
    close(
        rest,
        What::ToOrEnd,
        aim.asks(false, Task::Status, first, 0),
        aim.uid,
    )
}

// A block's task from behind its number on.
#[tactic(auto, unfolding(crate::specs::Commands::tail_asked))]
fn tail(rest: Rest, behind: Tail, task: Task, aim: Aim, block: u8) -> Result<Asked, Trouble>
    ensures { result ≡ tail_asked behind rest.entry.line.now rest.entry.at task aim block }
{
    match behind {
        Tail::Nothing => close(rest, What::End, aim.asks(false, task, block, 0), aim.uid),
        Tail::Read => read(rest, aim, block),
        Tail::Status => status(rest, aim, block),
        Tail::Data => open(rest, aim.asks(false, task, block, 0), aim.uid),
    }
}

#[tactic(auto, unfolding(crate::specs::Commands::block_of))]
fn block_of(rest: Rest, task: Task, behind: Tail, aim: Aim) -> Result<Asked, Trouble>
    ensures { result ≡ block_of rest.entry.line.now rest.entry.at task behind aim }
{
    let n = rest.number();
    let block = n.wanted(What::Number)?;
    tail(rest.behind(n.word), behind, task, aim, block)
}

#[tactic(auto, unfolding(crate::specs::Commands::block_asked))]
fn block(rest: Rest, task: Task, behind: Tail) -> Result<Asked, Trouble>
    ensures { result ≡ block_asked rest.entry.line.now rest.entry.at task behind }
{
    let t = rest.target();
    let aim = t.wanted(What::Target)?;
    block_of(rest.behind(t.word), task, behind, aim)
}

#[tactic(auto, unfolding(crate::specs::Commands::field_of))]
fn field_of(rest: Rest, write: Task, lock: Task, aim: Aim) -> Result<Asked, Trouble>
    ensures { result ≡ field_of rest.entry.line.now rest.entry.at write lock aim }
{
    let b = rest.byte();
    if let Some(byte) = b.value {
        return close(
            rest.behind(b.word),
            What::End,
            aim.asks(false, write, byte, 0),
            aim.uid,
        );
    }
    if rest.next_is(b"lock") {
        return close(
            rest.behind(b.word),
            What::End,
            aim.asks(false, lock, 0, 0),
            aim.uid,
        );
    }
    Err(expected(b.word.from, What::ByteOrLock))
}

#[tactic(auto, unfolding(crate::specs::Commands::field_asked))]
fn field(rest: Rest, write: Task, lock: Task) -> Result<Asked, Trouble>
    ensures { result ≡ field_asked rest.entry.line.now rest.entry.at write lock }
{
    let t = rest.target();
    let aim = t.wanted(What::Target)?;
    field_of(rest.behind(t.word), write, lock, aim)
}

// A chip's task, at whose end the line must end.
#[tactic(auto, unfolding(crate::specs::Commands::chip_asked))]
fn chip(rest: Rest, task: ChipTask) -> Result<Asked, Trouble>
    ensures { result ≡ chip_asked rest.entry.line.now rest.entry.at task }
{
    close(
        rest,
        What::End,
        Command::Chip(Target::Everyone, false, task),
        [0u8; 8],
    )
}

// One byte is a chip's, anything else a label's target.
#[tactic(auto, unfolding(crate::specs::Commands::select_asked))]
fn select(rest: Rest) -> Result<Asked, Trouble>
    ensures { result ≡ select_asked rest.entry.line.now rest.entry.at }
{
    let b = rest.byte();
    match b.value {
        Some(id) => chip(rest.behind(b.word), ChipTask::Select(id)),
        None => label(rest, What::Selected, Task::Select),
    }
}

#[tactic(auto, unfolding(crate::specs::Commands::counted_by))]
fn counted(kind: Counted, rest: Rest, n: u8) -> Result<Asked, Trouble>
    ensures { result ≡ counted_by kind rest.entry.line.now rest.entry.at n }
{
    match kind {
        Counted::Slot => chip(rest, ChipTask::Marker(n)),
        Counted::Get => chip(rest, ChipTask::Read(n)),
        Counted::Put => open(
            rest,
            Command::Chip(Target::Everyone, false, ChipTask::Write(n)),
            [0u8; 8],
        ),
    }
}

#[tactic(auto, unfolding(crate::specs::Commands::counted_asked))]
fn number(rest: Rest, kind: Counted) -> Result<Asked, Trouble>
    ensures { result ≡ counted_asked rest.entry.line.now rest.entry.at kind }
{
    let n = rest.number();
    let count = n.wanted(What::Number)?;
    counted(kind, rest.behind(n.word), count)
}

#[tactic(auto, unfolding(crate::specs::Commands::inventory_end))]
fn inventory_end(
    rest: Rest,
    what: What,
    family: Family,
    sixteen: bool,
    mask: Mask,
) -> Result<Asked, Trouble>
    ensures { result ≡ inventory_end rest.entry.line.now rest.entry.at what family sixteen mask }
{
    close(
        rest,
        what,
        Command::Inventory(
            Target::Everyone,
            false,
            family,
            sixteen,
            mask.bits,
            mask.number,
        ),
        [0u8; 8],
    )
}

#[tactic(auto, unfolding(crate::specs::Commands::mask_of))]
fn mask_of(rest: Rest, family: Family, sixteen: bool) -> Result<Asked, Trouble>
    ensures { result ≡ mask_of rest.entry.line.now rest.entry.at family sixteen }
{
    let m = rest.mask();
    let mask = m.wanted(What::Mask)?;
    inventory_end(rest.behind(m.word), What::End, family, sixteen, mask)
}

#[tactic(auto, unfolding(crate::specs::Commands::mask_asked))]
fn mask(rest: Rest, family: Family, sixteen: bool) -> Result<Asked, Trouble>
    ensures { result ≡ mask_asked rest.entry.line.now rest.entry.at family sixteen }
{
    if rest.next_is(b"mask") {
        return mask_of(rest.next(), family, sixteen);
    }
    inventory_end(
        rest,
        What::Options,
        family,
        sixteen,
        Mask { bits: 0, number: 0 },
    )
}

#[tactic(auto, unfolding(crate::specs::Commands::family_of))]
fn family_of(rest: Rest, sixteen: bool) -> Result<Asked, Trouble>
    ensures { result ≡ family_of rest.entry.line.now rest.entry.at sixteen }
{
    let b = rest.byte();
    let only = b.wanted(What::Byte)?;
    mask(rest.behind(b.word), Family::Only(only), sixteen)
}

#[tactic(auto, unfolding(crate::specs::Commands::family_asked))]
fn family(rest: Rest, sixteen: bool) -> Result<Asked, Trouble>
    ensures { result ≡ family_asked rest.entry.line.now rest.entry.at sixteen }
{
    if rest.next_is(b"afi") {
        return family_of(rest.next(), sixteen);
    }
    mask(rest, Family::Any, sixteen)
}

#[tactic(auto, unfolding(crate::specs::Commands::inventory_asked))]
fn inventory(rest: Rest) -> Result<Asked, Trouble>
    ensures { result ≡ inventory_asked rest.entry.line.now rest.entry.at }
{
    if rest.next_is(b"16") {
        return family(rest.next(), true);
    }
    family(rest, false)
}

// What stands behind a verb, whose word starts at a place.
#[tactic(auto, unfolding(crate::specs::Commands::verb_asked))]
fn verb_asked(verb: Verb, from: usize, rest: Rest) -> Result<Asked, Trouble>
    ensures { result ≡ verb_asked verb rest.entry.line.now from rest.entry.at }
{
    match verb {
        Verb::Inventory => inventory(rest),
        Verb::Chip(task) => chip(rest, task),
        Verb::Number(kind) => number(rest, kind),
        Verb::Select => select(rest),
        Verb::Label(task) => label(rest, What::Target, task),
        Verb::Block(task, behind) => block(rest, task, behind),
        Verb::Field(write, lock) => field(rest, write, lock),
        Verb::Unknown => Err(expected(from, What::Event)),
    }
}

// What a line asks by its first word and what stands behind it.
#[tactic(auto, unfolding(crate::specs::Commands::line_asked))]
pub fn asked_in(line: &[u8]) -> Result<Asked, Trouble>
    ensures { result ≡ line_asked line.now }
{
    let rest = Rest { line, at: 0 };
    let w = rest.word();
    verb_asked(verb_of(rest.text(w)), w.from, rest.behind(w))
}
