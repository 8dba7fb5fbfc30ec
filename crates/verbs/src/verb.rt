// The words of commands. Letters may be of either case, so the words are tested one by one: a `match` takes them only as they are written.
ghost use Rattle.std.specs.Prelude.{◌≡◌};
ghost use Rattle.verbs.specs.Verb.{chip_verb, piece_verb, label_verb, verb_of};

use reader::command::ChipTask;
use request::table::Task;
use text::words::same_word;

// What may follow a block's number. A value and no closure, as all that a word says here: `verb_of` is proved to give it, and a closure has no name there.
#[derive(Clone, Copy)]
pub enum Tail {
    Nothing,
    // The last of several blocks, and `lock`.
    Read,
    // The last of several blocks.
    Status,
    // The bytes to be written.
    Data,
}

// The chip's commands that take a number.
#[derive(Clone, Copy)]
pub enum Counted {
    Slot,
    Get,
    Put,
}

// What a command's word takes.
#[derive(Clone, Copy)]
pub enum Verb {
    // Sixteen slots, a family and a mask, each where it is given.
    Inventory,
    // Nothing: a chip's task.
    Chip(ChipTask),
    // A number; bytes behind it for `put`.
    Number(Counted),
    // A target, or a Chip_ID.
    Select,
    // A target.
    Label(Task),
    // A target and a block's number.
    Block(Task, Tail),
    // A target, and a byte that the first task writes or `lock`, which is the second.
    Field(Task, Task),
    Unknown,
}

#[tactic(auto, using(frame::proofs::Tests::ladder), unfolding(crate::specs::Verb::chip_verb))]
fn chip_verb(word: &[u8]) -> Verb
    ensures { result ≡ chip_verb word.now }
{
    if same_word(word, b"initiate") {
        return Verb::Chip(ChipTask::Initiate);
    }
    if same_word(word, b"pcall") {
        return Verb::Chip(ChipTask::Pcall);
    }
    if same_word(word, b"completion") {
        return Verb::Chip(ChipTask::Completion);
    }
    if same_word(word, b"reset") {
        return Verb::Chip(ChipTask::Reset);
    }
    if same_word(word, b"uid") {
        return Verb::Chip(ChipTask::Uid);
    }
    Verb::Unknown
}

#[tactic(auto, using(frame::proofs::Tests::ladder), unfolding(crate::specs::Verb::piece_verb))]
fn piece_verb(word: &[u8]) -> Verb
    ensures { result ≡ piece_verb word.now }
{
    if same_word(word, b"slot") {
        return Verb::Number(Counted::Slot);
    }
    if same_word(word, b"get") {
        return Verb::Number(Counted::Get);
    }
    if same_word(word, b"put") {
        return Verb::Number(Counted::Put);
    }
    if same_word(word, b"afi") {
        return Verb::Field(Task::WriteAfi, Task::LockAfi);
    }
    if same_word(word, b"dsfid") {
        return Verb::Field(Task::WriteDsfid, Task::LockDsfid);
    }
    chip_verb(word)
}

#[tactic(auto, using(frame::proofs::Tests::ladder), unfolding(crate::specs::Verb::label_verb))]
fn label_verb(word: &[u8]) -> Verb
    ensures { result ≡ label_verb word.now }
{
    if same_word(word, b"select") {
        return Verb::Select;
    }
    if same_word(word, b"ready") {
        return Verb::Label(Task::Ready);
    }
    if same_word(word, b"quiet") {
        return Verb::Label(Task::Quiet);
    }
    if same_word(word, b"info") {
        return Verb::Label(Task::Info);
    }
    piece_verb(word)
}

#[tactic(auto, using(frame::proofs::Tests::ladder), unfolding(crate::specs::Verb::verb_of))]
pub fn verb_of(word: &[u8]) -> Verb
    ensures { result ≡ verb_of word.now }
{
    if same_word(word, b"inventory") {
        return Verb::Inventory;
    }
    if same_word(word, b"read") {
        return Verb::Block(Task::Read, Tail::Read);
    }
    if same_word(word, b"write") {
        return Verb::Block(Task::Write, Tail::Data);
    }
    if same_word(word, b"lock") {
        return Verb::Block(Task::Lock, Tail::Nothing);
    }
    if same_word(word, b"status") {
        return Verb::Block(Task::Status, Tail::Status);
    }
    label_verb(word)
}
