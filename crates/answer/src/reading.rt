// The answer reader.
ghost use Rattle.std.specs.Prelude.{◌≡◌, ◌&&◌, eqb, leb, ◌+◌, ◌*◌, ◌≤◌, length, get_or};
ghost use Rattle.frame.specs.Choose.{all_of};
ghost use Rattle.reader.specs.declared.command.ChipTask.TheVariants.{Read, Uid};
ghost use Rattle.answer.specs.declared.reading.Meaning.TheVariants.{Id};
ghost use Rattle.answer.specs.Answer.{said, said_of, error_code, is_error, done_of, block_of, piece_of, blocks_of, locks_of, owned, info_of};
ghost use Rattle.answer.specs.Answer.{success_of, label_reading, found_of, chip_reading, shape_of, reading_of};
ghost use Rattle.answer.specs.Ways.{told, told_as, as_piece, sole};

use frame::check_sum::is_right;
use frame::number::{byte_at, word_at};
use frame::refusal::Refusal;
use frame::uid::{ends_in, same_uid, uid_at};
use reader::command::{ChipTask, Command, is_valid};
use request::label::{Params, Target, is_one};
use request::table::{Success, Task, has_answer, row_of};

// What an answer means. UIDs stand beside the meaning; of a block the place of its bytes in the frame and how many there are.
#[derive(Clone, Copy)]
pub enum Meaning {
    // 7, 8 or 9: a number, since C is told it as it stands and `reading_of` gives it.
    Refused(u8),
    // A label's own error.
    Error(u8),
    Done,
    // To an Inventory: the DSFID.
    Found(u8),
    Block(usize, usize),
    // With the lock byte before it.
    LockAndBlock(u8, usize, usize),
    // DSFID, AFI, blocks less 1, length less 1, IC reference.
    Info(u8, u8, u8, u8, u8),
    // A Chip_ID.
    Id(u8),
    // A chip's block.
    Word(u32),
    // A chip's UID.
    Uid,
    // Blocks one behind the other: the place of the first, the length of each, how many.
    Blocks(usize, usize, usize),
    // With its lock byte before each; the place is that of the first lock byte.
    LocksAndBlocks(usize, usize, usize),
    // Lock bytes: the place of the first, and how many.
    Locks(usize, usize),
}

#[derive(Clone, Copy)]
pub struct Reading {
    pub meaning: Meaning,
    pub uid: [u8; 8],
}

impl From<Result<Reading, Refusal>> for Reading {
    ghost from_gives = { λ read r. r ≡ told_as read };

    fn from(read: Result<Reading, Refusal>) -> Reading {
        match read {
            Ok(reading) => reading,
            Err(why) => plain(Meaning::Refused(why.number())),
        }
    }
}

// A meaning with no UID beside it.
fn plain(meaning: Meaning) -> Reading
    ensures { result ≡ said meaning }
{
    Reading {
        meaning,
        uid: [0; 8],
    }
}

// A meaning with a UID beside it.
fn with_uid(meaning: Meaning, uid: [u8; 8]) -> Reading
    ensures { result ≡ said_of meaning uid }
{
    Reading { meaning, uid }
}

// Whether a byte is an error's code.
#[tactic(auto, unfolding(crate::specs::Answer::error_code))]
fn is_code(code: u8) -> bool
    ensures { result ≡ error_code code }
{
    1 <= code && code <= 3 || 0x10 <= code && code <= 0x12
}

// Whether c, a frame's content without its check sum, is a label's error.
#[tactic(auto, unfolding(crate::specs::Answer::is_error))]
fn is_error(c: &[u8]) -> bool
    ensures { result ≡ is_error c.now }
{
    c.len() == 2 && c[0] == 1 && is_code(c[1])
}

#[tactic(auto, unfolding(crate::specs::Answer::done_of))]
fn done(c: &[u8]) -> Option<Reading>
    ensures { told result ≡ done_of c.now }
{
    if c.len() == 1 && c[0] == 0 {
        Some(plain(Meaning::Done))
    } else {
        None
    }
}

// 00, a lock byte if Option, a block of 1 to 32 bytes.
#[tactic(auto, unfolding(crate::specs::Answer::block_of))]
fn block(option: bool, c: &[u8]) -> Option<Reading>
    ensures { told result ≡ block_of option c.now }
{
    let front = if option { 2 } else { 1 };
    if c.len() <= front || front + 32 < c.len() || c[0] != 0 {
        return None;
    }
    let long = c.len() - front;
    if !option {
        return Some(plain(Meaning::Block(front, long)));
    }
    if 1 < c[1] {
        return None;
    }
    Some(plain(Meaning::LockAndBlock(c[1], front, long)))
}

// How many bytes each of count pieces of one length has, one behind the other behind 00.
#[tactic(auto, unfolding(crate::specs::Answer::piece_of))]
fn piece(count: usize, c: &[u8]) -> Option<usize>
    requires { 1 ≤ count }
    ensures { as_piece result ≡ piece_of count c.now }
{
    if c.len() < 1 || c[0] != 0 {
        return None;
    }
    let each = (c.len() - 1) / count;
    if c.len() != 1 + count * each {
        return None;
    }
    Some(each)
}

// Whether each of count pieces, of so many bytes, begins with a lock byte.
fn are_locks(each: usize, count: usize, c: &[u8]) -> bool
    requires { (1 ≤ each) × (1 + count * each ≤ length c.now) }
    ensures { result ≡ all_of count (λ i. leb (get_or c.now (1 + i * each) 0) 1) }
{
    for i in 0..count {
        if 1 < c[1 + i * each] {
            return false;
        }
    }
    true
}

// Blocks of 1 to 32 bytes, a lock byte before each if Option.
#[tactic(auto, unfolding(crate::specs::Answer::blocks_of), using(crate::proofs::AnswerPieces::piece_all))]
fn blocks(option: bool, count: usize, c: &[u8]) -> Option<Reading>
    requires { 1 ≤ count }
    ensures { told result ≡ blocks_of option count c.now }
{
    let each = piece(count, c)?;
    let front = if option { 1 } else { 0 };
    if each <= front || front + 32 < each {
        return None;
    }
    if !option {
        return Some(plain(Meaning::Blocks(1, each, count)));
    }
    if !are_locks(each, count, c) {
        return None;
    }
    Some(plain(Meaning::LocksAndBlocks(1, each - front, count)))
}

// Lock bytes alone.
#[tactic(auto, unfolding(crate::specs::Answer::locks_of), using(crate::proofs::AnswerPieces::piece_all))]
fn locks(count: usize, c: &[u8]) -> Option<Reading>
    requires { 1 ≤ count }
    ensures { told result ≡ locks_of count c.now }
{
    let each = piece(count, c)?;
    if each != 1 || !are_locks(1, count, c) {
        return None;
    }
    Some(plain(Meaning::Locks(1, count)))
}

// Whether a UID read is the target's, where the target is one UID.
fn owns(to: Target, uid: [u8; 8], u: [u8; 8]) -> bool
    ensures { result ≡ owned to uid u }
{
    !is_one(to) || same_uid(u, uid)
}

// Whether the bytes of a label's description are allowed: 00, 0F, length less 1, and whose it is.
fn info_fits(a: u8, b: u8, size: u8, own: bool) -> bool
    ensures { result ≡ eqb a 0 && (eqb b 0x0F && (leb size 31 && own)) }
{
    a == 0 && b == 0x0F && size <= 31 && own
}

#[tactic(auto, unfolding(crate::specs::Answer::info_of))]
fn info(to: Target, uid: [u8; 8], c: &[u8]) -> Option<Reading>
    ensures { told result ≡ info_of to uid c.now }
{
    if c.len() != 15 {
        return None;
    }
    let u = uid_at(c, 2);
    if !info_fits(c[0], c[1], c[13], owns(to, uid, u)) {
        return None;
    }
    Some(with_uid(Meaning::Info(c[10], c[11], c[12], c[13], c[14]), u))
}

// What c, which is no error, means where a success is of this kind; more is the count less 1 that was asked.
#[tactic(auto, unfolding(crate::specs::Answer::success_of))]
fn success_in(
    to: Target,
    option: bool,
    success: Success,
    more: u8,
    uid: [u8; 8],
    c: &[u8],
) -> Option<Reading>
    ensures { told result ≡ success_of to option success more uid c.now }
{
    let count = more as usize + 1;
    match success {
        Success::Never => None,
        Success::Done => done(c),
        Success::Block => block(option, c),
        Success::Info => info(to, uid, c),
        Success::Blocks => blocks(option, count, c),
        Success::Locks => locks(count, c),
    }
}

// An error that the task can answer with, or a success.
#[tactic(auto, unfolding(crate::specs::Answer::label_reading))]
fn label_reading(
    to: Target,
    option: bool,
    task: Task,
    p: Params,
    uid: [u8; 8],
    c: &[u8],
) -> Option<Reading>
    ensures { told result ≡ label_reading to option task p uid c.now }
{
    let success = row_of(task).success;
    if has_answer(success) && is_error(c) {
        return Some(plain(Meaning::Error(byte_at(c, 1))));
    }
    success_in(to, option, success, p.second, uid, c)
}

// 00, DSFID, a UID that ends in the mask sent. Never an error.
#[tactic(auto, unfolding(crate::specs::Answer::found_of))]
fn found(bits: u8, mask: u64, c: &[u8]) -> Option<Reading>
    ensures { told result ≡ found_of bits mask c.now }
{
    if c.len() != 10 || c[0] != 0 {
        return None;
    }
    let u = uid_at(c, 2);
    if !ends_in(u, mask, bits as u32) {
        return None;
    }
    Some(with_uid(Meaning::Found(c[1]), u))
}

// The one byte of c.
fn sole(c: &[u8]) -> Option<u8>
    ensures { result ≡ sole c.now }
{
    if c.len() == 1 { Some(c[0]) } else { None }
}

fn chip_id(id: u8) -> Reading
    ensures { result ≡ said (Id id) }
{
    plain(Meaning::Id(id))
}

// A chip's block.
#[tactic(auto, unfolding(crate::specs::Answer::chip_reading), using(crate::proofs::AnswerWays::all_there))]
fn word(c: &[u8]) -> Option<Reading>
    ensures { told result ≡ chip_reading (Read 0) c.now }
{
    if c.len() != 4 {
        return None;
    }
    Some(plain(Meaning::Word(word_at(c, 0))))
}

// A chip's UID.
#[tactic(auto, unfolding(crate::specs::Answer::chip_reading), using(crate::proofs::AnswerWays::all_there))]
fn chip_uid(c: &[u8]) -> Option<Reading>
    ensures { told result ≡ chip_reading Uid c.now }
{
    if c.len() != 8 {
        return None;
    }
    Some(with_uid(Meaning::Uid, uid_at(c, 0)))
}

// A Chip_ID, of four bits or whole the one asked for where one is; a block; a UID.
#[tactic(auto, unfolding(crate::specs::Answer::chip_reading))]
fn chip_reading(task: ChipTask, c: &[u8]) -> Option<Reading>
    ensures { told result ≡ chip_reading task c.now }
{
    match task {
        ChipTask::Initiate => sole(c).map(chip_id),
        ChipTask::Pcall => sole(c).filter(|id| *id % 16 == 0).map(chip_id),
        ChipTask::Marker(n) => sole(c).filter(|id| *id % 16 == n).map(chip_id),
        ChipTask::Select(asked) => sole(c).filter(|id| *id == asked).map(chip_id),
        ChipTask::Read(_) => word(c),
        ChipTask::Uid => chip_uid(c),
        ChipTask::Completion | ChipTask::Reset | ChipTask::Write(_) => None,
    }
}

// What a frame's bytes before its check sum mean to a command.
#[tactic(auto, unfolding(crate::specs::Answer::shape_of))]
fn shape(command: Command, uid: [u8; 8], c: &[u8]) -> Option<Reading>
    ensures { told result ≡ shape_of command uid c.now }
{
    match command {
        Command::Inventory(_, _, _, _, bits, mask) => found(bits, mask, c),
        Command::Label(to, option, task, p) => label_reading(to, option, task, p, uid, c),
        Command::Chip(_, _, task) => chip_reading(task, c),
        Command::Other(_, _) => None,
    }
}

// What frame means to a command, or why it means nothing.
#[tactic(auto, unfolding(crate::specs::Answer::reading_of))]
fn try_read(command: Command, uid: [u8; 8], n: usize, frame: &[u8]) -> Result<Reading, Refusal>
    ensures { told_as result ≡ reading_of command uid n frame.now }
{
    if !is_valid(command, n) {
        return Err(Refusal::Fields);
    }
    if frame.len() < 3 || !is_right(frame) {
        return Err(Refusal::Frame);
    }
    let m = frame.len() - 2;
    shape(command, uid, &frame[0..m]).ok_or(Refusal::Meaning)
}

// What frame means to a command, sent for uid where it is for one UID, with n bytes of data.
pub fn read_answer(command: Command, uid: [u8; 8], n: usize, frame: &[u8]) -> Reading
    ensures { result ≡ reading_of command uid n frame.now }
{
    Reading::from(try_read(command, uid, n, frame))
}
