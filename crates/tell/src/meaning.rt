// What an answer means, in words.
ghost use Rattle.std.specs.Prelude.{◌≡◌, length};
ghost use Rattle.frame.specs.Number.{part};
ghost use Rattle.print.specs.Line.{laid};
ghost use Rattle.print.specs.Seen.{seen};
ghost use Rattle.answer.specs.Answer.{Inside};
ghost use Rattle.tell.specs.Meanings.{writes_block, first_of, denied_words, error_words, error_text, shown_text, lock_text, lock_block_text, found_text};
ghost use Rattle.tell.specs.Meanings.{sizes_text, info_text, word_text, meant_text, meaning_text, answer_text};

use crate::command::{command_of, reading_of};
use crate::several::{Blocks, put_locked_blocks, put_locks, put_plain_blocks};
use answer::reading::{Meaning, Reading};
use print::line::Line;
use print::quote::is_printable;
use reader::command::Command;
use request::signal::Signal;
use request::table::row_of;

// The n bytes of s at a place, as far as it has them.
pub fn part_of(s: &[u8], at: usize, n: usize) -> &[u8]
    ensures { result.now ≡ part at n s.now }
{
    let rest = &s[at.min(s.len())..];
    &rest[..n.min(rest.len())]
}

// Whether a command writes a block.
#[tactic(auto, unfolding(crate::specs::Meanings::writes_block))]
fn writes_block(command: Command) -> bool
    ensures { result ≡ writes_block command }
{
    matches!(command, Command::Label(_, _, task, _) if row_of(task).block)
}

// The block that a command for labels asks for first.
#[tactic(auto, unfolding(crate::specs::Meanings::first_of))]
fn first_of(command: Command) -> u8
    ensures { result ≡ first_of command }
{
    match command {
        Command::Label(_, _, _, p) => p.first,
        _ => 0,
    }
}

// Error 12: of a block that is written, or of anything else.
#[tactic(auto, using(print::proofs::Lines::lines), unfolding(crate::specs::Meanings::denied_words))]
fn put_denied(line: &mut Line, writes: bool)
    ensures { seen line.new ≡ laid (seen line.old) (denied_words writes) }
{
    if writes {
        line.put(b": block is locked");
    } else {
        line.put(b": locked");
    }
}

// What an error says.
#[tactic(auto, using(print::proofs::Lines::lines), unfolding(crate::specs::Meanings::error_words))]
fn put_error_words(line: &mut Line, writes: bool, code: u8)
    ensures { seen line.new ≡ laid (seen line.old) (error_words writes code) }
{
    match code {
        0x01 => line.put(b": no such command"),
        0x02 => line.put(b": wrong length"),
        0x03 => line.put(b": Option not allowed"),
        0x10 => line.put(b": no such block"),
        0x11 => line.put(b": already locked"),
        0x12 => put_denied(line, writes),
        _ => {}
    }
}

#[tactic(auto, using(print::proofs::Lines::lines), unfolding(crate::specs::Meanings::error_text))]
fn put_error(line: &mut Line, writes: bool, code: u8)
    ensures { seen line.new ≡ laid (seen line.old) (error_text writes code) }
{
    line.word_byte(b"error ", code);
    put_error_words(line, writes, code);
}

// A lead and bytes as text, where every byte shows.
#[tactic(auto, using(print::proofs::Lines::lines), unfolding(crate::specs::Meanings::shown_text))]
fn put_shown(line: &mut Line, lead: &[u8], s: &[u8])
    ensures { seen line.new ≡ laid (seen line.old) (shown_text lead.now s.now) }
{
    if is_printable(s) {
        line.put(lead);
        line.quoted(s);
    }
}

#[tactic(auto, using(print::proofs::Lines::lines), unfolding(crate::specs::Meanings::lock_text))]
fn put_lock(line: &mut Line, lock: u8)
    ensures { seen line.new ≡ laid (seen line.old) (lock_text lock) }
{
    if lock == 0 {
        line.put(b"not locked");
    } else {
        line.put(b"locked");
    }
}

#[tactic(auto, using(print::proofs::Lines::lines), unfolding(crate::specs::Meanings::found_text))]
fn put_found(line: &mut Line, uid: [u8; 8], dsfid: u8)
    ensures { seen line.new ≡ laid (seen line.old) (found_text uid dsfid) }
{
    line.uid(uid);
    line.word_byte(b", DSFID ", dsfid);
}

// How many blocks of how many bytes; both are given less 1.
#[tactic(auto, using(print::proofs::Lines::lines), unfolding(crate::specs::Meanings::sizes_text))]
fn put_sizes(line: &mut Line, blocks: u8, size: u8)
    ensures { seen line.new ≡ laid (seen line.old) (sizes_text blocks size) }
{
    line.word_number(b", ", blocks as u64 + 1);
    line.word_number(b" blocks of ", size as u64 + 1);
}

#[tactic(auto, using(print::proofs::Lines::lines), unfolding(crate::specs::Meanings::info_text))]
fn put_info(line: &mut Line, uid: [u8; 8], dsfid: u8, afi: u8, blocks: u8, size: u8, ic: u8)
    ensures { seen line.new ≡ laid (seen line.old) (info_text uid dsfid afi blocks size ic) }
{
    put_found(line, uid, dsfid);
    line.word_byte(b", AFI ", afi);
    put_sizes(line, blocks, size);
    line.word_byte(b", IC ", ic);
}

// A chip's block: as a number, and as text where its bytes show.
#[tactic(auto, using(print::proofs::Lines::lines), unfolding(crate::specs::Meanings::word_text))]
fn put_chip_word(line: &mut Line, w: u32)
    ensures { seen line.new ≡ laid (seen line.old) (word_text w) }
{
    line.decimal(w as u64);
    put_shown(line, b", ", &w.to_le_bytes());
}

#[tactic(auto, using(print::proofs::Lines::lines), unfolding(crate::specs::Meanings::lock_block_text))]
fn put_lock_block(line: &mut Line, lock: u8, s: &[u8])
    ensures { seen line.new ≡ laid (seen line.old) (lock_block_text lock s.now) }
{
    put_lock(line, lock);
    put_shown(line, b", ", s);
}

// A meaning; `first` is the block that was asked for first.
#[tactic(auto, using(print::proofs::Lines::lines), unfolding(crate::specs::Meanings::meant_text))]
fn put_meant(line: &mut Line, writes: bool, first: u8, meaning: Meaning, uid: [u8; 8], frame: &[u8])
    requires { Inside meaning (length frame.now) }
    ensures { seen line.new ≡ laid (seen line.old) (meant_text writes first meaning uid frame.now) }
{
    match meaning {
        Meaning::Refused(_) => line.put(b"not an answer to this"),
        Meaning::Error(code) => put_error(line, writes, code),
        Meaning::Done => line.put(b"done"),
        Meaning::Found(dsfid) => put_found(line, uid, dsfid),
        Meaning::Block(place, n) => put_shown(line, b"", part_of(frame, place, n)),
        Meaning::LockAndBlock(lock, place, n) => {
            put_lock_block(line, lock, part_of(frame, place, n))
        }
        Meaning::Info(dsfid, afi, blocks, size, ic) => {
            put_info(line, uid, dsfid, afi, blocks, size, ic)
        }
        Meaning::Id(id) => line.word_byte(b"Chip_ID ", id),
        Meaning::Word(w) => put_chip_word(line, w),
        Meaning::Uid => line.uid(uid),
        Meaning::Blocks(place, long, count) => {
            let blocks = Blocks {
                frame,
                place,
                long,
                count,
            };
            put_plain_blocks(line, &blocks)
        }
        Meaning::LocksAndBlocks(place, long, count) => {
            let blocks = Blocks {
                frame,
                place,
                long,
                count,
            };
            put_locked_blocks(line, &blocks, first)
        }
        Meaning::Locks(place, count) => {
            let locks = Blocks {
                frame,
                place,
                long: 0,
                count,
            };
            put_locks(line, &locks, first)
        }
    }
}

// What the reading of a frame as an answer to a command means.
#[tactic(auto, using(print::proofs::Lines::lines), unfolding(crate::specs::Meanings::meaning_text))]
fn put_meaning(line: &mut Line, command: Command, reading: Reading, frame: &[u8])
    requires { Inside reading.meaning (length frame.now) }
    ensures { seen line.new ≡ laid (seen line.old) (meaning_text command reading frame.now) }
{
    let writes = writes_block(command);
    let first = first_of(command);
    put_meant(line, writes, first, reading.meaning, reading.uid, frame);
}

// What a frame means as an answer to event `number`.
#[tactic(auto, using(print::proofs::Lines::lines), unfolding(crate::specs::Meanings::answer_text))]
pub fn put_answer(line: &mut Line, number: u8, signal: Signal, frame: &[u8])
    ensures { seen line.new ≡ laid (seen line.old) (answer_text number signal frame.now) }
{
    let reading = reading_of(number, signal, frame);
    put_meaning(line, command_of(number, signal), reading, frame);
}
