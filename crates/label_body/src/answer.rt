// The frame of a label's answer.
ghost use Rattle.std.specs.Prelude.{◌≡◌, ◌∷◌, ◌+◌, ◌≤◌, length, get_or};
ghost use Rattle.std.proofs.lemmas.List.Edits.{sets};
ghost use Rattle.label_body.specs.Body.{Sized};
ghost use Rattle.label_body.specs.Answer.{speaks, block_bytes, blocks_bytes, answer_frame};
ghost use Rattle.frame.specs.CheckSum.{framed};
ghost use Rattle.label_body.specs.Facts.{AnswerFits};

use crate::body::block;
use crate::locks::{lock_on, lock_place};
use frame::check_sum::seal;
use frame::part::seal_part;
use frame::put::put_bytes;
use label::step::Answer;

// Whether there is an answer. (A chip's answers are another enum; a trait for the two would be longer than both.)
pub fn speaking(a: Answer) -> bool
    ensures { result ≡ speaks a }
{
    !matches!(a, Answer::Silent)
}

// 00, DSFID, UID.
fn say_found(b: &[u8], out: &mut [u8]) -> usize
    requires { (32 ≤ length b.now) × (12 ≤ length out.old) }
    ensures { (result ≡ 12) × (out.new ≡ sets out.old 0 (answer_frame Answer.Found b.now)) }
{
    out[0] = 0;
    out[1] = b[8];
    seal_part(out, 2, b, 0, 8)
}

// 00, 0F, UID, DSFID, AFI, blocks less 1, length less 1, IC reference.
fn say_info(b: &[u8], out: &mut [u8]) -> usize
    requires { (32 ≤ length b.now) × (17 ≤ length out.old) }
    ensures { (result ≡ 17) × (out.new ≡ sets out.old 0 (answer_frame Answer.Info b.now)) }
{
    out[0] = 0;
    out[1] = 0x0F;
    let n = put_bytes(out, 2, b, 10);
    seal_part(out, n, b, 11, 3)
}

// The lock of block n if it is asked for, and the block, from a place on; returns the place behind them.
fn lay_block(b: &[u8], n: u8, lock: bool, out: &mut [u8], at: usize) -> usize
    requires sized { Sized b.now × (n ≤ get_or b.now 11 0) }
    requires b_in_bounds { at + length (block_bytes n lock b.now) ≤ length out.old }
    ensures { (result ≡ at + length (block_bytes n lock b.now))
        × (out.new ≡ sets out.old at (block_bytes n lock b.now)) }
{
    let bytes = block(b, n);
    if lock {
        out[at] = lock_on(b, n);
        return put_bytes(out, at + 1, bytes, bytes.len());
    }
    put_bytes(out, at, bytes, bytes.len())
}

// 00, block n and so many more.
fn say_blocks(b: &[u8], n: u8, more: u8, lock: bool, out: &mut [u8]) -> usize
    requires sized { Sized b.now × (n + more ≤ get_or b.now 11 0) }
    requires b_in_bounds { length (framed (0 ∷ blocks_bytes n more lock b.now)) ≤ length out.old }
    ensures { (result ≡ length (framed (0 ∷ blocks_bytes n more lock b.now)))
        × (out.new ≡ sets out.old 0 (framed (0 ∷ blocks_bytes n more lock b.now))) }
{
    out[0] = 0;
    let mut at = 1;
    for i in 0..more as usize + 1 {
        at = lay_block(b, (n as usize + i) as u8, lock, out, at);
    }
    seal(out, at)
}

// 00, the locks of block n and of so many more.
fn say_locks(b: &[u8], n: u8, more: u8, out: &mut [u8]) -> usize
    requires sized { Sized b.now × (n + more ≤ get_or b.now 11 0) }
    requires b_in_bounds { length (answer_frame (Answer.Locks n more) b.now) ≤ length out.old }
    ensures { (result ≡ length (answer_frame (Answer.Locks n more) b.now))
        × (out.new ≡ sets out.old 0 (answer_frame (Answer.Locks n more) b.now)) }
{
    out[0] = 0;
    seal_part(out, 1, b, lock_place(n), more as usize + 1)
}

// Writes the frame of an answer to the front of out, and returns its length.
#[tactic(auto, using(crate::proofs::BodyRoom::sized_long, crate::proofs::AnswerLaid::found_length, crate::proofs::AnswerLaid::info_length, crate::proofs::AnswerLaid::error_room, crate::proofs::AnswerLaid::done_room, crate::proofs::AnswerLaid::found_room, crate::proofs::AnswerLaid::info_room, crate::proofs::AnswerLaid::one_block), unfolding(crate::specs::Answer::answer_frame, crate::specs::Facts::AnswerFits))]
pub fn write_answer(a: Answer, b: &[u8], out: &mut [u8]) -> usize
    requires sized { Sized b.now × AnswerFits a b.now }
    requires b_in_bounds { length (answer_frame a b.now) ≤ length out.old }
    ensures { (result ≡ length (answer_frame a b.now)) × (out.new ≡ sets out.old 0 (answer_frame a b.now)) }
{
    match a {
        Answer::Silent => 0,
        Answer::Error(code) => {
            out[0] = 1;
            out[1] = code;
            seal(out, 2)
        }
        Answer::Done => {
            out[0] = 0;
            seal(out, 1)
        }
        Answer::Found => say_found(b, out),
        Answer::Block(n, lock) => say_blocks(b, n, 0, lock, out),
        Answer::Info => say_info(b, out),
        Answer::Blocks(n, more) => say_blocks(b, n, more, false, out),
        Answer::LocksAndBlocks(n, more) => say_blocks(b, n, more, true, out),
        Answer::Locks(n, more) => say_locks(b, n, more, out),
    }
}
