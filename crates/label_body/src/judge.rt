// The rules of a label's body.
ghost use Rattle.std.specs.Prelude.{◌≡◌, ◌≤◌, length};
ghost use Rattle.frame.specs.Judge.{first_of, byte_verdict};
ghost use Rattle.label_body.specs.Body.{wanted_of, head_rules, bits_rules, slot_rules, over, mask_verdict, label_rules};

use crate::locks::{judge_locks, lock_room};
use frame::uid::{eight_at, high_bits, pow2};
use frame::verdict::{Rule, Verdict, bad, judge_bytes};

// The length that the numbers inside a body ask for.
fn wanted(b: &[u8]) -> usize
    requires { 32 ≤ length b.now }
    ensures { result ≡ wanted_of b.now }
{
    let room = lock_room(b);
    let blocks = b[11] as usize + 1;
    let size = b[12] as usize + 1;
    32 + room + blocks * size
}

// Locks, numbers of blocks and bytes, state.
#[tactic(auto, unfolding(crate::specs::Body::head_rules))]
fn judge_head(b: &[u8]) -> Verdict
    requires { 32 ≤ length b.now }
    ensures { result ≡ head_rules b.now }
{
    if 3 < b[10] {
        return bad(Rule::Body, 10);
    }
    if b.len() != wanted(b) {
        return bad(Rule::Body, 11);
    }
    if 31 < b[12] {
        return bad(Rule::Body, 12);
    }
    if 3 < b[14] {
        return bad(Rule::Body, 14);
    }
    Ok(())
}

// The mask length of a running slot sequence.
#[tactic(auto, unfolding(crate::specs::Body::bits_rules))]
fn judge_bits(b: &[u8]) -> Verdict
    requires { 32 ≤ length b.now }
    ensures { result ≡ bits_rules b.now }
{
    if 60 < b[16] {
        return bad(Rule::Body, 16);
    }
    Ok(())
}

// Slot and mask length.
#[tactic(auto, unfolding(crate::specs::Body::slot_rules))]
fn judge_slot(b: &[u8]) -> Verdict
    requires { 32 ≤ length b.now }
    ensures { result ≡ slot_rules b.now }
{
    match b[15] {
        255 if b[16] != 0 => bad(Rule::Body, 16),
        255 => Ok(()),
        slot if 15 < slot || !matches!(b[14], 1 | 3) => bad(Rule::Body, 15),
        _ => judge_bits(b),
    }
}

// Whether byte j of the mask has a bit above the mask's length.
#[tactic(auto, using(crate::proofs::BodyJudged::over_all), unfolding(crate::specs::Body::over))]
fn is_over(b: &[u8], j: usize) -> bool
    requires { (32 ≤ length b.now) × (j ≤ 7) }
    ensures { result ≡ over b.now j }
{
    let room = (b[16] as usize).saturating_sub(8 * j);
    room < 8 && pow2(room as u32) <= b[17 + j] as u64
}

// The first byte of the mask with a bit above its length.
#[tactic(auto, using(frame::proofs::Judge::first_none, crate::proofs::BodyJudged::mask_bad, crate::proofs::BodyJudged::mask_fine))]
fn seek_over(b: &[u8]) -> Verdict
    requires { 32 ≤ length b.now }
    ensures { result ≡ first_of 8 (mask_verdict b.now) }
{
    for j in 0..8 {
        if is_over(b, j) {
            return bad(Rule::Body, 17 + j);
        }
    }
    Ok(())
}

// The mask against its length, as one number; only where it is too large is the byte looked for.
fn judge_mask(b: &[u8]) -> Verdict
    requires { 32 ≤ length b.now }
    ensures { result ≡ first_of 8 (mask_verdict b.now) }
{
    let mask = eight_at(b, 17);
    if high_bits(mask, b[16] as u32) == 0 {
        return Ok(());
    }
    seek_over(b)
}

// The seven bytes that are 0, behind the mask's last one as one number.
#[tactic(auto, using(crate::proofs::FactsFine::zeros_keep))]
fn judge_zeros(b: &[u8]) -> Verdict
    requires { 32 ≤ length b.now }
    ensures { result ≡ first_of 7 (byte_verdict b.now 25 0) }
{
    if high_bits(eight_at(b, 24), 8) == 0 {
        return Ok(());
    }
    judge_bytes(b, 25, 7, 0)
}

// The first offence of a body against the rules of labels.
#[tactic(auto, using(crate::proofs::BodyJudged::head_long), unfolding(crate::specs::Body::label_rules))]
pub fn judge_label(b: &[u8]) -> Verdict
    requires { 32 ≤ length b.now }
    ensures { result ≡ label_rules b.now }
{
    judge_head(b)?;
    judge_slot(b)?;
    judge_mask(b)?;
    judge_zeros(b)?;
    judge_locks(b)
}
