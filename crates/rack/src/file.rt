// The rules of the rack file, judged in file order.
ghost use Rattle.std.specs.Prelude.{◌≡◌, ◌+◌, ◌≤◌, ◌<◌, length};
ghost use Rattle.frame.specs.Judge.{first_of};
ghost use Rattle.rack.specs.File.{count_of, entry_at, kind_at, length_at, offset_at, start_of, head_verdict, entry_verdict, body_verdict, end_verdict};
ghost use Rattle.rack.specs.File.{verdict_of};
ghost use Rattle.rack.specs.Facts.{HeadFine, EntryFine, EntriesFine, body_of};

use crate::tag::{Kind, fits, is_known, judge_tag};
use frame::number::{byte_at, number_at, word_at};
use frame::verdict::{Rule, Verdict, bad};

// The number of tags.
pub fn count(rack: &[u8]) -> usize
    requires { 2 ≤ length rack.now }
    ensures { result ≡ count_of rack.now }
{
    usize::from(rack[1])
}

// Where entry i stands; behind the last entry the first body starts.
pub fn entry_of(i: usize) -> usize
    requires { i ≤ 255 }
    ensures { result ≡ entry_at i }
{
    2 + 8 * i
}

// The kind of tag i, from its entry.
pub fn kind_of(rack: &[u8], i: usize) -> Kind
    requires { (i < 64) × (entry_at i + 8 ≤ length rack.now) }
    ensures { result ≡ kind_at rack.now i }
{
    Kind::from(byte_at(rack, entry_of(i)))
}

// The length of body i, from its entry. (It and the offset are one call each, by their names in the paper.)
pub fn length_of(rack: &[u8], i: usize) -> usize
    requires { (i < 64) × (entry_at i + 8 ≤ length rack.now) }
    ensures { (result ≡ length_at rack.now i) × (result < 65536) }
{
    number_at(rack, entry_of(i) + 2, 2) as usize
}

// The offset of body i, from its entry.
pub fn offset_of(rack: &[u8], i: usize) -> usize
    requires { (i < 64) × (entry_at i + 8 ≤ length rack.now) }
    ensures { result ≡ offset_at rack.now i }
{
    word_at(rack, entry_of(i) + 4) as usize
}

// The body of tag i, where its entry says that it lies.
#[tactic(auto, using(crate::proofs::FilePlaces::span_part))]
pub fn body_of(rack: &[u8], i: usize) -> &[u8]
    requires i_bound { (i < 64) × (entry_at i + 8 ≤ length rack.now) }
    requires i_in_bounds { offset_at rack.now i + length_at rack.now i ≤ length rack.now }
    ensures { result.now ≡ body_of rack.now i }
{
    let at = offset_of(rack, i);
    let end = at + length_of(rack, i);
    &rack[at..end]
}

#[tactic(auto, unfolding(crate::specs::File::head_verdict))]
fn judge_head(rack: &[u8]) -> Verdict
    ensures { result ≡ head_verdict rack.now }
{
    if rack.len() < 2 {
        return bad(Rule::Length, rack.len());
    }
    if rack[0] != 1 {
        return bad(Rule::Head, 0);
    }
    if 64 < rack[1] {
        return bad(Rule::Head, 1);
    }
    Ok(())
}

// Entry i; its body must start at a place.
#[tactic(auto, unfolding(crate::specs::File::entry_verdict))]
fn judge_entry(rack: &[u8], i: usize, at: usize) -> Verdict
    requires i_bound { (i < 64) × (at ≤ 65536) }
    requires at_value { at ≡ start_of rack.now i }
    ensures { result ≡ entry_verdict rack.now i }
{
    let entry = entry_of(i);
    if rack.len() < entry + 8 {
        return bad(Rule::Length, rack.len());
    }
    let kind = kind_of(rack, i);
    if !is_known(kind) {
        return bad(Rule::Entry, entry);
    }
    if rack[entry + 1] != 0 {
        return bad(Rule::Entry, entry + 1);
    }
    let len = length_of(rack, i);
    if !fits(kind, len) {
        return bad(Rule::Entry, entry + 2);
    }
    if 65536 < at + len {
        return bad(Rule::Entry, entry + 2);
    }
    if offset_of(rack, i) != at {
        return bad(Rule::Entry, entry + 4);
    }
    Ok(())
}

// Body i, where its entry says that it lies.
#[tactic(auto, using(crate::proofs::FileJudged::body_judged))]
fn judge_body(rack: &[u8], i: usize) -> Verdict
    requires entry_fine { EntryFine rack.now i }
    requires i_bound { i < 64 }
    ensures { result ≡ body_verdict rack.now i }
{
    let at = offset_of(rack, i);
    let end = at + length_of(rack, i);
    if rack.len() < end {
        return bad(Rule::Length, rack.len());
    }
    match judge_tag(kind_of(rack, i), &rack[at..end]) {
        Ok(()) => Ok(()),
        Err(o) => bad(o.rule, at + o.place),
    }
}

#[tactic(auto, using(crate::proofs::FileJudged::entries_judged))]
fn judge_entries(rack: &[u8]) -> Verdict
    requires { HeadFine rack.now }
    ensures { result ≡ first_of (count_of rack.now) (entry_verdict rack.now) }
{
    let n = count(rack);
    let mut at = entry_of(n);
    for i in 0..n {
        judge_entry(rack, i, at)?;
        at += length_of(rack, i);
    }
    Ok(())
}

// Apart from the entries: these need a running place, and a loop for both over a closure would be longer than the two.
#[tactic(auto, using(crate::proofs::FileJudged::bodies_judged))]
fn judge_bodies(rack: &[u8]) -> Verdict
    requires head_fine { HeadFine rack.now }
    requires entries_fine { EntriesFine rack.now }
    ensures { result ≡ first_of (count_of rack.now) (body_verdict rack.now) }
{
    for i in 0..count(rack) {
        judge_body(rack, i)?;
    }
    Ok(())
}

// Where the last body ends: the last entry says it, and without one the file ends behind its two bytes.
fn end_of(rack: &[u8]) -> usize
    requires head_fine { HeadFine rack.now }
    requires entries_fine { EntriesFine rack.now }
    ensures { result ≡ start_of rack.now (count_of rack.now) }
{
    let n = count(rack);
    if n == 0 {
        return 2;
    }
    offset_of(rack, n - 1) + length_of(rack, n - 1)
}

// Bytes after the last body.
#[tactic(auto, unfolding(crate::specs::File::end_verdict))]
fn judge_end(rack: &[u8]) -> Verdict
    requires head_fine { HeadFine rack.now }
    requires entries_fine { EntriesFine rack.now }
    ensures { result ≡ end_verdict rack.now }
{
    let end = end_of(rack);
    if end < rack.len() {
        return bad(Rule::Behind, end);
    }
    Ok(())
}

// The first offence of a rack file, or none where it is well-formed.
#[tactic(auto, using(crate::proofs::FileVerdict::head_fine), unfolding(crate::specs::File::verdict_of))]
pub fn judge(rack: &[u8]) -> Verdict
    ensures { result ≡ verdict_of rack.now }
{
    judge_head(rack)?;
    judge_entries(rack)?;
    judge_bodies(rack)?;
    judge_end(rack)
}
