// The walk: a round, and then each collided slot carried through.
ghost use Rattle.std.specs.Prelude.{◌≡◌, ◌+◌, ◌≤◌, ◌<◌, ◌^◌, length, MatchResult};
ghost use Rattle.std.proofs.lemmas.List.Edits.{sets};
ghost use Rattle.frame.specs.Refusal.{refusal_number};
ghost use Rattle.inventory.specs.Walk.{depth, refusal_of, uids};
ghost use Rattle.inventory.specs.Numbers.{slotted, singles, list_of, rounds_of};
ghost use Rattle.inventory.specs.Promise.{flat, Reply};

use crate::clear::clear_rack;
use crate::round::{Listed, leading, play_round};
use crate::taking::Uids;
use crate::twins::has_twins;
use frame::refusal::Refusal;
use rack::whole::Rack;
use request::label::Family;

// What a walk comes back with: the refusal's number or 0, how many labels the list holds, how many rounds it took. C gets it as it stands.
#[repr(C)]
#[derive(Clone, Copy)]
pub struct Walked {
    pub number: u8,
    pub labels: usize,
    pub rounds: usize,
}

// What carrying a branch through comes back with: where the list goes on, how many rounds it took.
#[derive(Clone, Copy)]
struct Went {
    cursor: usize,
    rounds: usize,
}

// A round on the list from a place on; only it holds the two together. Gives where the list goes on.
fn round_from(us: &mut [u64], bits: u8, list: &mut [u8], cursor: usize) -> usize
    requires { cursor + length (flat (singles bits us.old)) ≤ length list.old }
    ensures us_after { us.new ≡ slotted bits us.old }
    ensures value { result ≡ cursor + length (flat (singles bits us.old)) }
    ensures list_after { list.new ≡ sets list.old cursor (flat (singles bits us.old)) }
{
    let mut to = Listed {
        bytes: list,
        at: cursor,
    };
    play_round(us, bits, &mut to);
    to.at
}

// Carries a branch through: a round, and then each slot with a collision. 64 less the mask length falls; at 60 bits the round is the last.
// After the round the UIDs stand slot by slot, so that a slot's are a part of them.
fn carry(us: &mut [u64], bits: u8, list: &mut [u8], cursor: usize) -> Went
    requires room { cursor + length (flat (list_of (depth bits) bits us.old)) ≤ length list.old }
    requires few { rounds_of (depth bits) bits us.old < 2 ^ 64 }
    requires mask { bits ≤ 60 }
    ensures list { list.new ≡ sets list.old cursor (flat (list_of (depth bits) bits us.old)) }
    ensures cursor { result.cursor ≡ cursor + length (flat (list_of (depth bits) bits us.old)) }
    ensures rounds { result.rounds ≡ rounds_of (depth bits) bits us.old }
{
    let mut at = round_from(us, bits, list, cursor);
    let mut rounds: usize = 1;
    if 56 < bits {
        return Went { cursor: at, rounds };
    }
    // No index: a group is cut off at each turn.
    let mut rest = us;
    while !rest.is_empty() {
        let h = leading(rest, bits);
        let (group, behind) = rest.split_at_mut(h);
        if 1 < group.len() {
            let went = carry(group, bits + 4, list, at);
            at = went.cursor;
            rounds += went.rounds;
        }
        rest = behind;
    }
    Went { cursor: at, rounds }
}

// Before the first round: the refusal that applies, or else the UIDs of the labels that the family lets answer.
// Twins are sought among all labels that take part, whatever the family.
#[tactic(auto, using(crate::proofs::WalkCalls::begins))]
fn begin(file: &[u8], family: Family, room: usize, us: &mut Uids) -> Result<(), Refusal>
    ensures { MatchResult result (λ _. (refusal_of file.now room ≡ 0) × (us.new ≡ uids family file.now))
        (λ refusal. refusal_number refusal ≡ refusal_of file.now room) }
{
    let rack = Rack::judged(file).map_err(|_| Refusal::Rack)?;
    if room < 8 * rack.count() {
        return Err(Refusal::List);
    }
    us.collect(&rack, Family::Any);
    if has_twins(us.as_slice()) {
        return Err(Refusal::Twins);
    }
    us.narrow(&rack, family);
    Ok(())
}

// Walks a rack: lists every label in state 1 or 3 that the family lets answer.
pub fn walk(rack: &mut [u8], family: Family, list: &mut [u8]) -> Walked
    ensures { Reply family rack.old rack.new list.old list.new result }
{
    let mut us = Uids::new();
    if let Err(refusal) = begin(rack, family, list.len(), &mut us) {
        return Walked {
            number: refusal.number(),
            labels: 0,
            rounds: 0,
        };
    }
    clear_rack(rack);
    let went = carry(us.as_mut_slice(), 0, list, 0);
    Walked {
        number: 0,
        labels: went.cursor / 8,
        rounds: went.rounds,
    }
}
