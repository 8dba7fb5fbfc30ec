// Events and walks as calls: their numbers, and whether a lent buffer was written to.
use event::call::{Report, event};
use frame::number::byte_at;
use frame::uid::uid_at;
use inventory::walk::{Walked, walk};
use print::say::{print_uid, say, say_number};
use request::label::Family;

// The most room that is tried for an answer.
const ROOM: usize = 8480;

// Says so where a buffer has not the byte EE everywhere.
fn stays(rt: &HostRuntime, out: &[u8]) {
    if out.iter().any(|b| *b != 0xEE) {
        say(rt, b", buffer changed");
    }
}

fn print_report(rt: &HostRuntime, r: Report) {
    say_number(rt, b"number ", r.number as u64);
    say_number(rt, b", answered ", r.answered as u64);
    say_number(rt, b", length ", r.length as u64);
}

// An event, with nothing promised of it: its contract would weigh on the check of every caller.
pub fn play(number: u8, frame: &[u8], tags: &mut [u8], draws: &[u8], answer: &mut [u8]) -> Report {
    event(tags, number, frame, draws, answer)
}

fn play_into(rt: &HostRuntime, number: u8, tags: &mut [u8], draws: &[u8], answer: &mut [u8]) {
    print_report(rt, play(number, b"", tags, draws, answer));
    stays(rt, answer);
}

pub fn try_event(rt: &HostRuntime, bytes: &[u8], tags: &mut [u8]) {
    let n = byte_at(bytes, 1) as usize;
    let room = byte_at(bytes, 2) as usize * 256 + byte_at(bytes, 3) as usize;
    if 8 < n || ROOM < room {
        return;
    }
    let draws = [0u8; 8];
    let mut answer = [0xEEu8; ROOM];
    play_into(
        rt,
        byte_at(bytes, 0),
        tags,
        &draws[0..n],
        &mut answer[0..room],
    );
}

fn print_walked(rt: &HostRuntime, w: Walked) {
    say_number(rt, b"number ", w.number as u64);
    say_number(rt, b", labels ", w.labels as u64);
    say_number(rt, b", rounds ", w.rounds as u64);
}

// A walk, with nothing promised of it, for the same reason.
fn walked(tags: &mut [u8], family: Family, list: &mut [u8]) -> Walked {
    walk(tags, family, list)
}

fn walk_into(rt: &HostRuntime, tags: &mut [u8], list: &mut [u8]) {
    print_walked(rt, walked(tags, Family::Any, list));
    stays(rt, list);
}

pub fn into(rt: &HostRuntime, bytes: &[u8], tags: &mut [u8]) {
    let room = byte_at(bytes, 0) as usize;
    if 32 < room {
        return;
    }
    let mut list = [0xEEu8; 32];
    walk_into(rt, tags, &mut list[0..room]);
}

// The family that a byte names, or any where there is none.
fn family_of(bytes: &[u8]) -> Family {
    match bytes.first() {
        Some(afi) => Family::Only(*afi),
        None => Family::Any,
    }
}

// The UIDs of the first n labels of a list, high byte first, a space before each.
fn print_uids(rt: &HostRuntime, list: &[u8], n: usize) {
    for uid in list.chunks_exact(8).take(n) {
        say(rt, b" ");
        print_uid(rt, uid_at(uid, 0));
    }
}

// The rounds and the labels of a walk, or its refusal.
fn print_list(rt: &HostRuntime, w: Walked, list: &[u8]) {
    if w.number != 0 {
        say_number(rt, b"refused ", w.number as u64);
        return;
    }
    say_number(rt, b"rounds ", w.rounds as u64);
    say_number(rt, b" labels ", w.labels as u64);
    print_uids(rt, list, w.labels);
}

pub fn walk_all(rt: &HostRuntime, bytes: &[u8], tags: &mut [u8]) {
    let mut list = [0u8; 512];
    let w = walked(tags, family_of(bytes), &mut list);
    print_list(rt, w, &list);
}
