// walk [--afi HH] [RACK]: walks a rack, of standard input where no file is named, with this AFI or none. Prints the rounds, then the UIDs; or what refuses it.
#![tactic(auto)]

mod asked;

ghost use Rattle.std.specs.Prelude.{◌≡◌, ◌*◌, ◌≤◌, length, IfSome};
ghost use Rattle.print.specs.Line.{lent, laid};
ghost use Rattle.print.specs.Seen.{seen};
ghost use Rattle.walk.specs.WalkText.{uid_lines, walk_text, printed};

use crate::asked::afi_in;
use frame::uid::uid_at;
use inventory::walk::{Walked, walk};
use print::fail::tell;
use print::line::Line;
use print::say::say;
use request::label::Family;
use text::args::{count, word};
use text::file::{load, load_input};
use text::words::same_word;

// A line with a number, of at most 20 digits, and a line for each of 64 labels.
const ROOM: usize = 29 + 17 * 64;

// The UIDs of the first n labels of a list, a line each.
#[tactic(auto, using(print::proofs::Lines::lines, crate::proofs::WalkTextPuts::uids_more))]
fn put_uids(line: &mut Line, list: &[u8], n: usize)
    requires { 8 * n ≤ length list.now }
    ensures { seen line.new ≡ laid (seen line.old) (uid_lines n list.now) }
{
    for i in 0..n {
        line.uid(uid_at(list, 8 * i));
        line.put(b"\n");
    }
}

// What is printed of a walk.
#[tactic(auto, using(print::proofs::Lines::lines), unfolding(crate::specs::WalkText::walk_text))]
fn put_walk(line: &mut Line, walked: Walked, list: &[u8])
    requires { 8 * walked.labels ≤ length list.now }
    ensures { seen line.new ≡ laid (seen line.old) (walk_text walked list.now) }
{
    if walked.number != 0 {
        line.number_line(b"refused ", walked.number as u64);
        return;
    }
    line.number_line(b"rounds ", walked.rounds as u64);
    put_uids(line, list, walked.labels);
}

// Walks a rack with a family, and lays what is printed of it into the room that is lent.
fn printed<'a>(room: &'a mut [u8], family: Family, tags: &mut [u8]) -> Line<'a>
    ensures laid { seen result ≡ laid (lent room.old 0 room.entry.ghost_name) (printed family tags.old) }
    ensures whole { 1117 ≤ length room.old → (seen result).text ≡ printed family tags.old }
{
    let mut list = [0u8; 512];
    let walked = walk(tags, family, &mut list);
    let mut line = Line::new(room);
    put_walk(&mut line, walked, &list);
    line
}

// The rack that argument i names, or standard input where there is none, to the front of tags: its length, or None where it failed, which was told.
fn load_rack(rt: &HostRuntime, i: usize, tags: &mut [u8]) -> Option<usize>
    ensures { IfSome result (λ n. n ≤ length tags.new) }
{
    if count(rt) <= i {
        return load_input(rt, tags);
    }
    load(rt, i, b"RACK", tags)
}

// Walks a rack with a family; argument i, the last, may name it.
fn run(rt: &HostRuntime, family: Family, i: usize) {
    if 1 < count(rt).saturating_sub(i) {
        tell(rt, b"usage: walk [--afi HH] [RACK]\n");
        return;
    }
    let mut tags = [0u8; 65537];
    if let Some(len) = load_rack(rt, i, &mut tags) {
        let mut room = [0u8; ROOM];
        let line = printed(&mut room, family, &mut tags[..len]);
        say(rt, line.text());
    }
}

// Whether the first argument is --afi.
fn has_afi(rt: &HostRuntime) -> bool {
    let mut first = [0u8; 6];
    let n = word(rt, 1, &mut first);
    same_word(&first[..n], b"--afi")
}

// The AFI comes behind --afi; a word that is too long for one is read as none.
fn main(rt: HostRuntime) {
    if !has_afi(&rt) {
        run(&rt, Family::Any, 1);
        return;
    }
    let mut named = [0u8; 3];
    let n = word(&rt, 2, &mut named);
    match afi_in(&named[..n]) {
        Some(afi) => run(&rt, Family::Only(afi), 3),
        None => tell(&rt, b"walk: --afi takes two hex digits\n"),
    }
}
