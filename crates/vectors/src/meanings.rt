// What a reading means, written out.
use answer::reading::{Meaning, Reading};
use print::say::{print_byte, print_uid, say, say_byte, say_number};

fn system(rt: &HostRuntime, dsfid: u8, afi: u8, blocks: u8, size: u8, ic: u8) {
    say_byte(rt, b"system DSFID ", dsfid);
    say_byte(rt, b" AFI ", afi);
    say_byte(rt, b" blocks less 1 ", blocks);
    say_byte(rt, b" length less 1 ", size);
    say_byte(rt, b" IC ", ic);
}

fn block(rt: &HostRuntime, at: usize, n: usize) {
    say_number(rt, b"block at ", at as u64);
    say_number(rt, b" of ", n as u64);
}

fn locked(rt: &HostRuntime, lock: u8, at: usize, n: usize) {
    say_byte(rt, b"lock ", lock);
    say(rt, b" ");
    block(rt, at, n);
}

// Several blocks, or their lock bytes.
fn several(rt: &HostRuntime, name: &[u8], at: usize, n: usize, count: usize) {
    say_number(rt, name, at as u64);
    say_number(rt, b" of ", n as u64);
    say_number(rt, b" count ", count as u64);
}

fn word(rt: &HostRuntime, w: u32) {
    say(rt, b"word ");
    for b in &w.to_be_bytes() {
        print_byte(rt, *b);
    }
}

fn print_meaning(rt: &HostRuntime, m: Meaning) {
    match m {
        Meaning::Refused(n) => say_number(rt, b"refused ", n as u64),
        Meaning::Error(e) => say_byte(rt, b"error ", e),
        Meaning::Done => {
            say(rt, b"done");
        }
        Meaning::Found(d) => say_byte(rt, b"found DSFID ", d),
        Meaning::Block(at, n) => block(rt, at, n),
        Meaning::LockAndBlock(k, at, n) => locked(rt, k, at, n),
        Meaning::Info(d, f, b, z, i) => system(rt, d, f, b, z, i),
        Meaning::Id(id) => say_byte(rt, b"Chip_ID ", id),
        Meaning::Word(w) => word(rt, w),
        Meaning::Uid => {
            say(rt, b"UID");
        }
        Meaning::Blocks(at, n, count) => several(rt, b"blocks at ", at, n, count),
        Meaning::LocksAndBlocks(at, n, count) => several(rt, b"locks and blocks at ", at, n, count),
        Meaning::Locks(at, count) => several(rt, b"locks at ", at, 1, count),
    }
}

// The meaning, and the UID beside it.
pub fn print_reading(rt: &HostRuntime, r: Reading) {
    print_meaning(rt, r.meaning);
    say(rt, b" UID ");
    print_uid(rt, r.uid);
}
