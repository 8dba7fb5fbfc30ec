// What an event changed in a rack, byte by byte: the tag, the place in its body, the old value and the new one.
use frame::number::byte_at;
use print::say::{say_byte, say_number};
use rack::file::entry_of;

fn print_change(rt: &HostRuntime, tag: usize, place: usize, old: u8, new: u8) {
    say_number(rt, b" ", tag as u64);
    say_number(rt, b".", place as u64);
    say_byte(rt, b":", old);
    say_byte(rt, b">", new);
}

// The changes of a tag whose body starts at a place.
fn print_tag(rt: &HostRuntime, old: &[u8], new: &[u8], tag: usize, at: usize, len: usize) {
    for i in 0..len {
        let place = at.wrapping_add(i);
        let a = byte_at(old, place);
        let b = byte_at(new, place);
        if a != b {
            print_change(rt, tag, i, a, b);
        }
    }
}

// The changes of every tag, in the order of the entries.
pub fn print_changes(rt: &HostRuntime, old: &[u8], new: &[u8]) {
    let n = byte_at(new, 1) as usize;
    let mut at = entry_of(n);
    for i in 0..n {
        let e = entry_of(i);
        let len = byte_at(new, e + 2) as usize + 256 * byte_at(new, e + 3) as usize;
        print_tag(rt, old, new, i, at, len);
        at = at.wrapping_add(len);
    }
}
