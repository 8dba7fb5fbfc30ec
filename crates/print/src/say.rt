// Standard output, piece by piece.
use crate::fail::fail;
use crate::line::Line;
use std::io::Print;

// Whether all of it was written; if not, the cause is written to standard error.
pub fn say(rt: &HostRuntime, s: &[u8]) -> bool {
    match rt.write_all(s) {
        Ok(()) => true,
        Err(why) => {
            fail(rt, b"output", why);
            false
        }
    }
}

pub fn line_end(rt: &HostRuntime) {
    say(rt, b"\n");
}

// n in decimal. A number that cannot be written is not told.
pub fn print_number(rt: &HostRuntime, n: u64) {
    let mut room = [0u8; 20];
    let mut line = Line::new(&mut room);
    line.decimal(n);
    let _ = rt.write_all(line.text());
}

// A text and a number behind it.
pub fn say_number(rt: &HostRuntime, s: &[u8], n: u64) {
    say(rt, s);
    print_number(rt, n);
}

// Two capitals.
pub fn print_byte(rt: &HostRuntime, b: u8) {
    let mut room = [0u8; 2];
    let mut line = Line::new(&mut room);
    line.byte(b);
    say(rt, line.text());
}

// A text and a byte behind it.
pub fn say_byte(rt: &HostRuntime, s: &[u8], b: u8) {
    say(rt, s);
    print_byte(rt, b);
}

// A UID, given low byte first: high byte first.
pub fn print_uid(rt: &HostRuntime, u: [u8; 8]) {
    let mut room = [0u8; 16];
    let mut line = Line::new(&mut room);
    line.uid(u);
    say(rt, line.text());
}

// Two capitals a byte, a space between bytes.
pub fn print_bytes(rt: &HostRuntime, s: &[u8]) {
    if let Some((first, others)) = s.split_first() {
        print_byte(rt, *first);
        for part in others.chunks(32) {
            let mut room = [0u8; 96];
            let mut line = Line::new(&mut room);
            line.hex(part);
            say(rt, line.text());
        }
    }
}
