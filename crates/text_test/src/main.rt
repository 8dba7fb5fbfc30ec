// Prints what some words say, then bytes; then reads lines through a buffer of 64 bytes, and prints of each its number, its word, and its bytes or
// what is wrong with them.
#![tactic(auto)]

use print::fail::tell;
use print::say::{line_end, print_byte, print_bytes, print_number, print_uid, say, say_number};
use text::args;
use text::count::count_in;
use text::hex::{HexError, read_bytes};
use text::lines::{Reached, next, source_of};
use text::mark::after_mark;
use text::words::{Keyword, first_word, same_word};

fn name(w: Keyword) -> &'static [u8] {
    match w {
        Keyword::Empty => b" empty",
        Keyword::Comment => b" comment",
        Keyword::Off => b" off",
        Keyword::On => b" on",
        Keyword::Eof => b" eof",
        Keyword::Label => b" label",
        Keyword::LabelSeal => b" label+",
        Keyword::Chip => b" chip",
        Keyword::ChipSeal => b" chip+",
        Keyword::Draws => b" draws",
        Keyword::Unknown => b" unknown",
    }
}

// Whether hex stands behind a word.
fn takes_bytes(w: Keyword) -> bool {
    matches!(
        w,
        Keyword::Label | Keyword::LabelSeal | Keyword::Chip | Keyword::ChipSeal | Keyword::Draws
    )
}

fn place(rt: &HostRuntime, what: &[u8], i: usize) {
    say_number(rt, what, i as u64);
}

// The bytes of a rest of a line, of which there are to be at most 8.
fn bytes(rt: &HostRuntime, s: &[u8]) {
    let mut out = [0u8; 8];
    match read_bytes(s, &mut out) {
        Ok(n) => {
            place(rt, b" bytes ", n);
            say(rt, b": ");
            print_bytes(rt, &out[..n]);
        }
        Err(HexError::Bad(i)) => place(rt, b" bad at ", i),
        Err(HexError::Odd(i)) => place(rt, b" odd at ", i),
        Err(HexError::Full) => {
            say(rt, b" full");
        }
    }
}

fn line(rt: &HostRuntime, n: u64, s: &[u8]) {
    print_number(rt, n);
    let first = first_word(s);
    say(rt, name(first.word));
    if takes_bytes(first.word) && first.rest <= s.len() {
        bytes(rt, &s[first.rest..]);
    }
    line_end(rt);
}

fn too_long(rt: &HostRuntime, n: u64) {
    print_number(rt, n);
    say(rt, b" too long\n");
}

// Every line of the input: at most 2^62, which no input outlasts.
fn lines(rt: &HostRuntime, buf: &mut [u8]) {
    let mut input = rt.stdin();
    let mut source = source_of();
    for n in 1..4611686018427387905u64 {
        let got = next(rt, &mut input, source, buf);
        match got.reached {
            Reached::Line(from, to) => line(rt, n, &buf[from..to]),
            Reached::Long => too_long(rt, n),
            Reached::End => return,
        }
        source = got.source;
    }
}

// A byte, a UID, and more bytes than are laid at a time.
fn printed(rt: &HostRuntime) {
    print_byte(rt, 0x0A);
    line_end(rt);
    print_uid(rt, [0xAB, 0x90, 0x78, 0x56, 0x34, 0x12, 0x04, 0xE0]);
    line_end(rt);
    print_bytes(
        rt,
        b"ABCDEFGHIJKLMNOPQRSTUVWXYZabcdefghijklmnopqrstuvwxyz0123456789!#$%&'()",
    );
    line_end(rt);
    print_bytes(rt, b"");
    line_end(rt);
}

fn count(rt: &HostRuntime, word: &[u8]) {
    if let Some(n) = count_in(word) {
        say_number(rt, b" number ", n);
    }
}

// A word, behind the mark where one stands, and what it says.
fn word(rt: &HostRuntime, s: &[u8]) {
    let at = after_mark(s);
    let w = &s[at..];
    say(rt, w);
    count(rt, w);
    if same_word(w, b"uid") {
        say(rt, b" itself");
    }
    line_end(rt);
}

fn words(rt: &HostRuntime) {
    word(rt, b"12");
    word(rt, b"7f");
    word(rt, b"UID");
    word(rt, b"1000000000");
    word(rt, b"\xEF\xBB\xBF999999999");
    word(rt, b"12#");
    word(rt, b"");
}

fn main(rt: HostRuntime) {
    words(&rt);
    if 1 < args::count(&rt) {
        tell(&rt, b"usage: text_test\n");
        return;
    }
    printed(&rt);
    let mut buf = [0u8; 64];
    lines(&rt, &mut buf);
}
