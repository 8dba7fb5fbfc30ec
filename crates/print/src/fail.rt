// What went wrong, on standard error.
ghost use Rattle.std.specs.Prelude.{◌≡◌, length, take};

use crate::line::Line;
use std::fmt::Write;
use std::io;
use std::io::Print;

const ROOM: usize = 256;

// The system's words for an error without its number, which std writes behind them as ` (os error 2)`.
fn before_number(text: &[u8]) -> &[u8]
    ensures { result.now ≡ take (length result.now) text.now }
{
    for i in (1..text.len()).rev() {
        if text[i] == b'(' {
            return &text[..i - 1];
        }
    }
    b""
}

// Writes a text to standard error. Nothing can be told of one that cannot be written.
pub fn tell(rt: &HostRuntime, s: &[u8]) {
    let _ = rt.stderr().write_all(s);
}

// Writes to standard error what failed, and why: `RACK: No such file or directory`.
pub fn fail(rt: &HostRuntime, name: &[u8], why: io::Error) {
    let mut room = [0u8; ROOM];
    let mut words = Line::new(&mut room);
    let _ = write!(words, "{why}");
    let mut out = [0u8; 272];
    let mut line = Line::new(&mut out);
    line.put(b": ");
    if why.raw_os_error().is_some() {
        line.put(before_number(words.text()));
    } else {
        line.put(words.text());
    }
    line.put(b"\n");
    tell(rt, name);
    tell(rt, line.text());
}
