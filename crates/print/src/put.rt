// A text into a buffer that is lent, from a place on. Every other byte stays; what has no room is left out.
ghost use Rattle.print.specs.Puts.{Puts};

use crate::line::Line;

// The place behind the bytes that were laid, or the buffer's end.
pub fn put_text(out: &mut [u8], at: usize, s: &[u8]) -> usize
    ensures { Puts s.now at out.old out.new result }
{
    let mut line = Line::at(out, at);
    line.put(s);
    line.len()
}
