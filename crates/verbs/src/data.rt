// The bytes that a command sends: hex up to the end of the line, or a text in quotes.
ghost use Rattle.std.specs.Prelude.{◌≡◌, ◌≤◌, length, IfOk};
ghost use Rattle.verbs.specs.Data.{place_of, hex_trouble, Said, copied, quoted, hexed, data_from};

use crate::tokens::{Rest, Span, find, rest_of, text_of};
use crate::trouble::{Trouble, What, expected};
use frame::number::byte_at;
use frame::put::put_bytes;
use text::hex::{HexError, read_bytes};

// So many places behind a place. Numbers wrap, past any line's end.
#[tactic(auto, unfolding(crate::specs::Data::place_of))]
pub fn place(at: usize, i: usize) -> usize
    ensures { result ≡ place_of at i }
{
    std::num::wrapping_add_usize(at, i)
}

// What is wrong with a run of hex that started at a place.
#[tactic(auto, unfolding(crate::specs::Data::hex_trouble))]
fn hex_trouble(e: HexError, at: usize) -> Trouble
    ensures { result ≡ hex_trouble e at }
{
    match e {
        HexError::Bad(i) => expected(place(at, i), What::Digit),
        HexError::Odd(i) => expected(place(at, i), What::Pair),
        HexError::Full => Trouble::Full,
    }
}

// How many bytes there are, at the front of the buffer; the same of those below.
#[tactic(auto, unfolding(crate::specs::Data::copied))]
fn copy_text(text: &[u8], out: &mut [u8]) -> Result<usize, Trouble>
    ensures said { Said (copied (length out.old) text.now) out.old result out.new }
    ensures upper_bound { IfOk result (λ n. n ≤ length out.new) }
{
    let n = text.len();
    if out.len() < n {
        return Err(Trouble::Full);
    }
    put_bytes(out, 0, text, n);
    Ok(n)
}

impl Rest<'_> {
    // A text from behind its first quote on.
    #[tactic(auto, unfolding(crate::specs::Data::quoted, crate::specs::Data::quoted_to))]
    fn quoted(self, out: &mut [u8]) -> Result<usize, Trouble>
        ensures said { Said (quoted (length out.old) self.entry.line.now self.entry.at) out.old result out.new }
        ensures upper_bound { IfOk result (λ n. n ≤ length out.new) }
    {
        let end = find(self.line, self.at, b'"');
        if self.line.len() <= end {
            return Err(expected(end, What::Quote));
        }
        let behind = Rest {
            line: self.line,
            at: place(end, 1),
        };
        behind.ended(What::End)?;
        let text = self.text(Span {
            from: self.at,
            to: end,
        });
        copy_text(text, out)
    }

    // Hex up to the line's end or a comment.
    #[tactic(auto, unfolding(crate::specs::Data::hexed))]
    pub fn hex(self, out: &mut [u8]) -> Result<usize, Trouble>
        ensures said { Said (hexed (length out.old) self.entry.line.now self.entry.at) out.old result out.new }
        ensures upper_bound { IfOk result (λ n. n ≤ length out.new) }
    {
        read_bytes(rest_of(self.line, self.at), out).map_err(|e| hex_trouble(e, self.at))
    }

    // The bytes from here on, to the front of a buffer: how many there are.
    #[tactic(auto, unfolding(crate::specs::Data::data_from))]
    pub fn bytes(self, out: &mut [u8]) -> Result<usize, Trouble>
        ensures said { Said (data_from (length out.old) self.entry.line.now self.entry.at) out.old result out.new }
        ensures upper_bound { IfOk result (λ n. n ≤ length out.new) }
    {
        if byte_at(self.line, self.at) == b'"' {
            let text = Rest {
                line: self.line,
                at: place(self.at, 1),
            };
            return text.quoted(out);
        }
        self.hex(out)
    }
}
