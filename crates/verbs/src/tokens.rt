// Words of a line, and what they say: numbers, bytes and UIDs.
ghost use Rattle.std.specs.Prelude.{◌≡◌, reverse, length, slice_index};
ghost use Rattle.verbs.specs.Tokens.{word_from, text_of, rest_of, find_in, is_empty, low_first, high_in};
ghost use Rattle.verbs.specs.Tokens.{byte_in, decimal_of, digit_on, number_in};

use frame::number::byte_at;
use text::hex::read_bytes;
use text::words::{skip_blanks, word_end};

// Places of a line: a word's first byte, and the one behind its last.
#[derive(Clone, Copy)]
pub struct Span {
    pub from: usize,
    pub to: usize,
}

// A line from a place on.
#[derive(Clone, Copy)]
pub struct Rest<'a> {
    pub line: &'a [u8],
    pub at: usize,
}

// A word of hex, whose high byte comes first: how many bytes it has, up to eight, and these with the low one first.
#[derive(Clone, Copy)]
pub struct High {
    pub count: usize,
    pub low: [u8; 8],
}

impl Span {
    pub fn is_empty(self) -> bool
        ensures { result ≡ is_empty self }
    {
        self.from == self.to
    }
}

impl<'a> Rest<'a> {
    // The next word: blanks are passed over. It is empty at the line's end, and where a `#` opens a comment.
    pub fn word(self) -> Span
        ensures { result ≡ word_from self.entry.line.now self.entry.at }
    {
        word_from(self.line, self.at)
    }

    // The bytes of a word.
    pub fn text(self, w: Span) -> &'a [u8]
        ensures { result.now ≡ text_of self.entry.line.now w }
    {
        text_of(self.line, w)
    }

    // What stands behind a word.
    pub fn behind(self, w: Span) -> Rest<'a>
        ensures { result ≡ record { line = self.entry.line; at = w.to } }
    {
        Rest {
            line: self.line,
            at: w.to,
        }
    }

    // What stands behind the next word.
    pub fn next(self) -> Rest<'a>
        ensures { result ≡ record { line = self.entry.line; at = (word_from self.entry.line.now self.entry.at).to } }
    {
        self.behind(self.word())
    }
}

// The next word from a place on: blanks are passed over. It is empty at the line's end, and where a `#` opens a comment.
pub fn word_from(s: &[u8], from: usize) -> Span
    ensures { result ≡ word_from s.now from }
{
    if s.len() < from {
        return Span {
            from: s.len(),
            to: s.len(),
        };
    }
    let at = skip_blanks(s, from);
    if byte_at(s, at) == b'#' {
        return Span { from: at, to: at };
    }
    let to = word_end(s, at);
    Span { from: at, to: to }
}

// The bytes of a word; none where its places are not within the line.
#[tactic(auto, unfolding(crate::specs::Tokens::text_of))]
pub fn text_of(s: &[u8], w: Span) -> &[u8]
    ensures { result.now ≡ text_of s.now w }
{
    s.get(w.from..w.to).unwrap_or(&[])
}

// The bytes of a line from a place on.
#[tactic(auto, unfolding(crate::specs::Tokens::rest_of, crate::specs::Tokens::text_of))]
pub fn rest_of(s: &[u8], from: usize) -> &[u8]
    ensures { result.now ≡ rest_of s.now from }
{
    s.get(from..).unwrap_or(&[])
}

// The place of the next such byte from a place on, or the end where there is none.
// The end and no None: it is how far a line or a text goes, and a text's last line ends so.
pub fn find(s: &[u8], from: usize, b: u8) -> usize
    ensures { result ≡ find_in s.now from b }
{
    let rest = rest_of(s, from);
    from + rest.iter().position(|c| *c == b).unwrap_or(rest.len())
}

// The byte so many places before the last.
fn from_end(b: &[u8], i: usize) -> u8
    ensures { result ≡ slice_index (reverse b.now) i }
{
    if i < b.len() { b[b.len() - 1 - i] } else { 0 }
}

#[tactic(auto, unfolding(crate::specs::Tokens::low_first))]
fn low_first(b: &[u8]) -> [u8; 8]
    ensures { result ≡ low_first b.now }
{
    std::array::from_fn(|i| from_end(b, i))
}

// None where it is no word of hex, or one of more bytes.
#[tactic(auto, unfolding(crate::specs::Tokens::high_in))]
pub fn high_in(word: &[u8]) -> Option<High>
    ensures { result ≡ high_in word.now }
{
    let mut b = [0u8; 8];
    let count = read_bytes(word, &mut b).ok()?;
    let low = low_first(&b[..count]);
    Some(High { count, low })
}

// A byte in hex.
#[tactic(auto, unfolding(crate::specs::Tokens::byte_in))]
pub fn byte_in(word: &[u8]) -> Option<u8>
    ensures { result ≡ byte_in word.now }
{
    let high = high_in(word)?;
    if high.count != 1 {
        return None;
    }
    Some(high.low[0])
}

// A digit's value.
#[tactic(auto, unfolding(crate::specs::Tokens::decimal_of))]
fn decimal(c: u8) -> Option<u8>
    ensures { result ≡ decimal_of c }
{
    if c.is_ascii_digit() {
        Some(c - b'0')
    } else {
        None
    }
}

// A number with one more digit behind it.
#[tactic(auto, unfolding(crate::specs::Tokens::digit_on))]
fn digit_on(n: u8, c: u8) -> Option<u8>
    ensures { result ≡ digit_on n c }
{
    n.checked_mul(10)?.checked_add(decimal(c)?)
}

// A number of 0 to 255 in decimal.
#[tactic(auto, unfolding(crate::specs::Tokens::number_in))]
pub fn number_in(word: &[u8]) -> Option<u8>
    ensures { result ≡ number_in word.now }
{
    if word.is_empty() {
        return None;
    }
    let mut n = 0;
    for c in word {
        n = digit_on(n, *c)?;
    }
    Some(n)
}
