// A line: a buffer that is lent, into which texts are laid one behind the other. What has no room is left out.
ghost use Rattle.std.specs.Prelude.{◌≡◌, ◌≤◌, [], ◌∷◌, length, set};
ghost use Rattle.print.specs.Line.{lent, laid, buffer, cleared, marked, full};
ghost use Rattle.print.specs.Puts.{spaces};
ghost use Rattle.print.specs.Decimal.{decimal_text, number_line};
ghost use Rattle.print.specs.Hex.{hex_text, pairs_text, uid_text};
ghost use Rattle.print.specs.Named.{word_byte, word_number};
ghost use Rattle.print.specs.Quote.{quoted_text};

use crate::hex::{high, low};
use frame::put::put_bytes;
use std::fmt;

#[derive(Drop)]
pub struct Line<'a> {
    bytes: &'a mut [u8],
    at: usize,
    ghost inside: { at ≤ length bytes.now },
}

impl<'a> Line<'a> {
    ghost use Rattle.print.specs.Seen.{seen};

    // A buffer of which nothing is laid yet.
    #[tactic(auto, unfolding(crate::specs::Seen::seen))]
    pub fn new(bytes: &'a mut [u8]) -> Line<'a>
        ensures { seen result ≡ lent bytes.old 0 bytes.entry.ghost_name }
    {
        Line { bytes, at: 0 }
    }

    // A buffer that is laid as far as a place, or whole where the place is past its end.
    #[tactic(auto, unfolding(crate::specs::Seen::seen))]
    pub fn at(bytes: &'a mut [u8], at: usize) -> Line<'a>
        ensures { seen result ≡ lent bytes.old at bytes.entry.ghost_name }
    {
        if bytes.len() < at {
            let end = bytes.len();
            return Line { bytes, at: end };
        }
        Line { bytes, at }
    }

    // What was laid.
    #[tactic(auto, unfolding(crate::specs::Seen::seen))]
    pub fn text(&self) -> &[u8]
        ensures { result.now ≡ (seen self.now).text }
    {
        &self.bytes[..self.at]
    }

    pub fn len(&self) -> usize
        ensures { result ≡ length (seen self.now).text }
    {
        self.text().len()
    }

    // How many bytes have room in all, those laid among them.
    #[tactic(auto, using(crate::proofs::Lent::line_long))]
    pub fn room(&self) -> usize
        ensures { result ≡ length (buffer (seen self.now)) }
    {
        self.bytes.len()
    }

    // Whether no byte has room any more.
    #[tactic(auto, unfolding(crate::specs::Seen::seen))]
    pub fn is_full(&self) -> bool
        ensures { result ≡ full (seen self.now) }
    {
        self.at == self.bytes.len()
    }

    #[tactic(auto, unfolding(crate::specs::Seen::seen))]
    pub fn clear(&mut self)
        ensures { seen self.new ≡ cleared (seen self.old) }
    {
        self.at = 0;
    }

    // Byte i of what was laid becomes b; nothing where it has none.
    #[tactic(auto, unfolding(crate::specs::Seen::seen))]
    pub fn set(&mut self, i: usize, b: u8)
        ensures { seen self.new ≡ marked (seen self.old) i b }
    {
        if i < self.at {
            self.bytes[i] = b;
        }
    }

    #[tactic(auto, unfolding(crate::specs::Seen::seen))]
    pub fn put(&mut self, s: &[u8])
        ensures { seen self.new ≡ laid (seen self.old) s.now }
    {
        // Two arms, so that the compiler knows how long a literal is that has room.
        let room = self.bytes.len() - self.at;
        if room < s.len() {
            self.at = put_bytes(self.bytes, self.at, s, room);
        } else {
            self.at = put_bytes(self.bytes, self.at, s, s.len());
        }
    }

    // A byte as two capitals.
    pub fn byte(&mut self, b: u8)
        ensures { seen self.new ≡ laid (seen self.old) (pairs_text (b ∷ [])) }
    {
        self.put(&[high(b), low(b)]);
    }

    // Bytes, a space before each.
    #[tactic(auto, using(crate::proofs::Lines::lines, crate::proofs::HexText::hex_more))]
    pub fn hex(&mut self, s: &[u8])
        ensures { seen self.new ≡ laid (seen self.old) (hex_text s.now) }
    {
        for b in s {
            self.put(&[b' ', high(*b), low(*b)]);
        }
    }

    // Bytes from the last to the first, two capitals each.
    #[tactic(auto, using(crate::proofs::Lines::lines, crate::proofs::HexPairs::pairs_more))]
    pub fn back(&mut self, s: &[u8])
        ensures { seen self.new ≡ laid (seen self.old) (uid_text s.now) }
    {
        for b in s.iter().rev() {
            self.byte(*b);
        }
    }

    // A UID, given low byte first: high byte first.
    pub fn uid(&mut self, u: [u8; 8])
        ensures { seen self.new ≡ laid (seen self.old) (uid_text u) }
    {
        self.back(&u);
    }

    // n in decimal.
    pub fn decimal(&mut self, n: u64)
        ensures { seen self.new ≡ laid (seen self.old) (decimal_text n) }
    {
        let mut text = [0u8; 20];
        let k = io::decimal(n, &mut text);
        self.put(&text[0..k]);
    }

    #[tactic(auto, using(crate::proofs::Lines::lines, crate::proofs::Lines::spaces_more))]
    pub fn spaces(&mut self, n: usize)
        ensures { seen self.new ≡ laid (seen self.old) (spaces n) }
    {
        for _ in 0..n {
            self.put(b" ");
        }
    }

    // A text between quotes.
    #[tactic(auto, using(crate::proofs::Lines::lines), unfolding(crate::specs::Quote::quoted_text))]
    pub fn quoted(&mut self, text: &[u8])
        ensures { seen self.new ≡ laid (seen self.old) (quoted_text text.now) }
    {
        self.put(b"\"");
        self.put(text);
        self.put(b"\"");
    }

    // A text and a byte behind it, as two capitals.
    #[tactic(auto, using(crate::proofs::Lines::lines), unfolding(crate::specs::Named::word_byte))]
    pub fn word_byte(&mut self, s: &[u8], b: u8)
        ensures { seen self.new ≡ laid (seen self.old) (word_byte s.now b) }
    {
        self.put(s);
        self.byte(b);
    }

    // A text and a number behind it, in decimal.
    #[tactic(auto, using(crate::proofs::Lines::lines), unfolding(crate::specs::Named::word_number))]
    pub fn word_number(&mut self, word: &[u8], n: u64)
        ensures { seen self.new ≡ laid (seen self.old) (word_number word.now n) }
    {
        self.put(word);
        self.decimal(n);
    }

    // A text, n behind it, and the end of the line.
    #[tactic(auto, using(crate::proofs::Lines::lines), unfolding(crate::specs::Decimal::number_line))]
    pub fn number_line(&mut self, s: &[u8], n: u64)
        ensures { seen self.new ≡ laid (seen self.old) (number_line s.now n) }
    {
        self.put(s);
        self.decimal(n);
        self.put(b"\n");
    }
}

impl fmt::Write for Line<'_> {
    fn write_str(&mut self, s: &str) -> fmt::Result {
        self.put(s.as_bytes());
        Ok(())
    }
}
