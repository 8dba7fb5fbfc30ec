// What is wrong with a line, and its text.
ghost use Rattle.std.specs.Prelude.{◌≡◌};
ghost use Rattle.print.specs.Line.{laid};
ghost use Rattle.print.specs.Seen.{seen};
ghost use Rattle.verbs.specs.Trouble.{column_of, no, what_text, expected_text, trouble_text};

use print::line::Line;

// What should stand at a place.
#[derive(Clone, Copy)]
pub enum What {
    Event,
    Target,
    Selected,
    Number,
    Byte,
    ByteOrLock,
    LockOrEnd,
    ToLockOrEnd,
    ToOrEnd,
    Last,
    Options,
    Mask,
    Data,
    Digit,
    Pair,
    Quote,
    End,
}

#[derive(Clone, Copy)]
pub enum Trouble {
    // In a column, counted from 1, stands something else.
    Expected(u64, What),
    // No request has these fields.
    NoRequest,
    // More bytes than there is room for.
    Full,
}

// The column of a place. Numbers wrap, past any line's end.
#[tactic(auto, unfolding(crate::specs::Trouble::column_of))]
pub fn column(at: usize) -> u64
    ensures { result ≡ column_of at }
{
    std::num::wrapping_add_u64(at as u64, 1)
}

pub fn expected(at: usize, what: What) -> Trouble
    ensures { result ≡ no at what }
{
    Trouble::Expected(column(at), what)
}

impl What {
    #[tactic(auto, unfolding(crate::specs::Trouble::what_text))]
    fn text(self) -> &'static [u8]
        ensures { result.now ≡ what_text self }
    {
        match self {
            What::Event => b"an event or a command",
            What::Target => b"a UID of 16 hex digits, all or selected",
            What::Selected => b"a Chip_ID of 2 hex digits, a UID of 16, all or selected",
            What::Number => b"a number of 0 to 255",
            What::Byte => b"a byte of 2 hex digits",
            What::ByteOrLock => b"a byte of 2 hex digits or lock",
            What::LockOrEnd => b"lock or the end of the line",
            What::ToLockOrEnd => b"to, lock or the end of the line",
            What::ToOrEnd => b"to or the end of the line",
            What::Last => b"a last block, no lower than the first",
            What::Options => b"16, afi, mask or the end of the line",
            What::Mask => b"a mask as BITS/HEX",
            What::Data => b"hex digits or \"text\"",
            What::Digit => b"a hex digit",
            What::Pair => b"two hex digits",
            What::Quote => b"a closing \"",
            What::End => b"the end of the line",
        }
    }
}

#[tactic(auto, using(print::proofs::Lines::lines), unfolding(crate::specs::Trouble::expected_text))]
fn put_expected(line: &mut Line, column: u64, what: What)
    ensures { seen line.new ≡ laid (seen line.old) (expected_text column what) }
{
    line.put(b"column ");
    line.decimal(column);
    line.put(b": expected ");
    line.put(what.text());
}

#[tactic(auto, unfolding(crate::specs::Trouble::trouble_text))]
pub fn put_trouble(line: &mut Line, trouble: Trouble)
    ensures { seen line.new ≡ laid (seen line.old) (trouble_text trouble) }
{
    match trouble {
        Trouble::Expected(column, what) => put_expected(line, column, what),
        Trouble::NoRequest => line.put(b"no request has these fields"),
        Trouble::Full => line.put(b"too many bytes"),
    }
}
