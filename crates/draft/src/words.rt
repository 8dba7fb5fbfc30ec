// What a text of a rack is made of, and what is wrong with one.
ghost use Rattle.std.specs.Prelude.{◌≡◌};
ghost use Rattle.print.specs.Line.{laid};
ghost use Rattle.print.specs.Seen.{seen};
ghost use Rattle.draft.specs.Words.{no_part, no_what, ended, behind, pair_in, pair_from, uid_in, uid_from, part_text, expected_text, why_text};

use print::line::Line;
use verbs::pieces::Found;
use verbs::tokens::{Rest, byte_in, high_in};
use verbs::trouble::{Trouble, What, column, expected, put_trouble};

// What should stand at a place of a rack's text alone.
#[derive(Clone, Copy)]
pub enum Part {
    Edition,
    Tag,
    Uid,
    Field,
    State,
    YesOrNo,
    Of,
    Blocks,
    Size,
    Block,
    BlocksFirst,
    NoMore,
}

#[derive(Clone, Copy)]
pub enum Why {
    // In a column, counted from 1, stands something else.
    Part(u64, Part),
    Line(Trouble),
    // The rack grows too large here.
    Bytes,
    Tags,
    Long,
}

#[tactic(auto, unfolding(crate::specs::Words::no_part))]
pub fn no_part(at: usize, part: Part) -> Why
    ensures { result ≡ no_part at part }
{
    Why::Part(column(at), part)
}

#[tactic(auto, unfolding(crate::specs::Words::no_what))]
pub fn no_what(at: usize, what: What) -> Why
    ensures { result ≡ no_what at what }
{
    Why::Line(expected(at, what))
}

// Nothing may stand from here on: the place behind the last word.
#[tactic(auto, unfolding(crate::specs::Words::ended))]
pub fn ended(rest: Rest) -> Result<usize, Why>
    ensures { result ≡ ended rest.entry.line.now rest.entry.at }
{
    let w = rest.word();
    if w.is_empty() {
        return Ok(w.from);
    }
    Err(no_what(w.from, What::End))
}

// The place behind a word of `locked`, where it stands next.
#[tactic(auto, unfolding(crate::specs::Words::behind))]
pub fn behind(rest: Rest, locked: bool) -> usize
    ensures { result ≡ behind rest.entry.line.now rest.entry.at locked }
{
    if locked { rest.next().at } else { rest.at }
}

#[tactic(auto, unfolding(crate::specs::Words::pair_in))]
fn pair_in(text: &[u8]) -> Option<u8>
    ensures { result ≡ pair_in text.now }
{
    if text.len() == 2 { byte_in(text) } else { None }
}

// Two hex digits and nothing else.
#[tactic(auto, unfolding(crate::specs::Words::pair_from))]
pub fn pair_from(rest: Rest) -> Found<u8>
    ensures { result ≡ pair_from rest.entry.line.now rest.entry.at }
{
    let word = rest.word();
    Found {
        value: pair_in(rest.text(word)),
        word,
    }
}

#[tactic(auto, unfolding(crate::specs::Words::uid_in))]
fn uid_in(text: &[u8]) -> Option<[u8; 8]>
    ensures { result ≡ uid_in text.now }
{
    if text.len() != 16 {
        return None;
    }
    let high = high_in(text)?;
    if high.count != 8 {
        return None;
    }
    Some(high.low)
}

// Sixteen hex digits and nothing else.
#[tactic(auto, unfolding(crate::specs::Words::uid_from))]
pub fn uid_from(rest: Rest) -> Found<[u8; 8]>
    ensures { result ≡ uid_from rest.entry.line.now rest.entry.at }
{
    let word = rest.word();
    Found {
        value: uid_in(rest.text(word)),
        word,
    }
}

impl Part {
    #[tactic(auto, unfolding(crate::specs::Words::part_text))]
    fn text(self) -> &'static [u8]
        ensures { result.now ≡ part_text self }
    {
        match self {
            Part::Edition => b"rack edition 1",
            Part::Tag => b"label or chip",
            Part::Uid => b"a UID of 16 hex digits",
            Part::Field => b"a field",
            Part::State => b"a state",
            Part::YesOrNo => b"yes or no",
            Part::Of => b"of",
            Part::Blocks => b"a number of 1 to 256",
            Part::Size => b"a number of 1 to 32",
            Part::Block => b"the number of a block",
            Part::BlocksFirst => b"blocks before the first block",
            Part::NoMore => b"no more bytes",
        }
    }
}

#[tactic(auto, using(print::proofs::Lines::lines), unfolding(crate::specs::Words::expected_text))]
fn put_expected(line: &mut Line, column: u64, part: Part)
    ensures { seen line.new ≡ laid (seen line.old) (expected_text column part) }
{
    line.put(b"column ");
    line.decimal(column);
    line.put(b": expected ");
    line.put(part.text());
}

#[tactic(auto, unfolding(crate::specs::Words::why_text))]
pub fn put_why(line: &mut Line, why: Why)
    ensures { seen line.new ≡ laid (seen line.old) (why_text why) }
{
    match why {
        Why::Part(column, part) => put_expected(line, column, part),
        Why::Line(trouble) => put_trouble(line, trouble),
        Why::Bytes => line.put(b"the rack has over 65536 bytes here"),
        Why::Tags => line.put(b"the rack has over 64 tags here"),
        Why::Long => line.put(b"too long"),
    }
}
