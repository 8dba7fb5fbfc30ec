// The fields of a label.
ghost use Rattle.std.specs.Prelude.{◌≡◌};
ghost use Rattle.draft.specs.Bodies.{Drafts};
ghost use Rattle.draft.specs.Labels.{state_of, state_field, afi_field, dsfid_field, ic_field, slot_field, mask_of, mask_in, mask_field};
ghost use Rattle.draft.specs.Labels.{less_one, size_field, of_field, blocks_field, plain_field, label_field};

use crate::bodies::{Edit, change, set_ic, set_shape};
use crate::words::{Part, Why, behind, no_part, no_what, pair_from};
use frame::uid::uid_number;
use text::count::count_in;
use text::words::same_word;
use verbs::data::place;
use verbs::pieces::Mask;
use verbs::tokens::{Rest, Span, find, high_in, number_in, text_of};
use verbs::trouble::What;

// The place behind a field, and whether it said how many blocks there are.
#[derive(Clone, Copy)]
pub struct Reached {
    pub to: usize,
    pub sized: bool,
}

// Words by a ladder, here and in `chips`: they are compared in either case, which a `match` cannot.
#[tactic(auto, unfolding(crate::specs::Labels::state_of))]
fn state_of(word: &[u8]) -> Option<u8>
    ensures { result ≡ state_of word.now }
{
    if same_word(word, b"off") {
        return Some(0);
    }
    if same_word(word, b"ready") {
        return Some(1);
    }
    if same_word(word, b"quiet") {
        return Some(2);
    }
    if same_word(word, b"selected") {
        return Some(3);
    }
    None
}

#[tactic(auto, unfolding(crate::specs::Labels::state_field))]
fn state(b: &mut [u8], rest: Rest) -> Result<usize, Why>
    ensures { Drafts (state_field rest.entry.line.now rest.entry.at b.old) result b.new }
{
    let w = rest.word();
    let v = state_of(rest.text(w)).ok_or(no_part(w.from, Part::State))?;
    change(b, Edit::State(v));
    Ok(w.to)
}

#[tactic(auto, unfolding(crate::specs::Labels::afi_field))]
fn afi(b: &mut [u8], rest: Rest) -> Result<usize, Why>
    ensures { Drafts (afi_field rest.entry.line.now rest.entry.at b.old) result b.new }
{
    let p = pair_from(rest);
    let v = p.value.ok_or(no_what(p.word.from, What::Byte))?;
    let more = rest.behind(p.word);
    let locked = more.next_is(b"locked");
    change(b, Edit::Afi(v, locked));
    Ok(behind(more, locked))
}

// As afi but for the edit that it makes: one function for both would take that as a closure, and be longer than the two.
#[tactic(auto, unfolding(crate::specs::Labels::dsfid_field))]
fn dsfid(b: &mut [u8], rest: Rest) -> Result<usize, Why>
    ensures { Drafts (dsfid_field rest.entry.line.now rest.entry.at b.old) result b.new }
{
    let p = pair_from(rest);
    let v = p.value.ok_or(no_what(p.word.from, What::Byte))?;
    let more = rest.behind(p.word);
    let locked = more.next_is(b"locked");
    change(b, Edit::Dsfid(v, locked));
    Ok(behind(more, locked))
}

#[tactic(auto, unfolding(crate::specs::Labels::ic_field))]
fn ic(b: &mut [u8], rest: Rest) -> Result<usize, Why>
    ensures { Drafts (ic_field rest.entry.line.now rest.entry.at b.old) result b.new }
{
    let p = pair_from(rest);
    let v = p.value.ok_or(no_what(p.word.from, What::Byte))?;
    set_ic(b, v);
    Ok(p.word.to)
}

#[tactic(auto, unfolding(crate::specs::Labels::slot_field))]
fn slot(b: &mut [u8], rest: Rest) -> Result<usize, Why>
    ensures { Drafts (slot_field rest.entry.line.now rest.entry.at b.old) result b.new }
{
    let n = rest.number();
    let v = n.value.ok_or(no_what(n.word.from, What::Number))?;
    change(b, Edit::Slot(v));
    Ok(n.word.to)
}

// A mask of so many bits has as few bytes as hold it.
#[tactic(auto, unfolding(crate::specs::Labels::mask_of))]
fn mask_of(bits: u8, hex: &[u8]) -> Option<Mask>
    ensures { result ≡ mask_of bits hex.now }
{
    if 64 < bits {
        return None;
    }
    let k = (bits as usize + 7) / 8;
    let high = high_in(hex)?;
    if high.count != k || hex.len() != 2 * k {
        return None;
    }
    Some(Mask {
        bits,
        number: uid_number(high.low),
    })
}

#[tactic(auto, unfolding(crate::specs::Labels::mask_in))]
fn mask_in(text: &[u8]) -> Option<Mask>
    ensures { result ≡ mask_in text.now }
{
    let slash = find(text, 0, b'/');
    if text.len() <= slash {
        return None;
    }
    let bits = number_in(text_of(text, Span { from: 0, to: slash }))?;
    mask_of(
        bits,
        text_of(
            text,
            Span {
                from: place(slash, 1),
                to: text.len(),
            },
        ),
    )
}

#[tactic(auto, unfolding(crate::specs::Labels::mask_field))]
fn mask(b: &mut [u8], rest: Rest) -> Result<usize, Why>
    ensures { Drafts (mask_field rest.entry.line.now rest.entry.at b.old) result b.new }
{
    let w = rest.word();
    let m = mask_in(rest.text(w)).ok_or(no_what(w.from, What::Mask))?;
    change(b, Edit::Mask(m.bits, m.number));
    Ok(w.to)
}

// A number of 1 to most, less 1.
#[tactic(auto, unfolding(crate::specs::Labels::less_one))]
fn less_one(word: &[u8], most: u64) -> Option<u8>
    ensures { result ≡ less_one word.now most }
{
    let v = count_in(word)?;
    if v < 1 || most < v || 256 < v {
        return None;
    }
    Some((v - 1) as u8)
}

// The block length, behind the word `of`.
#[tactic(auto, unfolding(crate::specs::Labels::size_field))]
fn size(b: &mut [u8], rest: Rest, blocks: u8) -> Result<usize, Why>
    ensures { Drafts (size_field rest.entry.line.now rest.entry.at blocks b.old) result b.new }
{
    let w = rest.word();
    let v = less_one(rest.text(w), 32).ok_or(no_part(w.from, Part::Size))?;
    set_shape(b, blocks, v);
    Ok(w.to)
}

// The word `of`, and the block length behind it.
#[tactic(auto, unfolding(crate::specs::Labels::of_field))]
fn of_size(b: &mut [u8], rest: Rest, blocks: u8) -> Result<usize, Why>
    ensures { Drafts (of_field rest.entry.line.now rest.entry.at blocks b.old) result b.new }
{
    if rest.next_is(b"of") {
        return size(b, rest.next(), blocks);
    }
    Err(no_part(rest.word().from, Part::Of))
}

#[tactic(auto, unfolding(crate::specs::Labels::blocks_field))]
fn blocks(b: &mut [u8], rest: Rest) -> Result<usize, Why>
    ensures { Drafts (blocks_field rest.entry.line.now rest.entry.at b.old) result b.new }
{
    let w = rest.word();
    let v = less_one(rest.text(w), 256).ok_or(no_part(w.from, Part::Blocks))?;
    of_size(b, rest.behind(w), v)
}

// Fields behind which a word stands and nothing more.
#[tactic(auto, unfolding(crate::specs::Labels::plain_field))]
fn plain_field(b: &mut [u8], line: Rest, w: Span) -> Result<usize, Why>
    ensures { Drafts (plain_field line.entry.line.now w b.old) result b.new }
{
    let name = line.text(w);
    let rest = line.behind(w);
    if same_word(name, b"afi") {
        return afi(b, rest);
    }
    if same_word(name, b"dsfid") {
        return dsfid(b, rest);
    }
    if same_word(name, b"state") {
        return state(b, rest);
    }
    if same_word(name, b"ic") {
        return ic(b, rest);
    }
    if same_word(name, b"slot") {
        return slot(b, rest);
    }
    if same_word(name, b"mask") {
        return mask(b, rest);
    }
    Err(no_part(w.from, Part::Field))
}

// The field whose word stands at w; held where a block has been said.
#[tactic(auto, unfolding(crate::specs::Labels::label_field))]
pub fn label_field(b: &mut [u8], line: Rest, w: Span, held: bool) -> Result<Reached, Why>
    ensures { Drafts (label_field line.entry.line.now w held b.old) result b.new }
{
    if !same_word(line.text(w), b"blocks") {
        let to = plain_field(b, line, w)?;
        return Ok(Reached { to, sized: false });
    }
    if held {
        return Err(no_part(w.from, Part::BlocksFirst));
    }
    let to = blocks(b, line.behind(w))?;
    Ok(Reached { to, sized: true })
}
