// The fields of a chip.
ghost use Rattle.std.specs.Prelude.{◌≡◌};
ghost use Rattle.draft.specs.Bodies.{Drafts};
ghost use Rattle.draft.specs.Chips.{later_state, state_of, yes_or_no, state_field, id_field, reload_field, fixed_field, chip_field};

use crate::bodies::{ChipEdit, chip_edit, set_fixed};
use crate::words::{Part, Why, no_part, no_what, pair_from};
use text::words::same_word;
use verbs::tokens::{Rest, Span};
use verbs::trouble::What;

#[tactic(auto, unfolding(crate::specs::Chips::later_state))]
fn later_state(word: &[u8]) -> Option<u8>
    ensures { result ≡ later_state word.now }
{
    if same_word(word, b"selected") {
        return Some(3);
    }
    if same_word(word, b"deselected") {
        return Some(4);
    }
    if same_word(word, b"deactivated") {
        return Some(5);
    }
    None
}

#[tactic(auto, unfolding(crate::specs::Chips::state_of))]
fn state_of(word: &[u8]) -> Option<u8>
    ensures { result ≡ state_of word.now }
{
    if same_word(word, b"off") {
        return Some(0);
    }
    if same_word(word, b"ready") {
        return Some(1);
    }
    if same_word(word, b"inventory") {
        return Some(2);
    }
    later_state(word)
}

#[tactic(auto, unfolding(crate::specs::Chips::yes_or_no))]
fn yes_or_no(word: &[u8]) -> Option<u8>
    ensures { result ≡ yes_or_no word.now }
{
    if same_word(word, b"no") {
        return Some(0);
    }
    if same_word(word, b"yes") {
        return Some(1);
    }
    None
}

#[tactic(auto, unfolding(crate::specs::Chips::state_field))]
fn state(b: &mut [u8], rest: Rest) -> Result<usize, Why>
    ensures { Drafts (state_field rest.entry.line.now rest.entry.at b.old) result b.new }
{
    let w = rest.word();
    let v = state_of(rest.text(w)).ok_or(no_part(w.from, Part::State))?;
    chip_edit(b, ChipEdit::State(v));
    Ok(w.to)
}

#[tactic(auto, unfolding(crate::specs::Chips::id_field))]
fn id(b: &mut [u8], rest: Rest) -> Result<usize, Why>
    ensures { Drafts (id_field rest.entry.line.now rest.entry.at b.old) result b.new }
{
    let p = pair_from(rest);
    let v = p.value.ok_or(no_what(p.word.from, What::Byte))?;
    chip_edit(b, ChipEdit::Id(v));
    Ok(p.word.to)
}

#[tactic(auto, unfolding(crate::specs::Chips::reload_field))]
fn reload(b: &mut [u8], rest: Rest) -> Result<usize, Why>
    ensures { Drafts (reload_field rest.entry.line.now rest.entry.at b.old) result b.new }
{
    let w = rest.word();
    let v = yes_or_no(rest.text(w)).ok_or(no_part(w.from, Part::YesOrNo))?;
    chip_edit(b, ChipEdit::Reload(v));
    Ok(w.to)
}

#[tactic(auto, unfolding(crate::specs::Chips::fixed_field))]
fn fixed(b: &mut [u8], rest: Rest) -> Result<usize, Why>
    ensures { Drafts (fixed_field rest.entry.line.now rest.entry.at b.old) result b.new }
{
    let w = rest.word();
    let v = yes_or_no(rest.text(w)).ok_or(no_part(w.from, Part::YesOrNo))?;
    set_fixed(b, v);
    Ok(w.to)
}

// The field whose word stands at w.
#[tactic(auto, unfolding(crate::specs::Chips::chip_field))]
pub fn chip_field(b: &mut [u8], line: Rest, w: Span) -> Result<usize, Why>
    ensures { Drafts (chip_field line.entry.line.now w b.old) result b.new }
{
    let name = line.text(w);
    let rest = line.behind(w);
    if same_word(name, b"state") {
        return state(b, rest);
    }
    if same_word(name, b"id") {
        return id(b, rest);
    }
    if same_word(name, b"fixed") {
        return fixed(b, rest);
    }
    if same_word(name, b"reload") {
        return reload(b, rest);
    }
    Err(no_part(w.from, Part::Field))
}
