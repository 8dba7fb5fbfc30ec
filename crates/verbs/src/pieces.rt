// The pieces of a command: the next word of a line as a target, a byte, a number or a mask.
ghost use Rattle.std.specs.Prelude.{◌≡◌};
ghost use Rattle.verbs.specs.Pieces.{wanted, next_is, byte_from, number_from, target_in, target_from, mask_in, mask_from, ended};

use crate::tokens::{Rest, Span, byte_in, find, high_in, number_in, text_of};
use crate::trouble::{Trouble, What, expected};
use frame::uid::uid_number;
use request::label::Target;
use text::words::same_word;

// What the next word says, if it says such a thing, and the word.
#[derive(Clone, Copy)]
pub struct Found<T> {
    pub value: Option<T>,
    pub word: Span,
}

// Who a request is for; the UID counts where it is one.
#[derive(Clone, Copy)]
pub struct Aim {
    pub to: Target,
    pub uid: [u8; 8],
}

// An Inventory's mask: how many bits it has, and they as a number.
#[derive(Clone, Copy)]
pub struct Mask {
    pub bits: u8,
    pub number: u64,
}

impl<T: Copy> Found<T> {
    // What was found, or what should have stood there.
    #[tactic(auto, unfolding(crate::specs::Pieces::wanted))]
    pub fn wanted(self, what: What) -> Result<T, Trouble>
        ensures { result ≡ wanted self what }
    {
        self.value.ok_or(expected(self.word.from, what))
    }
}

#[tactic(auto, unfolding(crate::specs::Pieces::target_in))]
fn target_in(text: &[u8]) -> Option<Aim>
    ensures { result ≡ target_in text.now }
{
    if same_word(text, b"all") {
        return Some(Aim {
            to: Target::Everyone,
            uid: [0u8; 8],
        });
    }
    if same_word(text, b"selected") {
        return Some(Aim {
            to: Target::Selected,
            uid: [0u8; 8],
        });
    }
    let high = high_in(text)?;
    if high.count != 8 {
        return None;
    }
    let uid = high.low;
    Some(Aim {
        to: Target::One,
        uid,
    })
}

// Its length in decimal, a slash, and its bytes in hex, the high one first.
#[tactic(auto, unfolding(crate::specs::Pieces::mask_in))]
fn mask_in(text: &[u8]) -> Option<Mask>
    ensures { result ≡ mask_in text.now }
{
    let slash = find(text, 0, b'/');
    let bits = number_in(text_of(text, Span { from: 0, to: slash }))?;
    let high = high_in(text_of(
        text,
        Span {
            from: std::num::wrapping_add_usize(slash, 1),
            to: text.len(),
        },
    ))?;
    if high.count == 0 {
        return None;
    }
    Some(Mask {
        bits,
        number: uid_number(high.low),
    })
}

impl Rest<'_> {
    // Whether the next word is a given one.
    #[tactic(auto, unfolding(crate::specs::Pieces::next_is))]
    pub fn next_is(self, word: &[u8]) -> bool
        ensures { result ≡ next_is self.entry.line.now self.entry.at word.now }
    {
        same_word(self.text(self.word()), word)
    }

    // Nothing may stand here; where something does, `what` should.
    #[tactic(auto, unfolding(crate::specs::Pieces::ended))]
    pub fn ended(self, what: What) -> Result<(), Trouble>
        ensures { result ≡ ended self.entry.line.now self.entry.at what }
    {
        let w = self.word();
        if w.is_empty() {
            return Ok(());
        }
        Err(expected(w.from, what))
    }

    #[tactic(auto, unfolding(crate::specs::Pieces::byte_from))]
    pub fn byte(self) -> Found<u8>
        ensures { result ≡ byte_from self.entry.line.now self.entry.at }
    {
        let word = self.word();
        Found {
            value: byte_in(self.text(word)),
            word,
        }
    }

    #[tactic(auto, unfolding(crate::specs::Pieces::number_from))]
    pub fn number(self) -> Found<u8>
        ensures { result ≡ number_from self.entry.line.now self.entry.at }
    {
        let word = self.word();
        Found {
            value: number_in(self.text(word)),
            word,
        }
    }

    #[tactic(auto, unfolding(crate::specs::Pieces::target_from))]
    pub fn target(self) -> Found<Aim>
        ensures { result ≡ target_from self.entry.line.now self.entry.at }
    {
        let word = self.word();
        Found {
            value: target_in(self.text(word)),
            word,
        }
    }

    #[tactic(auto, unfolding(crate::specs::Pieces::mask_from))]
    pub fn mask(self) -> Found<Mask>
        ensures { result ≡ mask_from self.entry.line.now self.entry.at }
    {
        let word = self.word();
        Found {
            value: mask_in(self.text(word)),
            word,
        }
    }
}
