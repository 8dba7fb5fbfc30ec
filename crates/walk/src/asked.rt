// The AFI that the word behind --afi names.
ghost use Rattle.std.specs.Prelude.{◌≡◌};
ghost use Rattle.text.specs.Hex.{value_of};
ghost use Rattle.walk.specs.AfiWord.{by_digits, afi_in};

use text::hex::value;

#[tactic(auto, unfolding(crate::specs::AfiWord::by_digits))]
fn by_digits(c: u8, d: u8) -> Option<u8>
    ensures { result ≡ by_digits (value_of c) (value_of d) }
{
    Some(value(c)? * 16 + value(d)?)
}

// Two hex digits and nothing else: a mistyped AFI must not ask for another family.
#[tactic(auto, unfolding(crate::specs::AfiWord::afi_in))]
pub fn afi_in(word: &[u8]) -> Option<u8>
    ensures { result ≡ afi_in word.now }
{
    match word {
        [c, d] => by_digits(*c, *d),
        _ => None,
    }
}
