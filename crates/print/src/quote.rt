// Bytes that can be read as text.
ghost use Rattle.std.specs.Prelude.{◌≡◌};
ghost use Rattle.print.specs.Quote.{visible, printable};

// Whether a byte is a character of ASCII that shows: 20 to 7E.
#[tactic(auto, unfolding(crate::specs::Quote::visible))]
pub fn is_visible(b: u8) -> bool
    ensures { result ≡ visible b }
{
    matches!(b, b' '..=b'~')
}

// Whether every byte shows.
pub fn is_printable(s: &[u8]) -> bool
    ensures { result ≡ printable s.now }
{
    s.iter().all(|b| is_visible(*b))
}
