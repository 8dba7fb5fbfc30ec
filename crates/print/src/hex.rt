// The digits of a byte in hex.
ghost use Rattle.std.specs.Prelude.{◌≡◌, ◌/◌, ◌%◌};
ghost use Rattle.print.specs.Hex.{digit_of};

// The capital digit of n, or `?` past 15.
#[tactic(auto, unfolding(crate::specs::Hex::digit_of))]
fn digit(n: u8) -> u8
    ensures { result ≡ digit_of n }
{
    match n {
        0..=9 => b'0' + n,
        10..=15 => 55 + n,
        _ => b'?',
    }
}

pub(crate) fn high(b: u8) -> u8
    ensures { result ≡ digit_of (b / 16) }
{
    digit(b / 16)
}

pub(crate) fn low(b: u8) -> u8
    ensures { result ≡ digit_of (b % 16) }
{
    digit(b % 16)
}
