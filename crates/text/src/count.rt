// A number in decimal, as one counts: 0 to 999,999,999.
ghost use Rattle.std.specs.Prelude.{◌≡◌, ◌≤◌, length};
ghost use Rattle.text.specs.Count.{decimal_in, count_in};

// Decimal digits and nothing else.
fn decimal_in(word: &[u8]) -> Option<u64>
    requires { length word.now ≤ 9 }
    ensures { result ≡ decimal_in word.now }
{
    let mut n: u64 = 0;
    for c in word {
        if !c.is_ascii_digit() {
            return None;
        }
        n = n * 10 + (*c - b'0') as u64;
    }
    Some(n)
}

// A number of one to nine decimal digits.
#[tactic(auto, unfolding(crate::specs::Count::count_in))]
pub fn count_in(word: &[u8]) -> Option<u64>
    ensures { result ≡ count_in word.now }
{
    if word.is_empty() || 9 < word.len() {
        return None;
    }
    decimal_in(word)
}
