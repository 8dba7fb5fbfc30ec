// Numbers from bytes, least significant first.
ghost use Rattle.std.specs.Prelude.{◌≡◌, ◌+◌, ◌≤◌, length, get_or};
ghost use Rattle.frame.specs.Number.{num, part};

// The byte of s at a place, or 0 past its end.
pub fn byte_at(s: &[u8], at: usize) -> u8
    ensures { result ≡ get_or s.now at 0 }
{
    s.get(at).copied().unwrap_or(0)
}

// The number of at most eight bytes.
#[tactic(auto, using(crate::proofs::Numbers::behind_none, crate::proofs::Numbers::behind_more, crate::proofs::Numbers::behind_all))]
pub fn number_of(s: &[u8]) -> u64
    requires { length s.now ≤ 8 }
    ensures { result ≡ num s.now }
{
    let mut n = 0;
    for b in s.iter().rev() {
        n = n * 256 + u64::from(*b);
    }
    n
}

// The number of the k bytes at a place.
pub fn number_at(s: &[u8], at: usize, k: usize) -> u64
    requires { (k ≤ 8) × (at + k ≤ length s.now) }
    ensures { result ≡ num (part at k s.now) }
{
    let end = at + k;
    number_of(&s[at..end])
}

// Four bytes as a block, read at once.
pub fn word_at(s: &[u8], at: usize) -> u32
    requires { at + 4 ≤ length s.now }
    ensures { result ≡ num (part at 4 s.now) }
{
    let mut word = [0; 4];
    word.copy_from_slice(&s[at..at + 4]);
    u32::from_le_bytes(word)
}
