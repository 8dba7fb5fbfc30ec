// UIDs, eight bytes kept together, and how they end.
ghost use Rattle.std.specs.Prelude.{◌≡◌, ◌+◌, ◌≤◌, ◌<◌, ◌^◌, ◌/◌, ◌%◌, eqb, length};
ghost use Rattle.frame.specs.Number.{num, part};
ghost use Rattle.frame.specs.Ending.{ends_in, ends_in_slot, bytes_for, mask_at};

use crate::number::number_at;

// A UID as one number.
pub fn uid_number(u: [u8; 8]) -> u64
    ensures { result ≡ num u }
{
    u64::from_le_bytes(u)
}

// The UID at a place of a slice.
pub fn uid_at(s: &[u8], at: usize) -> [u8; 8]
    requires { at + 8 ≤ length s.now }
    ensures { result ≡ part at 8 s.now }
{
    let mut uid = [0; 8];
    uid.copy_from_slice(&s[at..at + 8]);
    uid
}

// Eight bytes at a place as one number, read at once.
pub fn eight_at(s: &[u8], at: usize) -> u64
    requires { at + 8 ≤ length s.now }
    ensures { result ≡ num (part at 8 s.now) }
{
    uid_number(uid_at(s, at))
}

// Whether two UIDs are the same. By their numbers: to prove `u == v` the bytes would have to be known below 256, which an array's are not.
pub fn same_uid(u: [u8; 8], v: [u8; 8]) -> bool
    ensures { result ≡ eqb (num u) (num v) }
{
    uid_number(u) == uid_number(v)
}

// Two to the power of bits.
#[tactic(auto, using(crate::proofs::Ending::one_shl))]
pub fn pow2(bits: u32) -> u64
    requires { bits < 64 }
    ensures { result ≡ 2 ^ bits }
{
    1u64 << bits
}

// The low bits of a number, so many of them, and what is above them.
#[tactic(auto, using(crate::proofs::Ending::low_whole))]
pub fn low_bits(n: u64, bits: u32) -> u64
    ensures { result ≡ n % 2 ^ bits }
{
    if bits < 64 { n % pow2(bits) } else { n }
}

#[tactic(auto, using(crate::proofs::Ending::high_zeros))]
pub fn high_bits(n: u64, bits: u32) -> u64
    ensures { result ≡ n / 2 ^ bits }
{
    if bits < 64 { n / pow2(bits) } else { 0 }
}

// Whether a UID ends in a mask of so many bits: the whole bytes are compared as one number, then the odd bits above them.
pub fn ends_in(u: [u8; 8], mask: u64, bits: u32) -> bool
    ensures { result ≡ ends_in u mask bits }
{
    let n = uid_number(u);
    if bits < 8 {
        return low_bits(n, bits) == mask;
    }
    let odd = bits % 8;
    let whole = bits - odd;
    low_bits(n, whole) == low_bits(mask, whole)
        && low_bits(high_bits(n, whole), odd) == high_bits(mask, whole)
}

// Whether a UID ends in a mask of so many bits with the slot above it.
#[tactic(auto, unfolding(crate::specs::Ending::ends_in_slot))]
pub fn ends_in_slot(u: [u8; 8], mask: u64, bits: u32, slot: u8) -> bool
    ensures { result ≡ ends_in_slot u mask bits slot }
{
    ends_in(u, mask, bits) && high_bits(uid_number(u), bits) % 16 == u64::from(slot)
}

// The mask of so many bits at a place of a frame, what is above it ignored.
#[tactic(auto, using(crate::proofs::Ending::mask_lt), unfolding(crate::specs::Ending::bytes_for, crate::specs::Ending::mask_at))]
pub fn mask_at(s: &[u8], at: usize, bits: u32) -> u64
    requires { (bits ≤ 64) × (at + bytes_for bits ≤ length s.now) }
    ensures { (result ≡ mask_at s.now at bits) × (result < 2 ^ bits) }
{
    let k = ((bits + 7) / 8) as usize;
    low_bits(number_at(s, at, k), bits)
}
