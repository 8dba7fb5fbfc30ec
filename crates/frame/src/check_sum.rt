// The check sum of ISO/IEC 13239, two bytes at a time, and frames that end in it.
ghost use Rattle.std.specs.Prelude.{◌≡◌, ◌+◌, ◌*◌, ◌^◌, ◌≤◌, ◌<◌, length, take};
ghost use Rattle.std.specs.Int.Bits.{bit_xor};
ghost use Rattle.std.proofs.lemmas.List.Edits.{sets};
ghost use Rattle.frame.specs.Number.{bytes_of};
ghost use Rattle.frame.specs.CheckSum.{crc_bits, crc_byte, crc_run, crc_with, right_with, crc_of, right};

use crate::put::put_number;

// One byte: eight bits leave the register, which stands in the low half. What they add is a sum of shifts of them, so no table is read.
fn one_byte(r: u32, b: u8) -> u32
    requires { r < 2 ^ 16 }
    ensures { (result ≡ crc_byte r b) × (result < 2 ^ 16) }
{
    let x = r ^ (b as u32);
    let y = ((x << 8) ^ (x << 12)) % 65536;
    (x >> 8) ^ (y ^ (y >> 5) ^ (y >> 12))
}

// Two bytes: sixteen bits leave the register, and what leaves is again a sum of shifts.
fn two_bytes(r: u32, low: u8, high: u8) -> u32
    requires { r < 2 ^ 16 }
    ensures { (result ≡ crc_bits 16 (bit_xor r (low + high * 256))) × (result < 2 ^ 16) }
{
    let x = r ^ (low as u32 + high as u32 * 256);
    let y = (x ^ (x << 4) ^ (x << 8) ^ (x << 11) ^ (x << 12)) % 65536;
    y ^ (y >> 5) ^ (y >> 12)
}

// By pairs of bytes, and an odd one at the end. The register is kept in 32 bits: processors are slower in sixteen.
fn run_wide(start: u32, s: &[u8]) -> u32
    requires { start < 2 ^ 16 }
    ensures { (result ≡ crc_run start s.now) × (result < 2 ^ 16) }
{
    let (pairs, rest) = s.as_chunks::<2>();
    let mut r = start;
    for pair in pairs {
        r = two_bytes(r, pair[0], pair[1]);
    }
    match rest {
        [last] => one_byte(r, *last),
        _ => r,
    }
}

// The register after the bytes of s.
pub fn run(start: u16, s: &[u8]) -> u16
    ensures { result ≡ crc_run start s.now }
{
    run_wide(start as u32, s) as u16
}

// The check sum of s from a start, inverted or not.
#[tactic(auto, unfolding(crate::specs::CheckSum::crc_with))]
pub fn sum_with(start: u16, inverted: bool, s: &[u8]) -> u16
    ensures { result ≡ crc_with start inverted s.now }
{
    let r = run(start, s);
    if inverted { 65535 - r } else { r }
}

// Whether s is a frame that ends in its check sum: whether, run through, it leaves the residue.
pub fn right_with(start: u16, inverted: bool, s: &[u8]) -> bool
    ensures { result ≡ right_with start inverted s.now }
{
    let residue = if inverted { 0xF0B8 } else { 0 };
    2 <= s.len() && run(start, s) == residue
}

// Puts the check sum of the first n bytes of out behind them, and returns the place behind it.
pub fn seal_with(start: u16, inverted: bool, out: &mut [u8], n: usize) -> usize
    requires { n + 2 ≤ length out.old }
    ensures { (result ≡ n + 2) × (out.new ≡ sets out.old n (bytes_of 2 (crc_with start inverted (take n out.old)))) }
{
    let sum = sum_with(start, inverted, &out[0..n]);
    put_number(out, n, sum as u64, 2)
}

// The check sum of labels and chips: start FFFF, inverted.
pub fn sum_of(s: &[u8]) -> u16
    ensures { result ≡ crc_of s.now }
{
    sum_with(65535, true, s)
}

pub fn is_right(s: &[u8]) -> bool
    ensures { result ≡ right s.now }
{
    right_with(65535, true, s)
}

pub fn seal(out: &mut [u8], n: usize) -> usize
    requires { n + 2 ≤ length out.old }
    ensures { (result ≡ n + 2) × (out.new ≡ sets out.old n (bytes_of 2 (crc_of (take n out.old)))) }
{
    seal_with(65535, true, out, n)
}
