// Bytes into a buffer that is lent: each function writes a run from a place on, and every other byte stays.
ghost use Rattle.std.specs.Prelude.{◌≡◌, ◌+◌, ◌≤◌, length, take};
ghost use Rattle.std.proofs.lemmas.List.Edits.{sets};
ghost use Rattle.frame.specs.Number.{bytes_of};

// Writes the k low bytes of v, least significant first, and returns the place behind them.
#[tactic(auto, using(crate::proofs::Puts::number_none, crate::proofs::Puts::number_more, crate::proofs::Puts::number_all))]
pub fn put_number(out: &mut [u8], at: usize, v: u64, k: usize) -> usize
    requires { at + k ≤ length out.old }
    ensures { (result ≡ at + k) × (out.new ≡ sets out.old at (bytes_of k v)) }
{
    let mut w = v;
    for i in 0..k {
        out[at + i] = (w % 256) as u8;
        w /= 256;
    }
    at + k
}

// Writes the first n bytes of src, and returns the place behind them.
// A loop: a copy of the whole part asks the C library for `memmove`, which the archive for C would then need from outside.
#[tactic(auto, using(crate::proofs::Puts::copy_none, crate::proofs::Puts::copy_more, crate::proofs::Puts::copy_all))]
pub fn put_bytes(out: &mut [u8], at: usize, src: &[u8], n: usize) -> usize
    requires { (at + n ≤ length out.old) × (n ≤ length src.now) }
    ensures { (result ≡ at + n) × (out.new ≡ sets out.old at (take n src.now)) }
{
    for i in 0..n {
        out[at + i] = src[i];
    }
    at + n
}
