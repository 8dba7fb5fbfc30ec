// A part of a body, put behind what stands in the buffer and sealed: how answers end.
ghost use Rattle.std.specs.Prelude.{◌≡◌, ◌++◌, ◌+◌, ◌≤◌, length, take};
ghost use Rattle.std.proofs.lemmas.List.Edits.{sets};
ghost use Rattle.frame.specs.Number.{part};
ghost use Rattle.frame.specs.CheckSum.{framed};

use crate::check_sum::seal;
use crate::put::put_bytes;

// Puts k bytes of b, from a place on, behind the first n bytes of out, and the check sum of all these behind them; returns the place behind it.
pub fn seal_part(out: &mut [u8], n: usize, b: &[u8], at: usize, k: usize) -> usize
    requires { (at + k ≤ length b.now) × (n + k + 2 ≤ length out.old) }
    ensures { (result ≡ n + k + 2) × (out.new ≡ sets out.old 0 (framed (take n out.old ++ part at k b.now))) }
{
    let end = at + k;
    let m = put_bytes(out, n, &b[at..end], k);
    seal(out, m)
}
