// Check sums and endings of UIDs.
ghost use Rattle.std.specs.Prelude.{◌≤◌, length};

use frame::number::{byte_at, number_at};
use frame::put::put_bytes;
use frame::uid::uid_at;
use frame::{check_sum, uid};
use print::say::{print_bytes, say, say_byte};

// A name and a sum, low byte first as it is sent.
fn print_sum(rt: &HostRuntime, name: &[u8], sum: u16) {
    let [low, high] = sum.to_le_bytes();
    say_byte(rt, name, low);
    say_byte(rt, b" ", high);
}

// The bytes with their check sum, at the front of out: how many there are, or 0 where they have no room. No Option: both callers go on with none then.
pub fn seal_into(bytes: &[u8], out: &mut [u8]) -> usize
    ensures { result ≤ length out.new }
{
    let n = bytes.len();
    if out.len() < 2 || out.len() - 2 < n {
        return 0;
    }
    put_bytes(out, 0, bytes, n);
    check_sum::seal(out, n)
}

// The bytes with their check sum, and the byte behind them, which stays EE.
fn print_sealed(rt: &HostRuntime, bytes: &[u8]) {
    let mut out = [0xEEu8; 64];
    let n = seal_into(bytes, &mut out);
    print_bytes(rt, &out[0..n]);
    if n < 64 {
        say_byte(rt, b" ", out[n]);
    }
}

// The sum of ISO/IEC 13239 (start FFFF, inverted) in its place; that of Type A (start 6363, not inverted); the register after the bytes as a frame,
// and whether they are a right one.
pub fn sum(rt: &HostRuntime, bytes: &[u8]) {
    print_sealed(rt, bytes);
    print_sum(rt, b", type A ", check_sum::sum_with(0x6363, false, bytes));
    print_sum(rt, b", register ", check_sum::run(65535, bytes));
    if check_sum::is_right(bytes) {
        say(rt, b", right");
    } else {
        say(rt, b", wrong");
    }
}

fn ends(bytes: &[u8], u: [u8; 8], mask: u64, m: u32) -> bool {
    if bytes.len() == 17 {
        uid::ends_in(u, mask, m)
    } else {
        uid::ends_in_slot(u, mask, m, byte_at(bytes, 17))
    }
}

pub fn mask(rt: &HostRuntime, bytes: &[u8]) {
    if bytes.len() < 17 {
        return;
    }
    let u = uid_at(bytes, 0);
    let mask = number_at(bytes, 8, 8);
    let m = byte_at(bytes, 16) as u32;
    if ends(bytes, u, mask, m) {
        say(rt, b"yes");
    } else {
        say(rt, b"no");
    }
}
