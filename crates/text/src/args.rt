// The program's arguments: argument 0 is its name.
ghost use Rattle.std.specs.Prelude.{◌≤◌, length, IfSome};

use print::fail::fail;
use std::env::{Env, FillError};
use std::io;

// What the system takes for a path is shorter.
pub const PATH_MAX: usize = 4096;

// The system's numbers for an argument that it refuses.
const EINVAL: i32 = 22;

const ENAMETOOLONG: i32 = 36;

// More than any program takes.
const MOST: usize = 8;

// Whether there is an argument i.
fn has(rt: &HostRuntime, i: usize) -> bool {
    let mut none = [0u8; 0];
    !matches!(rt.arg(i, &mut none), Err(FillError::NotPresent))
}

// How many arguments there are, but 8 where there are more.
pub fn count(rt: &HostRuntime) -> usize
    ensures { result ≤ 8 }
{
    (0..MOST).position(|i| !has(rt, i)).unwrap_or(MOST)
}

// Argument i to the front of out, and its length: 0 where there is none, or no room for all of it.
pub fn word(rt: &HostRuntime, i: usize, out: &mut [u8]) -> usize
    ensures { result ≤ length out.new }
{
    rt.arg(i, out).unwrap_or(0)
}

// Argument i, which names a file, to the front of out, and its length. What fails is written to standard error, where `name` stands for the argument.
pub fn path(rt: &HostRuntime, i: usize, name: &[u8], out: &mut [u8; PATH_MAX]) -> Option<usize>
    ensures { IfSome result (λ n. n ≤ length out.new) }
{
    let why = match rt.arg(i, out) {
        Ok(n) => return Some(n),
        Err(FillError::TooLong) => ENAMETOOLONG,
        Err(FillError::NotPresent) => EINVAL,
    };
    fail(rt, name, io::Error::from_raw_os_error(why));
    None
}
