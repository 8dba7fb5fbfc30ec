// A file that an argument names, or standard input, read whole.
ghost use Rattle.std.specs.Prelude.{◌≤◌, length, IfSome};
ghost use Rattle.io.specs.Counts.{IsPrefixLen};

use crate::args::{PATH_MAX, path};
use print::fail::fail;
use std::io::Read;
use std::{fs, io};

// The system's number for bytes that are no text.
const EILSEQ: i32 = 84;

// A path as std takes it: in UTF-8.
pub fn path_text(path: &[u8]) -> io::Result<&str> {
    match std::str::from_utf8(path) {
        Ok(text) => Ok(text),
        Err(_) => Err(io::Error::from_raw_os_error(EILSEQ)),
    }
}

fn open(rt: &HostRuntime, path: &[u8]) -> io::Result<fs::File> {
    fs::open(rt, path_text(path)?)
}

// One read to the start of part: how many bytes came. None: it failed, and the cause was written to standard error, `name` before it.
pub fn read_part<R: Read>(
    rt: &HostRuntime,
    reader: &mut R,
    name: &[u8],
    part: &mut [u8],
) -> Option<usize>
    ensures { IfSome result (λ n. IsPrefixLen n part.new) }
{
    match reader.read(part) {
        Ok(n) => Some(n),
        Err(why) => {
            fail(rt, name, why);
            None
        }
    }
}

// Reads until out is full or the input ends: how many bytes came, or None where a read failed.
fn read_all<R: Read>(rt: &HostRuntime, reader: &mut R, name: &[u8], out: &mut [u8]) -> Option<usize>
    ensures { IfSome result (λ n. n ≤ length out.new) }
{
    let mut n = 0;

    // Not a `for`: a turn adds as many as its read brought.
    while n < out.len() {
        let more = read_part(rt, reader, name, &mut out[n..])?;
        if more == 0 {
            return Some(n);
        }
        n += more;
    }
    Some(n)
}

// Reads the file at a path to the front of out: its length, or None where it failed, which is written to standard error.
fn load_path(rt: &HostRuntime, path: &[u8], out: &mut [u8]) -> Option<usize>
    ensures { IfSome result (λ n. n ≤ length out.new) }
{
    match open(rt, path) {
        Ok(mut file) => read_all(rt, &mut file, path, out),
        Err(why) => {
            fail(rt, path, why);
            None
        }
    }
}

// Reads the file that argument i names to the front of out: its length, or None where it failed, which is written to standard error; `name` stands
// for the argument where it is too long for a path. Not inlined, so that the stack holds its path no longer than it reads.
#[inline(never)]
pub fn load(rt: &HostRuntime, i: usize, name: &[u8], out: &mut [u8]) -> Option<usize>
    ensures { IfSome result (λ n. n ≤ length out.new) }
{
    let mut named = [0u8; PATH_MAX];
    let n = path(rt, i, name, &mut named)?;
    load_path(rt, &named[..n], out)
}

// Reads standard input to the front of out: its length, or None where it failed, which is written to standard error.
pub fn load_input(rt: &HostRuntime, out: &mut [u8]) -> Option<usize>
    ensures { IfSome result (λ n. n ≤ length out.new) }
{
    let mut input = rt.stdin();
    read_all(rt, &mut input, b"input", out)
}
