// A file saved whole: whenever the program or the machine stops, the path has the old bytes or the new ones, each from the first to the last.
ghost use Rattle.std.specs.Prelude.{◌≤◌, length};

use crate::args::PATH_MAX;
use crate::file::path_text;
use print::fail::fail;
use print::line::Line;
use std::fs::{File, OpenOptions};
use std::io::{ErrorKind, Write};
use std::random::RandomSource;
use std::{fs, io};

const LAST: usize = PATH_MAX - 1;

const NAME_MAX: usize = PATH_MAX + 7;

// The system's number for a path that is too long.
const ENAMETOOLONG: i32 = 36;

// Whether a path is a symbolic link.
fn is_link(rt: &HostRuntime, path: &str) -> bool {
    fs::symlink_metadata(rt, path).is_ok_and(|found| found.is_symlink())
}

// Where the name in a path begins: behind the last slash.
fn name_start(path: &[u8]) -> usize
    ensures { result ≤ length path.now }
{
    path.iter()
        .rposition(|c| *c == b'/')
        .map_or(0, |slash| slash + 1)
}

// Has the system keep the names in a folder as they are now.
fn keep_names(rt: &HostRuntime, folder: &[u8]) -> io::Result<()> {
    let open = fs::open(rt, path_text(folder)?)?;
    open.sync_all()
}

// The same of the folder that a path's name stands in.
fn keep_name(rt: &HostRuntime, path: &[u8]) -> io::Result<()> {
    let n = name_start(path);
    if n == 0 {
        return keep_names(rt, b".");
    }
    keep_names(rt, &path[0..n])
}

// Writes bytes, has the system keep them, and closes the file.
fn keep(mut file: File, bytes: &[u8]) -> io::Result<()> {
    file.write_all(bytes)?;
    file.sync_all()
}

// Writes bytes and closes what takes them, which may be none that the system can keep.
fn hand_over(mut file: File, bytes: &[u8]) -> io::Result<()> {
    file.write_all(bytes)?;
    let _ = file.sync_all();
    Ok(())
}

// Makes the file under another name, which must be free.
fn make(rt: &HostRuntime, name: &str, bytes: &[u8]) -> io::Result<()> {
    let made = OpenOptions::new()
        .write(true)
        .create_new(true)
        .open(rt, name)?;
    let kept = keep(made, bytes);
    if kept.is_err() {
        let _ = fs::remove_file(rt, name);
    }
    kept
}

// Moves a file from its name to a path, or removes it where that fails.
fn rename(rt: &HostRuntime, name: &str, path: &str) -> io::Result<()> {
    let moved = fs::rename(rt, name, path);
    if moved.is_err() {
        let _ = fs::remove_file(rt, name);
    }
    moved
}

// Makes the file under another name, and moves it to its path when it is whole.
fn move_in(rt: &HostRuntime, name: &[u8], path: &[u8], bytes: &[u8]) -> io::Result<()> {
    let beside = path_text(name)?;
    make(rt, beside, bytes)?;
    rename(rt, beside, path_text(path)?)?;
    keep_name(rt, path)
}

// The name beside a path: a dot and six digits behind it.
fn put_name(name: &mut Line, path: &[u8], draw: [u8; 3]) {
    name.put(path);
    name.put(b".");
    for b in draw {
        name.byte(b);
    }
}

// Puts a new file in the place of a path.
fn replace(rt: &HostRuntime, path: &[u8], bytes: &[u8]) -> io::Result<()> {
    if LAST < path.len() {
        return Err(io::Error::from_raw_os_error(ENAMETOOLONG));
    }
    let mut draw = [0u8; 3];
    rt.fill_bytes(&mut draw)?;
    let mut room = [0u8; NAME_MAX];
    let mut name = Line::new(&mut room);
    put_name(&mut name, path, draw);
    move_in(rt, name.text(), path, bytes)
}

// What stands at a path takes bytes: a device or a pipe, which the system has nothing to keep of, is written to; a new file takes the place of any
// other.
fn save_over(rt: &HostRuntime, old: File, path: &[u8], bytes: &[u8]) -> io::Result<()> {
    match old.sync_all() {
        Ok(()) => {
            drop(old);
            replace(rt, path, bytes)
        }
        Err(why) if why.kind() == ErrorKind::InvalidInput => {
            let _ = old.set_len(0);
            hand_over(old, bytes)
        }
        Err(why) => Err(why),
    }
}

// A link is followed; where nothing stands, a new file is made.
fn save_at(rt: &HostRuntime, path: &[u8], bytes: &[u8]) -> io::Result<()> {
    let text = path_text(path)?;
    if is_link(rt, text) {
        return hand_over(fs::create(rt, text)?, bytes);
    }
    match OpenOptions::new().append(true).open(rt, text) {
        Ok(old) => save_over(rt, old, path, bytes),
        Err(why) if why.kind() == ErrorKind::NotFound => replace(rt, path, bytes),
        Err(why) => Err(why),
    }
}

// Saves bytes at a path, and says whether they are safe there. If not, the cause is written to standard error.
pub fn save(rt: &HostRuntime, path: &[u8], bytes: &[u8]) -> bool {
    match save_at(rt, path, bytes) {
        Ok(()) => true,
        Err(why) => {
            fail(rt, path, why);
            false
        }
    }
}
