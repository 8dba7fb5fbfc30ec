// The calls for a station's test bench, in C: numbers, bytes with their length, plain structs. include/sackbutflare.h declares them.
#![tactic(auto)]

ghost use Rattle.std.specs.Prelude.{◌≡◌, length};
ghost use Rattle.frame.specs.CheckSum.{crc_of};
ghost use Rattle.event.specs.Event.{Replied};
ghost use Rattle.inventory.specs.Promise.{Reply};
ghost use Rattle.reader.specs.Request.{Wrote};
ghost use Rattle.answer.specs.Answer.{reading_of};
ghost use Rattle.face.specs.Fields.{family_of, uid_of, command_for};
ghost use Rattle.face.specs.Told.{told_of};
ghost use Rattle.station.specs.Version.{version};

use event::call::Report;
use face::fields::{Fields, command_for, family_of, uid_of};
use face::told::{Told, tell};
use frame::uid::uid_number;
use inventory::walk::Walked;
use reader::writer::Written;

// Plays an event on a rack.
#[unsafe(no_mangle)]
pub extern "C" fn sackbutflare_event(
    rack: &mut [u8],
    number: u8,
    frame: &[u8],
    draws: &[u8],
    answer: &mut [u8],
) -> Report
    ensures { Replied rack.old number frame.now draws.now answer.old result rack.new
        answer.new }
{
    event::call::event(rack, number, frame, draws, answer)
}

// Walks a rack.
#[unsafe(no_mangle)]
pub extern "C" fn sackbutflare_walk(
    rack: &mut [u8],
    given: bool,
    afi: u8,
    list: &mut [u8],
) -> Walked
    ensures { Reply (family_of given afi) rack.old rack.new list.old list.new result }
{
    let family = family_of(given, afi);
    inventory::walk::walk(rack, family, list)
}

// Writes the request of a command to the front of out. uid has eight bytes where the command is for one UID, and is not looked at for any other.
#[unsafe(no_mangle)]
pub extern "C" fn sackbutflare_write_request(
    f: Fields,
    uid: &[u8],
    data: &[u8],
    out: &mut [u8],
) -> Written
    ensures { Wrote (command_for f (length uid.now)) (uid_of uid.now) «data».now out.old result
        out.new }
{
    let c = command_for(f, uid.len());
    let u = uid_of(uid);
    reader::writer::write_request(c, u, data, out)
}

// Reads the answer to a command that was sent with n bytes of data.
#[tactic(auto, unfolding(face::specs::Told::told_of))]
#[unsafe(no_mangle)]
pub extern "C" fn sackbutflare_read_answer(f: Fields, uid: &[u8], n: usize, frame: &[u8]) -> Told
    ensures { result ≡ told_of (reading_of (command_for f (length uid.now)) (uid_of uid.now) n frame.now) }
{
    let c = command_for(f, uid.len());
    let u = uid_of(uid);
    let r = answer::reading::read_answer(c, u, n, frame);
    tell(r.meaning, uid_number(r.uid))
}

// The check sum of a frame's bytes, which follows them low byte first.
#[unsafe(no_mangle)]
pub extern "C" fn sackbutflare_check_sum(bytes: &[u8]) -> u16
    ensures { result ≡ crc_of bytes.now }
{
    frame::check_sum::sum_of(bytes)
}

// The edition of these calls that the archive was built for.
#[unsafe(no_mangle)]
pub extern "C" fn sackbutflare_version() -> u32
    ensures { result ≡ version }
{
    300
}
