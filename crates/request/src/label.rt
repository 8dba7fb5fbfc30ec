// What an event asks of labels, whatever the label.
ghost use Rattle.std.specs.Prelude.{◌≡◌, ◌≤◌, ◌<◌, length};
ghost use Rattle.request.specs.Label.{bare, nobody, most, masked, inventory, is_one, target_fits, faulty, by_row, call};
ghost use Rattle.request.specs.Label.{addressed, unaddressed, addressing, decode, heard, data_of};

use crate::table::{Row, Task, find, has_answer, option_fits};
use frame::check_sum::is_right;
use frame::number::byte_at;
use frame::uid::{mask_at, uid_at};

#[derive(Clone, Copy)]
pub enum Target {
    Everyone,
    Selected,
    // The UID stands beside the call.
    One,
}

// The family asked for: any, or an AFI byte. No Option: without an AFI a reader asks for every family, and None would read as for none.
#[derive(Clone, Copy)]
pub enum Family {
    Any,
    Only(u8),
}

// The parameters of a task, a byte each; 0 where it has none.
#[derive(Clone, Copy)]
pub struct Params {
    pub first: u8,
    pub second: u8,
}

#[derive(Clone, Copy)]
pub enum Call {
    // An event that labels ignore.
    Ignored,
    Off,
    On,
    EndOfFrame,
    // A label frame that no label acts on.
    Nobody,
    // Family, whether sixteen slots, mask length, mask.
    Inventory(Family, bool, u8, u64),
    // An error that needs no label: unknown code, length, Option.
    Fault(Target, u8),
    // A task, its parameters and Option. The bytes of a write stand beside the request.
    Do(Target, Task, Params, bool),
}

#[derive(Clone, Copy)]
pub struct Request {
    pub uid: [u8; 8],
    pub call: Call,
}

// A call with no UID.
fn bare_call(call: Call) -> Request
    ensures { result ≡ bare call }
{
    Request { uid: [0; 8], call }
}

// A label frame that no label acts on.
fn nobody() -> Request
    ensures { result ≡ nobody }
{
    bare_call(Call::Nobody)
}

// The longest mask.
pub fn most_bits(sixteen: bool) -> u8
    ensures { (result ≡ most sixteen) × (result ≤ 64) }
{
    if sixteen { 60 } else { 64 }
}

// An Inventory whose mask length stands at a place.
fn masked_call(family: Family, sixteen: bool, at: usize, f: &[u8]) -> Request
    requires { (4 ≤ length f.now) × (at ≤ 3) }
    ensures { result ≡ masked family sixteen at f.now }
{
    let m = f[at];
    let longest = most_bits(sixteen);
    if longest < m {
        return nobody();
    }
    let bits = m as u32;
    let bytes = ((bits + 7) / 8) as usize;
    if f.len() != at + 3 + bytes {
        return nobody();
    }
    let mask = mask_at(f, at + 1, bits);
    bare_call(Call::Inventory(family, sixteen, m, mask))
}

// A frame with Inventory set.
fn inventory_frame(f: &[u8]) -> Request
    requires { 4 ≤ length f.now }
    ensures { result ≡ inventory f.now }
{
    let flags = f[0];
    if f[1] != 1 {
        return nobody();
    }
    if flags / 64 % 2 == 1 {
        return nobody();
    }
    let one = flags / 32 % 2;
    if flags / 16 % 2 == 1 {
        let afi = f[2];
        return masked_call(Family::Only(afi), one == 0, 3, f);
    }
    masked_call(Family::Any, one == 0, 2, f)
}

pub fn is_one(to: Target) -> bool
    ensures { result ≡ is_one to }
{
    matches!(to, Target::One)
}

// Whether a row's task can be asked of a target: some take one UID only.
pub fn target_fits(row: Row, to: Target) -> bool
    ensures { result ≡ target_fits row to }
{
    !row.one || is_one(to)
}

// An error, of a task that has an answer.
fn fault(to: Target, row: Row, code: u8) -> Call
    ensures { result ≡ faulty to row code }
{
    if has_answer(row.success) {
        Call::Fault(to, code)
    } else {
        Call::Nobody
    }
}

// What a frame with parameters ps asks, by its code's row.
fn row_call(to: Target, option: bool, ps: &[u8], row: Row) -> Call
    ensures { result ≡ by_row to option ps.now row }
{
    if !target_fits(row, to) {
        return Call::Nobody;
    }
    let task = row.task;
    let first = byte_at(ps, 0);
    if row.block {
        let p = Params { first, second: 0 };
        return Call::Do(to, task, p, option);
    }
    if ps.len() + 4 != row.len as usize {
        return fault(to, row, 2);
    }
    if !option_fits(row, option) {
        return fault(to, row, 3);
    }
    let second = byte_at(ps, 1);
    let p = Params { first, second };
    Call::Do(to, task, p, option)
}

// What a frame with code c and parameters ps asks.
#[tactic(auto, unfolding(crate::specs::Label::call, crate::specs::Label::checked))]
fn call_of(to: Target, c: u8, option: bool, ps: &[u8]) -> Call
    ensures { result ≡ call to c option ps.now }
{
    if c == 1 {
        return Call::Nobody;
    }
    match find(c) {
        Some(row) => row_call(to, option, ps, row),
        None => Call::Fault(to, 1),
    }
}

// A frame with Address set.
fn addressed_frame(f: &[u8], option: bool) -> Request
    requires { 4 ≤ length f.now }
    ensures { result ≡ addressed f.now option }
{
    if f.len() < 12 {
        return nobody();
    }
    let uid = uid_at(f, 2);
    let end = f.len() - 2;
    let call = call_of(Target::One, f[1], option, &f[10..end]);
    Request { uid, call }
}

// A frame with Address clear.
fn open_frame(f: &[u8], to: Target, option: bool) -> Request
    requires { 4 ≤ length f.now }
    ensures { result ≡ unaddressed f.now to option }
{
    let end = f.len() - 2;
    bare_call(call_of(to, f[1], option, &f[2..end]))
}

// What a label frame asks.
pub fn decode_frame(f: &[u8]) -> Request
    ensures { result ≡ decode f.now }
{
    if f.len() < 4 {
        return nobody();
    }
    let flags = f[0];
    if flags / 8 % 2 == 1 {
        return nobody();
    }
    if flags / 128 % 2 == 1 {
        return nobody();
    }
    if is_right(f) {
        return right_frame(f, flags);
    }
    nobody()
}

// A frame of 4 bytes or more with its check sum right and flag bits 3 and 7 clear.
fn right_frame(f: &[u8], flags: u8) -> Request
    requires { 4 ≤ length f.now }
    ensures { result ≡ addressing f.now flags }
{
    if flags / 4 % 2 == 1 {
        return inventory_frame(f);
    }
    let option = flags / 64 % 2 == 1;
    if flags / 32 % 2 == 1 {
        if flags / 16 % 2 == 1 {
            return nobody();
        }
        return addressed_frame(f, option);
    }
    if flags / 16 % 2 == 1 {
        return open_frame(f, Target::Selected, option);
    }
    open_frame(f, Target::Everyone, option)
}

// What event `number` with frame f asks. A number here and above, and no enum: any byte may be given, and one that names no event is told as such.
#[tactic(auto, unfolding(crate::specs::Label::heard))]
pub fn hear(number: u8, f: &[u8]) -> Request
    ensures { result ≡ heard number f.now }
{
    match number {
        1 => bare_call(Call::Off),
        2 => bare_call(Call::On),
        3 => decode_frame(f),
        4 => bare_call(Call::EndOfFrame),
        _ => bare_call(Call::Ignored),
    }
}

// The bytes to be written that a frame holds, where it writes a block: behind the block number, up to the check sum.
pub fn data_of(f: &[u8]) -> &[u8]
    ensures { result.now ≡ data_of f.now }
{
    if f.len() < 13 {
        return short_data(f);
    }
    let end = f.len() - 2;
    if f[0] / 32 % 2 == 1 {
        return &f[11..end];
    }
    &f[3..end]
}

// The same of a frame that is too short to hold data behind a UID.
fn short_data(f: &[u8]) -> &[u8]
    requires { length f.now < 13 }
    ensures { result.now ≡ data_of f.now }
{
    if f.len() < 5 {
        return &f[0..0];
    }
    if f[0] / 32 % 2 == 1 {
        return &f[0..0];
    }
    let end = f.len() - 2;
    &f[3..end]
}
