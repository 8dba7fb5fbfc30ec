// The request writer.
ghost use Rattle.std.specs.Prelude.{◌≡◌, ◌+◌, ◌*◌, ◌^◌, ◌≤◌, ◌<◌, length, if◌then◌else◌};
ghost use Rattle.frame.specs.CheckSum.{framed};
ghost use Rattle.frame.specs.Ending.{bytes_for};
ghost use Rattle.reader.specs.Request.{mode, flags, at_front, written_as, Wrote};
ghost use Rattle.reader.specs.Plan.{low, none, parts_of, uid_count, label_plan, short_plan, mask_plan, inventory_plan, chip_plan, plan_of};
ghost use Rattle.reader.specs.Plan.{RangedFamily, RangedChip, Ranged, PlanFits};

use crate::command::{ChipTask, Command, is_valid};
use frame::check_sum::seal;
use frame::put::{put_bytes, put_number};
use frame::refusal::Refusal;
use request::label::{Family, Params, Target};
use request::table::{Row, row_of};

// The room that every output buffer has.
const LEAST: usize = 64;

// What the writer comes back with: the refusal's number or 0, and the request's length. C gets it as it stands.
#[repr(C)]
#[derive(Clone, Copy)]
pub struct Written {
    pub number: u8,
    pub length: usize,
}

impl From<Result<usize, Refusal>> for Written {
    ghost from_gives = { λ asked told. told ≡ written_as asked };

    fn from(asked: Result<usize, Refusal>) -> Written {
        match asked {
            Ok(length) => Written { number: 0, length },
            Err(why) => Written {
                number: why.number(),
                length: 0,
            },
        }
    }
}

// The low bytes of a number, so many of them.
#[derive(Clone, Copy)]
pub struct Low {
    pub number: u64,
    pub bytes: usize,
}

const NONE: Low = Low {
    number: 0,
    bytes: 0,
};

// What a request is made of, one behind the other: a number, bytes of the UID, two more numbers, data.
#[derive(Clone, Copy)]
pub struct Plan {
    pub head: Low,
    pub uids: usize,
    pub par: Low,
    pub mask: Low,
    pub datas: usize,
}

// Two bytes, the first one low.
fn two(first: u64, second: u8) -> Low
    requires { first < 2 ^ 32 }
    ensures { (result ≡ low (first + 256 * second) 2) × (second < 256) }
{
    Low {
        number: first + 256 * u64::from(second),
        bytes: 2,
    }
}

// Flag bit 4 is Select, bit 5 is Address.
fn mode_of(to: Target) -> u64
    ensures { (result ≡ mode to) × (result ≤ 32) }
{
    match to {
        Target::Everyone => 0,
        Target::Selected => 16,
        Target::One => 32,
    }
}

fn uid_count(to: Target) -> usize
    ensures { result ≡ uid_count to }
{
    match to {
        Target::Everyone => 0,
        Target::Selected => 0,
        Target::One => 8,
    }
}

// Flag bit 6 is Option.
fn option_flag(option: bool) -> u64
    ensures { (result ≡ (if option then 64 else 0)) × (result ≤ 64) }
{
    if option { 64 } else { 0 }
}

// In an Inventory flag bit 5 is one slot.
fn slot_flag(sixteen: bool) -> u64
    ensures { (result ≡ (if sixteen then 0 else 32)) × (result ≤ 32) }
{
    if sixteen { 0 } else { 32 }
}

// Bit 1 is set, and the flags of a target and of Option.
fn flags_of(to: Target, option: bool) -> u64
    ensures { (result ≡ flags to option) × (result ≤ 98) }
{
    2 + mode_of(to) + option_flag(option)
}

// How many bytes of data go with a row.
fn data_count(row: Row, n: usize) -> usize
    ensures { result ≡ (if row.block then n else 0) }
{
    if row.block { n } else { 0 }
}

// Flags, code and the UID where one is named; then the parameters that the row has, and n of data.
fn label_plan(to: Target, option: bool, row: Row, p: Params, n: usize) -> Plan
    requires { 4 ≤ row.len }
    ensures { (result ≡ label_plan to option row p n) × ((p.first < 256) × (p.second < 256)) }
{
    Plan {
        head: two(flags_of(to, option), row.code),
        uids: uid_count(to),
        par: Low {
            number: u64::from(p.first) + 256 * u64::from(p.second),
            bytes: row.len as usize - 4,
        },
        mask: NONE,
        datas: data_count(row, n),
    }
}

// A number's low bytes, and n of data.
fn short_plan(head: Low, n: usize) -> Plan
    ensures { result ≡ short_plan head n }
{
    Plan {
        head,
        uids: 0,
        par: NONE,
        mask: NONE,
        datas: n,
    }
}

// A code and a byte, and n of data.
fn pair_plan(code: u8, p: u8, n: usize) -> Plan
    ensures { (result ≡ short_plan (low (code + 256 * p) 2) n) × (p < 256) }
{
    short_plan(two(u64::from(code), p), n)
}

// One byte alone.
fn byte_plan(v: u64) -> Plan
    ensures { result ≡ short_plan (low v 1) 0 }
{
    short_plan(
        Low {
            number: v,
            bytes: 1,
        },
        0,
    )
}

// A slot marker.
fn marker_plan(s: u8) -> Plan
    ensures { (result ≡ short_plan (low (s * 16 + 6) 1) 0) × (s < 256) }
{
    byte_plan(u64::from(s) * 16 + 6)
}

#[tactic(auto, unfolding(crate::specs::Plan::chip_plan, crate::specs::Plan::RangedChip))]
fn chip_plan(task: ChipTask, n: usize) -> Plan
    ensures { (result ≡ chip_plan task n) × RangedChip task }
{
    match task {
        ChipTask::Initiate => pair_plan(0x06, 0x00, 0),
        ChipTask::Pcall => pair_plan(0x06, 0x04, 0),
        ChipTask::Marker(s) => marker_plan(s),
        ChipTask::Select(id) => pair_plan(0x0E, id, 0),
        ChipTask::Completion => byte_plan(0x0F),
        ChipTask::Reset => byte_plan(0x0C),
        ChipTask::Read(a) => pair_plan(0x08, a, 0),
        ChipTask::Uid => byte_plan(0x0B),
        ChipTask::Write(a) => pair_plan(0x09, a, n),
    }
}

// As few bytes as hold so many bits.
#[tactic(auto, unfolding(frame::specs::Ending::bytes_for))]
fn mask_bytes(bits: u8) -> usize
    ensures { result ≡ bytes_for bits }
{
    (bits as usize + 7) / 8
}

// Flags and code 01, a number, the mask in as few bytes as hold it.
fn mask_plan(flags: u8, sixteen: bool, par: Low, bits: u8, mask: u64) -> Plan
    ensures { result ≡ mask_plan flags sixteen par bits mask }
{
    Plan {
        head: two(u64::from(flags) + slot_flag(sixteen), 1),
        uids: 0,
        par,
        mask: Low {
            number: mask,
            bytes: mask_bytes(bits),
        },
        datas: 0,
    }
}

// With an AFI before the mask's length.
fn family_plan(afi: u8, sixteen: bool, bits: u8, mask: u64) -> Plan
    ensures { (result ≡ mask_plan 22 sixteen (low (afi + 256 * bits) 2) bits mask) × (afi < 256) }
{
    mask_plan(22, sixteen, two(u64::from(afi), bits), bits, mask)
}

#[tactic(auto, unfolding(crate::specs::Plan::inventory_plan, crate::specs::Plan::RangedFamily))]
fn inventory_plan(family: Family, sixteen: bool, bits: u8, mask: u64) -> Plan
    ensures { (result ≡ inventory_plan family sixteen bits mask) × RangedFamily family }
{
    match family {
        Family::Any => {
            let par = Low {
                number: u64::from(bits),
                bytes: 1,
            };
            mask_plan(6, sixteen, par, bits, mask)
        }
        Family::Only(afi) => family_plan(afi, sixteen, bits, mask),
    }
}

#[tactic(auto, unfolding(crate::specs::Plan::plan_of, crate::specs::Plan::Ranged), using(request::proofs::TableRows::row_fine))]
fn plan_for(c: Command, n: usize) -> Plan
    ensures { (result ≡ plan_of c n) × Ranged c }
{
    match c {
        Command::Inventory(_, _, family, sixteen, bits, mask) => {
            inventory_plan(family, sixteen, bits, mask)
        }
        Command::Label(to, option, task, p) => label_plan(to, option, row_of(task), p, n),
        Command::Chip(_, _, task) => chip_plan(task, n),
        Command::Other(_, _) => short_plan(NONE, 0),
    }
}

// Writes what a plan says to the front of out, and the check sum behind it; comes back with how long that is.
fn lay(p: Plan, uid: [u8; 8], data: &[u8], out: &mut [u8]) -> usize
    requires { PlanFits p (length «data».now) (length out.old) }
    ensures { (result ≡ length (framed (parts_of p uid «data».now)))
        × (out.new ≡ at_front (framed (parts_of p uid «data».now)) out.old) }
{
    let a = put_number(out, 0, p.head.number, p.head.bytes);
    let b = put_bytes(out, a, &uid, p.uids);
    let d = put_number(out, b, p.par.number, p.par.bytes);
    let e = put_number(out, d, p.mask.number, p.mask.bytes);
    let f = put_bytes(out, e, data, p.datas);
    seal(out, f)
}

// The same as `write_request`, whose length or refusal it gives.
pub fn try_write(c: Command, uid: [u8; 8], data: &[u8], out: &mut [u8]) -> Result<usize, Refusal>
    ensures { Wrote c uid «data».now out.old (written_as result) out.new }
{
    if out.len() < LEAST {
        return Err(Refusal::Room);
    }
    if !is_valid(c, data.len()) {
        return Err(Refusal::Fields);
    }
    Ok(lay(plan_for(c, data.len()), uid, data, out))
}

// Writes the request for c to the front of out: uid is the target's where c is for one UID, data what a write sends.
// Bytes behind it stay; a refusal changes nothing.
pub fn write_request(c: Command, uid: [u8; 8], data: &[u8], out: &mut [u8]) -> Written
    ensures { Wrote c uid «data».now out.old result out.new }
{
    Written::from(try_write(c, uid, data, out))
}
