// Why a frame is one that no tag acts on.
ghost use Rattle.std.specs.Prelude.{◌≡◌, ◌≤◌, length};
ghost use Rattle.request.specs.Why.{is_nobody, is_ignored, why_masked, why_inventory, why_task, why_right, why_of, why_ignored};

use crate::chip::Order;
use crate::label::{Call, most_bits};
use frame::check_sum::is_right;

// The first thing about a label frame that leaves it without effect.
#[derive(Clone, Copy)]
pub enum Why {
    // Nothing: some label may act on it.
    Acts,
    Short,
    Bit3,
    Bit7,
    Sum,
    OtherCommand,
    InventoryOption,
    LongMask,
    OtherLength,
    BothBits,
    ShortForUid,
    Unflagged,
    WantsUid,
    QuietFault,
}

// The first thing about a chip frame that leaves it without effect.
#[derive(Clone, Copy)]
pub enum WhyChip {
    // Nothing: it is a command.
    Heard,
    Short,
    Sum,
    Unknown,
}

fn is_nobody(call: Call) -> bool
    ensures { result ≡ is_nobody call }
{
    matches!(call, Call::Nobody)
}

fn is_ignored(order: Order) -> bool
    ensures { result ≡ is_ignored order }
{
    matches!(order, Order::Ignored)
}

// An Inventory whose mask length stands at a place.
fn why_masked(sixteen: bool, at: usize, f: &[u8]) -> Why
    requires { (4 ≤ length f.now) × (at ≤ 3) }
    ensures { result ≡ why_masked sixteen at f.now }
{
    let m = f[at];
    let longest = most_bits(sixteen);
    if longest < m {
        return Why::LongMask;
    }
    let bytes = (m as usize + 7) / 8;
    if f.len() != at + 3 + bytes {
        return Why::OtherLength;
    }
    Why::Acts
}

// A frame with Inventory set.
fn why_inventory(f: &[u8]) -> Why
    requires { 4 ≤ length f.now }
    ensures { result ≡ why_inventory f.now }
{
    let flags = f[0];
    if f[1] != 1 {
        return Why::OtherCommand;
    }
    if flags / 64 % 2 == 1 {
        return Why::InventoryOption;
    }
    let one = flags / 32 % 2;
    if flags / 16 % 2 == 1 {
        return why_masked(one == 0, 3, f);
    }
    why_masked(one == 0, 2, f)
}

// A task of command c, with a UID or without; whether no label acts on it.
fn why_task(c: u8, address: bool, nobody: bool) -> Why
    ensures { result ≡ why_task c address nobody }
{
    if !nobody {
        return Why::Acts;
    }
    if c == 1 {
        return Why::Unflagged;
    }
    if address {
        return Why::QuietFault;
    }
    Why::WantsUid
}

// A frame of 4 bytes or more with its check sum right and flag bits 3 and 7 clear; whether no label acts on it.
fn why_right(f: &[u8], flags: u8, nobody: bool) -> Why
    requires { 4 ≤ length f.now }
    ensures { result ≡ why_right f.now flags nobody }
{
    if flags / 4 % 2 == 1 {
        return why_inventory(f);
    }
    if flags / 32 % 2 == 1 {
        if flags / 16 % 2 == 1 {
            return Why::BothBits;
        }
        if f.len() < 12 {
            return Why::ShortForUid;
        }
        return why_task(f[1], true, nobody);
    }
    why_task(f[1], false, nobody)
}

// Why no label acts on a label frame.
pub fn why_nobody(f: &[u8]) -> Why
    ensures { result ≡ why_of f.now }
{
    if f.len() < 4 {
        return Why::Short;
    }
    let flags = f[0];
    if flags / 8 % 2 == 1 {
        return Why::Bit3;
    }
    if flags / 128 % 2 == 1 {
        return Why::Bit7;
    }
    if is_right(f) {
        let request = crate::label::decode_frame(f);
        let call = request.call;
        return why_right(f, flags, is_nobody(call));
    }
    Why::Sum
}

// Why chips ignore a chip frame.
pub fn why_ignored(f: &[u8]) -> WhyChip
    ensures { result ≡ why_ignored f.now }
{
    if f.len() < 3 {
        return WhyChip::Short;
    }
    if !is_right(f) {
        return WhyChip::Sum;
    }
    if is_ignored(crate::chip::decode_frame(f)) {
        return WhyChip::Unknown;
    }
    WhyChip::Heard
}
