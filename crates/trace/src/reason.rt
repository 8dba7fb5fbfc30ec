// Why nobody answered an event, by the rack that it left.
ghost use Rattle.std.specs.Prelude.{◌≡◌, length};
ghost use Rattle.trace.specs.Reason.{for_uid, for_target, for_inventory, for_call, for_labels, for_end, in_inventory, for_order, for_chips, reason_of};

use crate::question::{Ask, any, lowest_slot};
use frame::uid::uid_number;
use rack::whole::Rack;
use request::chip::Order;
use request::label::{Call, Family, Request, Target};
use request::signal::Signal;
use request::why::{Why, WhyChip, why_ignored, why_nobody};

#[derive(Clone, Copy)]
pub enum Reason {
    // An event that asks no tag for an answer that this crate knows of.
    Other,
    EveryOff,
    TagsOn,
    NoLabel,
    NoChip,
    FieldOff,
    // A frame that no label acts on.
    Frame(Why),
    NotReady,
    NoFamily,
    NoMask,
    InSlot(u8),
    NoUid,
    LabelOff,
    QuietSilent,
    NotSelected,
    NoRound,
    // A frame that chips ignore.
    ChipFrame(WhyChip),
    ChipNotReady,
    NoDraw,
    NotInventory,
    ChipSlot(u8),
    NoChipId,
    NoAnswer,
    ChipNotSelected,
}

// A task for one UID.
#[tactic(auto, unfolding(crate::specs::Reason::for_uid))]
fn for_uid(rack: &Rack, uid: u64) -> Reason
    ensures { result ≡ for_uid rack.now uid }
{
    if !any(rack, Ask::Uid(uid)) {
        return Reason::NoUid;
    }
    if !any(rack, Ask::UidOn(uid)) {
        return Reason::LabelOff;
    }
    Reason::QuietSilent
}

#[tactic(auto, unfolding(crate::specs::Reason::for_target))]
fn for_target(rack: &Rack, to: Target, uid: u64) -> Reason
    ensures { result ≡ for_target rack.now to uid }
{
    match to {
        Target::Everyone => Reason::NotReady,
        Target::Selected => Reason::NotSelected,
        Target::One => for_uid(rack, uid),
    }
}

#[tactic(auto, unfolding(crate::specs::Reason::for_inventory))]
fn for_inventory(rack: &Rack, family: Family, sixteen: bool) -> Reason
    ensures { result ≡ for_inventory rack.now family sixteen }
{
    if !any(rack, Ask::Ready(Family::Any)) {
        return Reason::NotReady;
    }
    if !any(rack, Ask::Ready(family)) {
        return Reason::NoFamily;
    }
    if sixteen {
        Reason::InSlot(0)
    } else {
        Reason::NoMask
    }
}

// What a label frame asks.
#[tactic(auto, unfolding(crate::specs::Reason::for_call))]
fn for_call(rack: &Rack, frame: &[u8], call: Call, uid: u64) -> Reason
    ensures { result ≡ for_call rack.now frame.now call uid }
{
    match call {
        Call::Ignored | Call::Off | Call::On | Call::EndOfFrame => Reason::Other,
        Call::Nobody => Reason::Frame(why_nobody(frame)),
        Call::Inventory(family, sixteen, _, _) => for_inventory(rack, family, sixteen),
        Call::Fault(to, _) | Call::Do(to, _, _, _) => for_target(rack, to, uid),
    }
}

#[tactic(auto, unfolding(crate::specs::Reason::for_labels))]
fn for_labels(rack: &Rack, frame: &[u8], request: Request) -> Reason
    ensures { result ≡ for_labels rack.now frame.now request }
{
    if !any(rack, Ask::Label) {
        return Reason::NoLabel;
    }
    if !any(rack, Ask::LabelOn) {
        return Reason::FieldOff;
    }
    for_call(rack, frame, request.call, uid_number(request.uid))
}

// A bare end of frame.
#[tactic(auto, unfolding(crate::specs::Reason::for_end))]
fn for_end(rack: &Rack) -> Reason
    ensures { result ≡ for_end rack.now }
{
    let s = lowest_slot(rack);
    if s < 16 {
        Reason::InSlot(s)
    } else {
        Reason::NoRound
    }
}

// This, where a chip is in inventory.
#[tactic(auto, unfolding(crate::specs::Reason::in_inventory))]
fn in_inventory(rack: &Rack, reason: Reason) -> Reason
    ensures { result ≡ in_inventory rack.now reason }
{
    if any(rack, Ask::ChipIn(2)) {
        reason
    } else {
        Reason::NotInventory
    }
}

// What a chip frame asks.
#[tactic(auto, unfolding(crate::specs::Reason::for_order))]
fn for_order(rack: &Rack, frame: &[u8], order: Order) -> Reason
    ensures { result ≡ for_order rack.now frame.now order }
{
    match order {
        Order::Ignored => Reason::ChipFrame(why_ignored(frame)),
        Order::Off | Order::On => Reason::Other,
        Order::Initiate => Reason::ChipNotReady,
        Order::Pcall => in_inventory(rack, Reason::NoDraw),
        Order::Marker(s) => in_inventory(rack, Reason::ChipSlot(s)),
        Order::Select(_) => Reason::NoChipId,
        Order::Completion | Order::Reset | Order::Write(_, _) => Reason::NoAnswer,
        Order::Read(_) | Order::Uid => Reason::ChipNotSelected,
    }
}

#[tactic(auto, unfolding(crate::specs::Reason::for_chips))]
fn for_chips(rack: &Rack, frame: &[u8], order: Order) -> Reason
    ensures { result ≡ for_chips rack.now frame.now order }
{
    if !any(rack, Ask::Chip) {
        return Reason::NoChip;
    }
    if !any(rack, Ask::ChipOn) {
        return Reason::FieldOff;
    }
    for_order(rack, frame, order)
}

// Why nobody answered event `number` with a frame, which asks what the signal says.
#[tactic(auto, unfolding(crate::specs::Reason::reason_of))]
pub fn reason_of(number: u8, frame: &[u8], signal: Signal, rack: &Rack) -> Reason
    ensures { result ≡ reason_of number frame.now signal rack.now }
{
    match number {
        1 => Reason::EveryOff,
        2 => Reason::TagsOn,
        3 => for_labels(rack, frame, signal.label),
        4 => for_end(rack),
        5 => for_chips(rack, frame, signal.chip),
        _ => Reason::Other,
    }
}
