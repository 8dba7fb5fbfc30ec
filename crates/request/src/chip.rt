// What an event asks of a chip, whatever the chip.
ghost use Rattle.std.specs.Prelude.{◌≡◌};
ghost use Rattle.request.specs.Chip.{listed, short, pair, long, decode, heard};

use frame::check_sum::is_right;
use frame::number::word_at;

#[derive(Clone, Copy)]
pub enum Order {
    // Nothing, or a frame of another length, code or check sum.
    Ignored,
    Off,
    On,
    Initiate,
    Pcall,
    Marker(u8),
    Select(u8),
    Completion,
    Reset,
    Read(u8),
    Uid,
    Write(u8, u32),
}

// Addresses are 0 to 15 and 255.
#[tactic(auto, unfolding(crate::specs::Chip::listed))]
pub fn is_listed(a: u8) -> bool
    ensures { result ≡ listed a }
{
    a < 16 || a == 255
}

// A frame of three bytes with code c.
#[tactic(auto, unfolding(crate::specs::Chip::short))]
fn short_order(c: u8) -> Order
    ensures { result ≡ short c }
{
    match c {
        0x0B => Order::Uid,
        0x0C => Order::Reset,
        0x0F => Order::Completion,
        _ if c % 16 != 6 || c / 16 == 0 => Order::Ignored,
        _ => Order::Marker(c / 16),
    }
}

// A frame of four bytes with code c and the byte p behind it.
#[tactic(auto, unfolding(crate::specs::Chip::pair))]
fn pair_order(c: u8, p: u8) -> Order
    ensures { result ≡ pair c p }
{
    match (c, p) {
        (0x06, 0) => Order::Initiate,
        (0x06, 4) => Order::Pcall,
        (0x0E, id) => Order::Select(id),
        (0x08, a) if is_listed(a) => Order::Read(a),
        _ => Order::Ignored,
    }
}

// A frame of eight bytes with code c, address a and the block w.
#[tactic(auto, unfolding(crate::specs::Chip::long))]
fn long_order(c: u8, a: u8, w: u32) -> Order
    ensures { result ≡ long c a w }
{
    if c == 0x09 && is_listed(a) {
        Order::Write(a, w)
    } else {
        Order::Ignored
    }
}

// What a chip frame asks.
#[tactic(auto, unfolding(crate::specs::Chip::decode))]
pub fn decode_frame(f: &[u8]) -> Order
    ensures { result ≡ decode f.now }
{
    if !is_right(f) {
        return Order::Ignored;
    }
    match f.len() {
        3 => short_order(f[0]),
        4 => pair_order(f[0], f[1]),
        8 => long_order(f[0], f[1], word_at(f, 2)),
        _ => Order::Ignored,
    }
}

// What event `number` with frame f asks.
#[tactic(auto, unfolding(crate::specs::Chip::heard))]
pub fn hear(number: u8, f: &[u8]) -> Order
    ensures { result ≡ heard number f.now }
{
    match number {
        1 => Order::Off,
        2 => Order::On,
        5 => decode_frame(f),
        _ => Order::Ignored,
    }
}
