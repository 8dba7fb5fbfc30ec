// What a place of a label's body holds, of what the rules judge.
ghost use Rattle.std.specs.Prelude.{◌≡◌};
ghost use Rattle.label_body.specs.Field.{later_field, field_at};

// A label's own: it shares no field but the state with a chip, whose names and places are its own.
#[derive(Clone, Copy)]
pub enum Field {
    // No rule.
    Other,
    Locks,
    Blocks,
    Size,
    State,
    Slot,
    Bits,
    Mask,
    Zero,
    // The lock of a block.
    Lock(usize),
}

// Slot and mask, the zeros behind them, and the locks.
#[tactic(auto, unfolding(crate::specs::Field::later_field))]
fn later_field(place: usize) -> Field
    ensures { result ≡ later_field place }
{
    match place {
        15 => Field::Slot,
        16 => Field::Bits,
        _ if place < 25 => Field::Mask,
        _ if place < 32 => Field::Zero,
        _ => Field::Lock(place - 32),
    }
}

// What a place holds.
#[tactic(auto, unfolding(crate::specs::Field::field_at))]
pub fn field_at(place: usize) -> Field
    ensures { result ≡ field_at place }
{
    match place {
        10 => Field::Locks,
        11 => Field::Blocks,
        12 => Field::Size,
        14 => Field::State,
        _ if 14 < place => later_field(place),
        _ => Field::Other,
    }
}
