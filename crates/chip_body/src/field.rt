// What a place of a chip's body holds, of what the rules judge.
ghost use Rattle.std.specs.Prelude.{◌≡◌};
ghost use Rattle.chip_body.specs.Field.{field_at};

// A chip's own: it shares no field but the state with a label, whose names and places are its own.
#[derive(Clone, Copy)]
pub enum Field {
    // No rule.
    Other,
    State,
    Id,
    Reload,
    Fixed,
}

// What a place holds.
#[tactic(auto, unfolding(crate::specs::Field::field_at))]
pub fn field_at(place: usize) -> Field
    ensures { result ≡ field_at place }
{
    match place {
        76 => Field::State,
        77 => Field::Id,
        78 => Field::Reload,
        79 => Field::Fixed,
        _ => Field::Other,
    }
}
