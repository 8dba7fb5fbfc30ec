// Why a call is refused, by number.
ghost use Rattle.std.specs.Prelude.{◌≡◌};
ghost use Rattle.frame.specs.Refusal.{refusal_number};

// 1: the rack file is bad; 2: draws for another number of tags; 3: no room for an answer or a request; 4: no such event; 5: no room for the list;
// 6: two labels that could answer share a UID; 7: no request has these fields; 8: the frame is none that holds an answer;
// 9: it means nothing to this command.
#[derive(Clone, Copy, PartialEq, Eq)]
pub enum Refusal {
    Rack = 1,
    Draws,
    Room,
    Event,
    List,
    Twins,
    Fields,
    Frame,
    Meaning,
}

impl Refusal {
    // The number that the paper gives it.
    pub fn number(self) -> u8
        ensures { result ≡ refusal_number self }
    {
        self as u8
    }
}
