// The draws that the events take.
ghost use Rattle.std.specs.Prelude.{◌≡◌, length, get_or};
ghost use Rattle.script.specs.Lines.{padded, draws_for};

use frame::number::byte_at;

// The bytes are the draws from now on; where there are fewer, the others are 00.
pub fn set_draws(draws: &mut [u8], bytes: &[u8])
    ensures { draws.new ≡ padded (length draws.old) bytes.now }
{
    for i in 0..draws.len() {
        draws[i] = byte_at(bytes, i);
    }
}

// How many draws a rack takes: as many as it says it has tags, up to those at hand.
#[tactic(auto, unfolding(crate::specs::Lines::draws_for))]
pub fn draws_for(tags: &[u8], most: usize) -> usize
    ensures { result ≡ draws_for (get_or tags.now 1 0) most }
{
    most.min(byte_at(tags, 1) as usize)
}
