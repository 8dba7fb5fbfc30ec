// The frame of a chip's answer.
ghost use Rattle.std.specs.Prelude.{◌≡◌, [], ◌∷◌, ◌≤◌, length};
ghost use Rattle.std.proofs.lemmas.List.Edits.{sets};
ghost use Rattle.frame.specs.CheckSum.{framed};
ghost use Rattle.chip_body.specs.Answer.{speaks, answer_frame};

use crate::body::place;
use chip::step::Answer;
use frame::check_sum::seal;
use frame::part::seal_part;

// Whether there is an answer. (A label's answers are another enum; a trait for the two would be longer than both.)
pub fn speaking(a: Answer) -> bool
    ensures { result ≡ speaks a }
{
    !matches!(a, Answer::Silent)
}

// Writes a Chip_ID and its check sum.
fn say_id(id: u8, out: &mut [u8]) -> usize
    requires { 3 ≤ length out.old }
    ensures { (result ≡ 3) × (out.new ≡ sets out.old 0 (framed (id ∷ []))) }
{
    out[0] = id;
    seal(out, 1)
}

// Writes the frame of an answer to the front of out, and returns its length.
pub fn write_answer(a: Answer, b: &[u8], out: &mut [u8]) -> usize
    requires { (80 ≤ length b.now) × (length (answer_frame a b.now) ≤ length out.old) }
    ensures { (result ≡ length (answer_frame a b.now)) × (out.new ≡ sets out.old 0 (answer_frame a b.now)) }
{
    match a {
        Answer::Silent => 0,
        Answer::Id(id) => say_id(id, out),
        Answer::Block(n) => {
            let at = place(n);
            seal_part(out, 0, b, at, 4)
        }
        Answer::Uid => seal_part(out, 0, b, 68, 8),
    }
}
