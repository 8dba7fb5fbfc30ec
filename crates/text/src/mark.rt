// The mark that may stand before a text in UTF-8.
ghost use Rattle.std.specs.Prelude.{◌≡◌, ◌≤◌, length};
ghost use Rattle.text.specs.Mark.{mark_length};

// The place behind the UTF-8 mark at the front of a text, or 0 where there is none.
#[tactic(auto, unfolding(crate::specs::Mark::mark_length))]
pub fn after_mark(s: &[u8]) -> usize
    ensures value { result ≡ mark_length s.now }
    ensures upper_bound { result ≤ length s.now }
{
    if s.starts_with(b"\xEF\xBB\xBF") { 3 } else { 0 }
}
