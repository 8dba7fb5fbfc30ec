// A verdict on bytes: Ok where they keep their rules, or the rule that is offended first and where.
ghost use Rattle.std.specs.Prelude.{◌≡◌, ◌+◌, ◌≤◌, length, true, All};
ghost use Rattle.frame.specs.Judge.{bad, first_of, byte_verdict, rule_number};

// What can be wrong, in the order of judging: the file's length, its first two bytes, an entry, a body, bytes behind the last one.
#[derive(Clone, Copy, PartialEq, Eq)]
pub enum Rule {
    Length = 10,
    Head,
    Entry,
    Body,
    Behind,
}

impl Rule {
    // The number that the paper gives it.
    pub fn number(self) -> u8
        ensures { result ≡ rule_number self }
    {
        self as u8
    }
}

#[derive(Clone, Copy, PartialEq, Eq)]
pub struct Offence {
    pub rule: Rule,
    pub place: usize,
}

pub type Verdict = Result<(), Offence>;

pub fn bad(rule: Rule, place: usize) -> Verdict
    ensures { result ≡ bad rule place }
{
    Err(Offence { rule, place })
}

// At least as much as each byte of a slice. Every byte is looked at, whatever those before it are: a loop with no way out is compiled to many bytes at a
// time.
#[tactic(auto, using(crate::proofs::Judge::together_none, crate::proofs::Judge::together_more, crate::proofs::Judge::together_all))]
fn together(s: &[u8]) -> u8
    ensures { All (λ byte. byte ≤ result) s.now }
{
    let mut bits = 0;
    for byte in s {
        bits |= *byte;
    }
    bits
}

// Whether no byte is over most. From sixteen on all are looked at together: of fewer the first that is over ends it.
#[tactic(auto, using(crate::proofs::Judge::within_together))]
fn within(s: &[u8], most: u8) -> bool
    ensures { result ≡ true → All (λ byte. byte ≤ most) s.now }
{
    if s.len() < 16 {
        s.iter().all(|byte| *byte <= most)
    } else {
        together(s) <= most
    }
}

// The first of the count bytes from a place of a body that is over most.
#[inline(never)]
#[tactic(auto, using(crate::proofs::Judge::first_none, crate::proofs::Judge::byte_bad, crate::proofs::Judge::byte_fine))]
fn seek_over(body: &[u8], at: usize, count: usize, most: u8) -> Verdict
    requires { at + count ≤ length body.now }
    ensures { result ≡ first_of count (byte_verdict body.now at most) }
{
    for i in 0..count {
        if most < body[at + i] {
            return bad(Rule::Body, at + i);
        }
    }
    Ok(())
}

// The same, and only where one is over is it looked for.
#[tactic(auto, using(crate::proofs::Judge::part_good))]
pub fn judge_bytes(body: &[u8], at: usize, count: usize, most: u8) -> Verdict
    requires { at + count ≤ length body.now }
    ensures { result ≡ first_of count (byte_verdict body.now at most) }
{
    if within(&body[at..at + count], most) {
        return Ok(());
    }
    seek_over(body, at, count, most)
}
