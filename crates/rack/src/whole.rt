// A rack that keeps its rules, as it is read: what its judge found is in the type.
ghost use Rattle.std.specs.Prelude.{◌≡◌, ◌≤◌, ◌<◌, Err, MatchResult};
ghost use Rattle.frame.specs.Judge.{fine};
ghost use Rattle.rack.specs.File.{count_of, kind_at, verdict_of};
ghost use Rattle.rack.specs.Facts.{RackFine, TagFine, body_of};

use crate::file::{body_of, count, judge, kind_of};
use crate::tag::Kind;
use frame::verdict::Offence;
use std::marker::Model;

#[derive(Drop)]
pub struct Rack<'a> {
    bytes: &'a [u8],
}

// Clauses see its bytes.
impl<'a> Model for Rack<'a> {
    ghost use Rattle.std.specs.Prelude.{List, ℕ};
    ghost use Rattle.rack.specs.Facts.{RackFine};

    ghost Value = { List ℕ };

    ghost view = { λ r. r.bytes.now };

    ghost invariant = { λ r. RackFine r.bytes.now };
}

impl<'a> Rack<'a> {
    // Bytes that are known to keep the rules.
    pub fn of(bytes: &'a [u8]) -> Rack<'a>
        requires { RackFine bytes.now }
        ensures { result ≡ bytes.now }
    {
        Rack { bytes }
    }

    // A rack file, judged.
    pub fn judged(bytes: &'a [u8]) -> Result<Rack<'a>, Offence>
        ensures { MatchResult result
            (λ r. (r ≡ bytes.now) × (verdict_of bytes.now ≡ fine))
            (λ offence. verdict_of bytes.now ≡ Err offence) }
    {
        judge(bytes)?;
        Ok(Rack { bytes })
    }

    pub fn bytes(&self) -> &'a [u8]
        ensures value { result.now ≡ self.now }
        ensures rack_fine { RackFine self.now }
    {
        self.bytes
    }

    // The number of tags.
    pub fn count(&self) -> usize
        ensures value { result ≡ count_of self.now }
        ensures upper_bound { result ≤ 64 }
        ensures rack_fine { RackFine self.now }
    {
        count(self.bytes)
    }

    pub fn kind(&self, i: usize) -> Kind
        requires { i < count_of self.now }
        ensures { result ≡ kind_at self.now i }
    {
        kind_of(self.bytes, i)
    }

    pub fn body(&self, i: usize) -> &'a [u8]
        requires { i < count_of self.now }
        ensures value { result.now ≡ body_of self.now i }
        ensures tag_fine { TagFine (kind_at self.now i) result.now }
    {
        body_of(self.bytes, i)
    }
}
