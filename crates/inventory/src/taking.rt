// The UIDs of the labels that take part, as numbers.
ghost use Rattle.std.specs.Prelude.{◌≡◌, ◌≤◌, [], length};
ghost use Rattle.request.specs.declared.label.Family.TheVariants.{Any};
ghost use Rattle.inventory.specs.Walk.{uids};
ghost use Rattle.inventory.specs.Numbers.{First};

use label_body::body::{takes_part, uid_of};
use rack::tag::Kind;
use rack::whole::Rack;
use request::label::Family;
use std::marker::Model;

// Some UIDs, at most one for each tag that a rack can have.
#[derive(Drop)]
pub struct Uids {
    all: [u64; 64],
    count: usize,
}

impl Model for Uids {
    ghost use Rattle.std.specs.Prelude.{ℕ, List, take, ◌≤◌};

    ghost Value = { List ℕ };

    ghost view = { λ s. take s.count s.all };

    ghost invariant = { λ s. s.count ≤ 64 };
}

impl Uids {
    pub fn new() -> Self
        ensures { result ≡ [] }
    {
        Uids {
            all: [0; 64],
            count: 0,
        }
    }

    // The UIDs of a rack, in place of those that were held.
    pub fn collect(&mut self, rack: &Rack, family: Family)
        ensures { self.new ≡ uids family rack.now }
    {
        self.count = collect(rack, family, &mut self.all);
    }

    // Of the UIDs of all labels that take part, those that the family lets answer.
    pub fn narrow(&mut self, rack: &Rack, family: Family)
        requires { self.old ≡ uids Any rack.now }
        ensures { self.new ≡ uids family rack.now }
    {
        self.count = narrow(rack, family, &mut self.all, self.count);
    }

    pub fn as_slice(&self) -> &[u64]
        ensures { result.now ≡ self.now }
    {
        &self.all[..self.count]
    }

    pub fn as_mut_slice(&mut self) -> &mut [u64]
        ensures { result.now ≡ self.old }
    {
        &mut self.all[..self.count]
    }
}

// The UIDs in the order of the rack. Gives how many.
#[tactic(auto, using(crate::proofs::NumbersGathered::gathered))]
pub fn collect(rack: &Rack, family: Family, us: &mut [u64]) -> usize
    requires in_bounds { 64 ≤ length us.old }
    ensures { First (uids family rack.now) us.new result }
{
    let mut n = 0;
    for i in 0..rack.count() {
        let body = rack.body(i);
        if rack.kind(i) == Kind::Label && takes_part(body, family) {
            us[n] = uid_of(body);
            n += 1;
        }
    }
    n
}

// Of the UIDs of all labels that take part, those of the labels that the family lets answer. Gives how many.
pub fn narrow(rack: &Rack, family: Family, us: &mut [u64], all: usize) -> usize
    requires in_bounds { 64 ≤ length us.old }
    requires first { First (uids Any rack.now) us.old all }
    ensures { First (uids family rack.now) us.new result }
{
    match family {
        Family::Any => all,
        Family::Only(_) => collect(rack, family, us),
    }
}
