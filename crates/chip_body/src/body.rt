// A chip's body: its rules, the chip it holds, and a step in place. `80 ≤ length` stands in each contract and in no type, as a label's `32 ≤ length`.
ghost use Rattle.std.specs.Prelude.{◌≡◌, not, ◌&&◌, ◌||◌, eqb, ltb, ◌≤◌, length};
ghost use Rattle.chip_body.specs.Body.{chip_rules, load_of, store_of, place_of, bytes_at, block_of, uid_of, named, worked, stepped, next_chip, said_chip};

use chip::step::{Answer, Chip, Put, Stepped};
use frame::number::word_at;
use frame::put::put_number;
use frame::uid::uid_at;
use frame::verdict::{Rule, Verdict, bad};
use request::chip::Order;

// In state 0 Chip_ID is 0.
fn wrong_id(state: u8, id: u8) -> bool
    ensures { result ≡ (eqb state 0 && not (eqb id 0)) }
{
    state == 0 && id != 0
}

// Reload is 0, or 1 in state 3.
fn wrong_reload(state: u8, reload: u8) -> bool
    ensures { result ≡ (ltb 1 reload || (eqb reload 1 && not (eqb state 3))) }
{
    1 < reload || (reload == 1 && state != 3)
}

// The option is 0 or 1; with it Chip_ID in states other than 0 is byte 64, own.
fn wrong_fixed(state: u8, id: u8, fixed: u8, own: u8) -> bool
    ensures { result ≡ (ltb 1 fixed || (eqb fixed 1 && (not (eqb state 0) && not (eqb id own)))) }
{
    1 < fixed || (fixed == 1 && (state != 0 && id != own))
}

// The first offence of a body against the rules of chips.
#[tactic(auto, unfolding(crate::specs::Body::chip_rules))]
pub fn judge_chip(b: &[u8]) -> Verdict
    requires { 80 ≤ length b.now }
    ensures { result ≡ chip_rules b.now }
{
    let state = b[76];
    let id = b[77];
    let reload = b[78];
    let fixed = b[79];
    let own = b[64];
    if 5 < state {
        return bad(Rule::Body, 76);
    }
    if wrong_id(state, id) {
        return bad(Rule::Body, 77);
    }
    if wrong_reload(state, reload) {
        return bad(Rule::Body, 78);
    }
    if wrong_fixed(state, id, fixed, own) {
        return bad(Rule::Body, 79);
    }
    Ok(())
}

// The chip that a body holds.
#[tactic(auto, unfolding(crate::specs::Body::load_of))]
pub fn load(b: &[u8]) -> Chip
    requires { 80 ≤ length b.now }
    ensures { result ≡ load_of b.now }
{
    Chip {
        own: b[64],
        state: b[76],
        id: b[77],
        reload: b[78],
        fixed: b[79],
    }
}

// Puts a chip's state, Chip_ID and reload into a body.
#[tactic(auto, unfolding(crate::specs::Body::store_of))]
pub fn store(b: &mut [u8], c: Chip)
    requires { 80 ≤ length b.old }
    ensures { b.new ≡ store_of b.old c }
{
    b[76] = c.state;
    b[77] = c.id;
    b[78] = c.reload;
}

// Where block a stands.
#[tactic(auto, unfolding(crate::specs::Body::place_of))]
pub fn place(a: u8) -> usize
    ensures { result ≡ place_of a }
{
    if a < 16 { 4 * a as usize } else { 64 }
}

// Block a.
#[tactic(auto, using(crate::proofs::BodyShapes::place_fits))]
pub fn block_of(b: &[u8], a: u8) -> u32
    requires { 80 ≤ length b.now }
    ensures { result ≡ block_of a b.now }
{
    word_at(b, place(a))
}

// The bytes of block a.
#[tactic(auto, using(crate::proofs::BodyShapes::place_fits))]
pub fn bytes_of(b: &[u8], a: u8) -> &[u8]
    requires { 80 ≤ length b.now }
    ensures { result.now ≡ bytes_at a b.now }
{
    let at = place(a);
    &b[at..at + 4]
}

pub fn uid_of(b: &[u8]) -> [u8; 8]
    requires { 80 ≤ length b.now }
    ensures { result ≡ uid_of b.now }
{
    uid_at(b, 68)
}

// The block that an order writes to, as it is before.
#[tactic(auto, unfolding(crate::specs::Body::named))]
fn named_block(b: &[u8], order: Order) -> u32
    requires { 80 ≤ length b.now }
    ensures { result ≡ named order b.now }
{
    match order {
        Order::Write(a, _) => block_of(b, a),
        _ => 0,
    }
}

// Writes the block that a step writes.
#[tactic(auto, using(crate::proofs::BodyShapes::place_fits), unfolding(crate::specs::Body::worked))]
fn do_work(b: &mut [u8], work: Option<Put>)
    requires { 80 ≤ length b.old }
    ensures { b.new ≡ worked work b.old }
{
    if let Some(put) = work {
        put_number(b, place(put.block), put.value as u64, 4);
    }
}

// The step of the chip that a body holds.
#[tactic(auto, unfolding(crate::specs::Body::stepped, crate::specs::Body::place_of))]
pub fn act_on(b: &[u8], order: Order, draw: u8) -> Stepped
    requires { 80 ≤ length b.now }
    ensures { result ≡ stepped order draw b.now }
{
    load(b).act(order, draw, named_block(b, order), block_of(b, 255))
}

// A chip's step in place: its body becomes the next body, and what it answers comes back.
#[tactic(auto, unfolding(crate::specs::Body::said_chip, crate::specs::Body::next_chip))]
pub fn step(b: &mut [u8], order: Order, draw: u8) -> Answer
    requires { 80 ≤ length b.old }
    ensures { (result ≡ said_chip order draw b.old) × (b.new ≡ next_chip order draw b.old) }
{
    let stepped = act_on(b, order, draw);
    store(b, stepped.next);
    do_work(b, stepped.work);
    stepped.answer
}
