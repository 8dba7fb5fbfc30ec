// Bodies of tags as they are made: what no step of a tag writes is written here, by its place. Each function is total: what has no room is left out.
ghost use Rattle.std.specs.Prelude.{◌≡◌, [], ◌∷◌, ◌≤◌, set};
ghost use Rattle.std.proofs.lemmas.List.Edits.{sets};
ghost use Rattle.draft.specs.Bodies.{afi_lock, dsfid_lock, edited, changed, chip_edited, chip_changed, cleared, new_label, new_chip, new_tag};
ghost use Rattle.draft.specs.Bodies.{block_size, has_block, block_place, set_block, body_length};

use chip::step::Chip;
use frame::number::byte_at;
use label::step::Label;
use print::put::put_text;
use rack::tag::Kind;
use verbs::data::place;

// Places of a label's body: its UID, blocks less 1, block length less 1, IC reference, slot.
const BLOCKS: usize = 11;

const SIZE: usize = 12;

const IC: usize = 13;

const SLOT: usize = 15;

const LOCKS: usize = 32;

// Places of a chip's body: block 255, its UID, the fixed-ID option; blocks 0 to 6 stand at the front.
const SYSTEM: usize = 64;

const CHIP_UID: usize = 68;

const FIXED: usize = 79;

// What a line changes of a label.
#[derive(Clone, Copy)]
pub enum Edit {
    State(u8),
    Afi(u8, bool),
    Dsfid(u8, bool),
    Slot(u8),
    Mask(u8, u64),
}

// What a line changes of a chip.
#[derive(Clone, Copy)]
pub enum ChipEdit {
    State(u8),
    Id(u8),
    Reload(u8),
}

fn put(b: &mut [u8], at: usize, v: u8)
    ensures { b.new ≡ set b.old at v }
{
    if at < b.len() {
        b[at] = v;
    }
}

// Bit 0 is the AFI's lock, bit 1 the DSFID's.
fn afi_lock(locks: u8, on: bool) -> u8
    ensures { result ≡ afi_lock locks on }
{
    locks / 2 % 2 * 2 + if on { 1 } else { 0 }
}

fn dsfid_lock(locks: u8, on: bool) -> u8
    ensures { result ≡ dsfid_lock locks on }
{
    locks % 2 + if on { 2 } else { 0 }
}

#[tactic(auto, unfolding(crate::specs::Bodies::edited))]
fn edited(l: Label, e: Edit) -> Label
    ensures { result ≡ edited e l }
{
    match e {
        Edit::State(state) => Label { state, ..l },
        Edit::Afi(afi, on) => Label {
            afi,
            locks: afi_lock(l.locks, on),
            ..l
        },
        Edit::Dsfid(dsfid, on) => Label {
            dsfid,
            locks: dsfid_lock(l.locks, on),
            ..l
        },
        Edit::Slot(slot) => Label { slot, ..l },
        Edit::Mask(bits, mask) => Label { bits, mask, ..l },
    }
}

#[tactic(auto, unfolding(crate::specs::Bodies::changed))]
pub fn change(b: &mut [u8], e: Edit)
    ensures { b.new ≡ changed e b.old }
{
    if 32 <= b.len() {
        let l = label_body::body::load(b);
        label_body::body::store(b, edited(l, e));
    }
}

#[tactic(auto, unfolding(crate::specs::Bodies::chip_edited))]
fn chip_edited(c: Chip, e: ChipEdit) -> Chip
    ensures { result ≡ chip_edited e c }
{
    match e {
        ChipEdit::State(state) => Chip { state, ..c },
        ChipEdit::Id(id) => Chip { id, ..c },
        ChipEdit::Reload(reload) => Chip { reload, ..c },
    }
}

#[tactic(auto, unfolding(crate::specs::Bodies::chip_changed))]
pub fn chip_edit(b: &mut [u8], e: ChipEdit)
    ensures { b.new ≡ chip_changed e b.old }
{
    if 80 <= b.len() {
        let c = chip_body::body::load(b);
        chip_body::body::store(b, chip_edited(c, e));
    }
}

pub fn set_fixed(b: &mut [u8], v: u8)
    ensures { b.new ≡ set b.old 79 v }
{
    put(b, FIXED, v);
}

pub fn set_ic(b: &mut [u8], v: u8)
    ensures { b.new ≡ set b.old 13 v }
{
    put(b, IC, v);
}

// Blocks and their bytes, each less 1.
pub fn set_shape(b: &mut [u8], blocks: u8, size: u8)
    ensures { b.new ≡ sets b.old 11 (blocks ∷ size ∷ []) }
{
    put(b, BLOCKS, blocks);
    put(b, SIZE, size);
}

// Zeros, as many as the longest body has.
#[tactic(auto, unfolding(crate::specs::Bodies::cleared))]
fn clear(b: &mut [u8])
    ensures { b.new ≡ cleared b.old }
{
    let zeros = [0u8; 8480];
    put_text(b, 0, &zeros);
}

// A new label: off, 28 blocks of 4 bytes, no slot.
#[tactic(auto, unfolding(crate::specs::Bodies::new_label))]
fn new_label(b: &mut [u8], uid: [u8; 8])
    ensures { b.new ≡ new_label uid b.old }
{
    clear(b);
    put_text(b, 0, &uid);
    set_shape(b, 27, 3);
    put(b, SLOT, 255);
}

// A new chip: off, blocks 0 to 6 and 255 all ones.
#[tactic(auto, unfolding(crate::specs::Bodies::new_chip))]
fn new_chip(b: &mut [u8], uid: [u8; 8])
    ensures { b.new ≡ new_chip uid b.old }
{
    clear(b);
    put_text(b, 0, &[255u8; 28]);
    put_text(b, SYSTEM, &[255u8; 4]);
    put_text(b, CHIP_UID, &uid);
}

#[tactic(auto, unfolding(crate::specs::Bodies::new_tag))]
pub fn new_tag(b: &mut [u8], kind: Kind, uid: [u8; 8])
    ensures { b.new ≡ new_tag kind uid b.old }
{
    match kind {
        Kind::Label => new_label(b, uid),
        Kind::Chip | Kind::Other => new_chip(b, uid),
    }
}

// How many bytes a block has.
#[tactic(auto, unfolding(crate::specs::Bodies::block_size))]
pub fn block_size(b: &[u8], kind: Kind) -> usize
    ensures value { result ≡ block_size kind b.now }
    ensures upper_bound { result ≤ 256 }
{
    match kind {
        Kind::Label => byte_at(b, SIZE) as usize + 1,
        Kind::Chip | Kind::Other => 4,
    }
}

// Whether there is a block of this number.
#[tactic(auto, unfolding(crate::specs::Bodies::has_block))]
pub fn has_block(b: &[u8], kind: Kind, n: u8) -> bool
    ensures { result ≡ has_block kind b.now n }
{
    match kind {
        Kind::Label => n <= byte_at(b, BLOCKS),
        Kind::Chip | Kind::Other => n < 16 || n == 255,
    }
}

#[tactic(auto, unfolding(crate::specs::Bodies::block_place))]
fn block_place(b: &[u8], kind: Kind, n: u8) -> usize
    ensures { result ≡ block_place kind b.now n }
{
    if b.len() < 32 {
        return 0;
    }
    match kind {
        Kind::Label => label_body::body::place(b, n),
        Kind::Chip | Kind::Other => chip_body::body::place(n),
    }
}

// A block's bytes, and a label's lock of it.
#[tactic(auto, unfolding(crate::specs::Bodies::set_block))]
pub fn set_block(b: &mut [u8], kind: Kind, n: u8, bytes: &[u8], lock: u8)
    ensures { b.new ≡ set_block kind n bytes.now lock b.old }
{
    let at = block_place(b, kind, n);
    put_text(b, at, bytes);
    match kind {
        Kind::Label => put(b, LOCKS + n as usize, lock),
        Kind::Chip | Kind::Other => {}
    }
}

// How long a tag's body is.
#[tactic(auto, unfolding(crate::specs::Bodies::body_length))]
pub fn body_length(b: &[u8], kind: Kind) -> usize
    ensures { result ≡ body_length kind b.now }
{
    match kind {
        Kind::Label => {
            let last = byte_at(b, BLOCKS);
            place(block_place(b, kind, last), block_size(b, kind))
        }
        Kind::Chip | Kind::Other => 80,
    }
}
