// Several blocks of a frame, in words.
ghost use Rattle.std.specs.Prelude.{◌≡◌, ◌+◌, ◌*◌, ◌<◌, ◌≤◌, length};
ghost use Rattle.print.specs.Line.{laid};
ghost use Rattle.print.specs.Seen.{seen};
ghost use Rattle.print.specs.Quote.{printable};
ghost use Rattle.tell.specs.Meanings.{blocks_text, piece_at, pieces_of, pieces_text, lock_at, unlocked, locked_one, locked_numbers, locked_text};
ghost use Rattle.tell.specs.Meanings.{plain_blocks_text, locked_blocks_text, locks_text};

use print::line::Line;
use print::quote::is_printable;

// Blocks of a frame from a place on: of each `long` bytes, behind GAP bytes more. They lie within the frame, so no sum of their places grows too large.
#[derive(Clone, Copy)]
pub struct Blocks<'a, const GAP: usize> {
    pub frame: &'a [u8],
    pub place: usize,
    pub long: usize,
    pub count: usize,
    ghost inside: { place + count * (GAP + long) ≤ length frame.now },
}

impl<'a, const GAP: usize> Blocks<'a, GAP> {
    // The bytes of block i.
    #[tactic(auto, using(crate::proofs::BlockPlaces::block_room))]
    fn piece(&self, i: usize) -> &'a [u8]
        requires { i < self.now.count }
        ensures { result.now ≡ piece_at self.now.place GAP self.now.long self.now.frame.now i }
    {
        let from = self.place + i * (GAP + self.long) + GAP;
        &self.frame[from..from + self.long]
    }
}

impl<'a> Blocks<'a, 1> {
    // The lock byte of block i.
    #[tactic(auto, using(crate::proofs::BlockPlaces::block_room))]
    fn lock(&self, i: usize) -> u8
        requires { i < self.now.count }
        ensures { result ≡ lock_at self.now.place self.now.long self.now.frame.now i }
    {
        self.frame[self.place + i * (1 + self.long)]
    }
}

// So many blocks of so many bytes.
#[tactic(auto, using(print::proofs::Lines::lines), unfolding(crate::specs::Meanings::blocks_text))]
fn put_blocks(line: &mut Line, count: usize, long: usize)
    ensures { seen line.new ≡ laid (seen line.old) (blocks_text count long) }
{
    line.decimal(count as u64);
    line.word_number(b" blocks of ", long as u64);
}

// ---- their bytes

// Whether every byte of every block shows.
#[tactic(auto, using(crate::proofs::BlockPlaces::passing), unfolding(crate::specs::Meanings::pieces_of))]
fn are_printable<const GAP: usize>(blocks: &Blocks<'_, GAP>) -> bool
    ensures { result ≡ printable (pieces_of blocks.now.place GAP blocks.now.long blocks.now.count blocks.now.frame.now) }
{
    for i in 0..blocks.count {
        if !is_printable(blocks.piece(i)) {
            return false;
        }
    }
    true
}

// The bytes, one block behind the other.
#[tactic(auto, using(print::proofs::Lines::gathered), unfolding(crate::specs::Meanings::pieces_of))]
fn put_pieces<const GAP: usize>(line: &mut Line, blocks: &Blocks<'_, GAP>)
    ensures { seen line.new ≡ laid (seen line.old) (pieces_of blocks.now.place GAP blocks.now.long blocks.now.count blocks.now.frame.now) }
{
    for i in 0..blocks.count {
        line.put(blocks.piece(i));
    }
}

// The bytes as text, where every byte shows.
#[tactic(auto, using(print::proofs::Lines::lines), unfolding(crate::specs::Meanings::pieces_text, crate::specs::Meanings::shown_text, print::specs::Quote::quoted_text))]
fn put_shown_pieces<const GAP: usize>(line: &mut Line, blocks: &Blocks<'_, GAP>)
    ensures { seen line.new ≡ laid (seen line.old) (pieces_text blocks.now.place GAP blocks.now.long blocks.now.count blocks.now.frame.now) }
{
    if are_printable(blocks) {
        line.put(b", \"");
        put_pieces(line, blocks);
        line.put(b"\"");
    }
}

// ---- their lock bytes

// Whether no block is locked.
#[tactic(auto, using(crate::proofs::BlockPlaces::passing), unfolding(crate::specs::Meanings::unlocked))]
fn are_unlocked(blocks: &Blocks<'_, 1>) -> bool
    ensures { result ≡ unlocked blocks.now.place blocks.now.long blocks.now.count blocks.now.frame.now }
{
    for i in 0..blocks.count {
        if blocks.lock(i) != 0 {
            return false;
        }
    }
    true
}

// The number of a block that is locked, or nothing.
#[tactic(auto, using(print::proofs::Lines::lines), unfolding(crate::specs::Meanings::locked_one))]
fn put_number(line: &mut Line, lock: u8, number: u64)
    ensures { seen line.new ≡ laid (seen line.old) (locked_one lock number) }
{
    if lock != 0 {
        line.word_number(b" ", number);
    }
}

// The numbers of the blocks that are locked; the first has number `first`.
#[tactic(auto, using(print::proofs::Lines::gathered), unfolding(crate::specs::Meanings::locked_numbers))]
fn put_numbers(line: &mut Line, blocks: &Blocks<'_, 1>, first: u8)
    ensures { seen line.new ≡ laid (seen line.old) (locked_numbers first blocks.now.place blocks.now.long blocks.now.count blocks.now.frame.now) }
{
    for i in 0..blocks.count {
        put_number(line, blocks.lock(i), first as u64 + i as u64);
    }
}

// Which blocks are locked.
#[tactic(auto, using(print::proofs::Lines::lines), unfolding(crate::specs::Meanings::locked_text))]
fn put_locked(line: &mut Line, blocks: &Blocks<'_, 1>, first: u8)
    ensures { seen line.new ≡ laid (seen line.old) (locked_text first blocks.now.place blocks.now.long blocks.now.count blocks.now.frame.now) }
{
    if are_unlocked(blocks) {
        line.put(b", none locked");
    } else {
        line.put(b", locked");
        put_numbers(line, blocks, first);
    }
}

// ---- the answers

// Blocks one behind the other.
#[tactic(auto, using(print::proofs::Lines::lines), unfolding(crate::specs::Meanings::plain_blocks_text))]
pub fn put_plain_blocks(line: &mut Line, blocks: &Blocks<'_, 0>)
    ensures { seen line.new ≡ laid (seen line.old) (plain_blocks_text blocks.now.place blocks.now.long blocks.now.count blocks.now.frame.now) }
{
    put_blocks(line, blocks.count, blocks.long);
    put_shown_pieces(line, blocks);
}

// Blocks with a lock byte before each; the first has number `first`.
#[tactic(auto, using(print::proofs::Lines::lines), unfolding(crate::specs::Meanings::locked_blocks_text))]
pub fn put_locked_blocks(line: &mut Line, blocks: &Blocks<'_, 1>, first: u8)
    ensures { seen line.new ≡ laid (seen line.old) (locked_blocks_text first blocks.now.place blocks.now.long blocks.now.count blocks.now.frame.now) }
{
    put_blocks(line, blocks.count, blocks.long);
    put_locked(line, blocks, first);
    put_shown_pieces(line, blocks);
}

// Lock bytes alone: blocks of which no byte is told.
#[tactic(auto, using(print::proofs::Lines::lines), unfolding(crate::specs::Meanings::locks_text))]
pub fn put_locks(line: &mut Line, locks: &Blocks<'_, 1>, first: u8)
    requires { locks.now.long ≡ 0 }
    ensures { seen line.new ≡ laid (seen line.old) (locks_text first locks.now.place locks.now.count locks.now.frame.now) }
{
    line.decimal(locks.count as u64);
    line.put(b" blocks");
    put_locked(line, locks, first);
}
