// A reading as numbers, for C.
ghost use Rattle.std.specs.Prelude.{◌≡◌};
ghost use Rattle.face.specs.Told.{told_by, told_as};

use answer::reading::Meaning;

// What a reading says; what does not go with its meaning is 0. C gets it as it stands, so it has numbers for kinds.
#[repr(C)]
#[derive(Clone, Copy)]
pub struct Told {
    pub number: u8,
    pub meaning: u8,
    pub error: u8,
    pub dsfid: u8,
    pub afi: u8,
    pub blocks: u8,
    pub size: u8,
    pub ic: u8,
    pub lock: u8,
    pub id: u8,
    pub word: u32,
    pub place: usize,
    pub length: usize,
    pub uid: u64,
    pub count: usize,
}

const NOTHING: Told = Told {
    number: 0,
    meaning: 0,
    error: 0,
    dsfid: 0,
    afi: 0,
    blocks: 0,
    size: 0,
    ic: 0,
    lock: 0,
    id: 0,
    word: 0,
    place: 0,
    length: 0,
    uid: 0,
    count: 0,
};

// A meaning with nothing beside it.
fn bare(meaning: u8) -> Told
    ensures { result ≡ told_by 0 meaning 0 0 0 0 0 0 0 0 0 0 0 0 0 }
{
    Told { meaning, ..NOTHING }
}

// Blocks, or their lock bytes: the place of the first, the length of each, how many.
fn several(meaning: u8, place: usize, length: usize, count: usize) -> Told
    ensures { result ≡ told_by 0 meaning 0 0 0 0 0 0 0 0 0 place «length» 0 count }
{
    Told {
        place,
        length,
        count,
        ..bare(meaning)
    }
}

// What a label says of itself.
fn info(dsfid: u8, afi: u8, blocks: u8, size: u8, ic: u8, uid: u64) -> Told
    ensures { result ≡ told_by 0 6 0 dsfid afi blocks size ic 0 0 0 0 0 uid 0 }
{
    Told {
        dsfid,
        afi,
        blocks,
        size,
        ic,
        uid,
        ..bare(6)
    }
}

#[tactic(auto, unfolding(crate::specs::Told::told_as))]
pub fn tell(meaning: Meaning, uid: u64) -> Told
    ensures { result ≡ told_as meaning uid }
{
    match meaning {
        Meaning::Refused(number) => Told { number, ..NOTHING },
        Meaning::Error(error) => Told { error, ..bare(1) },
        Meaning::Done => bare(2),
        Meaning::Found(dsfid) => Told {
            dsfid,
            uid,
            ..bare(3)
        },
        Meaning::Block(at, n) => several(4, at, n, 0),
        Meaning::LockAndBlock(lock, at, n) => {
            let block = several(5, at, n, 0);
            Told { lock, ..block }
        }
        Meaning::Info(d, a, b, s, i) => info(d, a, b, s, i, uid),
        Meaning::Id(id) => Told { id, ..bare(7) },
        Meaning::Word(word) => Told { word, ..bare(8) },
        Meaning::Uid => Told { uid, ..bare(9) },
        Meaning::Blocks(at, n, count) => several(10, at, n, count),
        Meaning::LocksAndBlocks(at, n, count) => several(11, at, n, count),
        Meaning::Locks(at, count) => several(12, at, 1, count),
    }
}
