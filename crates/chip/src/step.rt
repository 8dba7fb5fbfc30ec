// What a chip does with an order: each step takes the old chip and gives back the new one, what it answers and what is written.
ghost use Rattle.std.specs.Prelude.{◌≡◌, not, eqb, if◌then◌else◌};
ghost use Rattle.chip.specs.Step.{with, silent, told, chosen, field_off, field_on, initiate, pcall, marker, select, leave, write, act};
ghost use Rattle.chip.specs.Write.{count_down, lock_down, locked, reloads, written};

use request::chip::Order;

// The part of a chip that steps: byte 64 is own.
#[derive(Clone, Copy)]
pub struct Chip {
    pub own: u8,
    // A number: a body is loaded and stored byte for byte, one that breaks the rules too (`load_of`, `store_of`).
    pub state: u8,
    pub id: u8,
    pub reload: u8,
    pub fixed: u8,
}

#[derive(Clone, Copy)]
pub enum Answer {
    Silent,
    Id(u8),
    Block(u8),
    Uid,
}

// A block and what it becomes.
#[derive(Clone, Copy)]
pub struct Put {
    pub block: u8,
    pub value: u32,
}

// The next chip, what it answers, and the block that is written, if any.
#[derive(Clone, Copy)]
pub struct Stepped {
    pub next: Chip,
    pub answer: Answer,
    pub work: Option<Put>,
}

// A counter becomes what is written where that is less.
#[tactic(auto, unfolding(crate::specs::Write::count_down))]
pub fn count_down(old: u32, new: u32) -> u32
    ensures { result ≡ count_down old new }
{
    old.min(new)
}

// Bits 31 to 16 become o AND w, the rest stay.
fn lock_down(o: u32, w: u32) -> u32
    ensures { result ≡ lock_down o w }
{
    (o / 65536 & w / 65536) * 65536 + o % 65536
}

// Whether block 255, s, locks block a.
#[tactic(auto, unfolding(crate::specs::Write::locked))]
pub fn is_locked(s: u32, a: u8) -> bool
    ensures { result ≡ locked s a }
{
    a < 16 && (s >> (16 + a as u32)) % 2 == 0
}

// What block a, o before, becomes when w is written and it is not locked.
#[tactic(auto, unfolding(crate::specs::Write::written))]
pub fn write_rule(a: u8, o: u32, w: u32, reload: u8) -> u32
    ensures { result ≡ written a o w reload }
{
    match a {
        0..=4 if reload == 1 => w,
        0..=4 => o & w,
        5 | 6 => count_down(o, w),
        7..=15 => w,
        _ => lock_down(o, w),
    }
}

// Whether a write of w to block a, o before, sets reload.
#[tactic(auto, unfolding(crate::specs::Write::reloads))]
fn sets_reload(a: u8, o: u32, w: u32) -> bool
    ensures { result ≡ reloads a o w }
{
    a == 6 && o / 2097152 != count_down(o, w) / 2097152
}

impl Chip {
    fn told(self, answer: Answer) -> Stepped
        ensures { result ≡ told answer self }
    {
        Stepped {
            next: self,
            answer,
            work: None,
        }
    }

    fn silent(self) -> Stepped
        ensures { result ≡ silent self }
    {
        self.told(Answer::Silent)
    }

    #[tactic(auto, unfolding(crate::specs::Step::field_off))]
    fn field_off(self) -> Stepped
        ensures { result ≡ field_off self }
    {
        let next = Chip {
            state: 0,
            id: 0,
            reload: 0,
            ..self
        };
        next.silent()
    }

    #[tactic(auto, unfolding(crate::specs::Step::field_on))]
    fn field_on(self, draw: u8) -> Stepped
        ensures { result ≡ field_on draw self }
    {
        if self.state != 0 {
            return self.silent();
        }
        let next = Chip {
            state: 1,
            id: if self.fixed == 1 { self.own } else { draw },
            ..self
        };
        next.silent()
    }

    // The Chip_ID that INITIATE leaves: the draw, or the fixed one.
    #[tactic(auto, unfolding(crate::specs::Step::chosen))]
    fn chosen(self, draw: u8) -> u8
        ensures { result ≡ chosen draw self }
    {
        if self.fixed == 1 { self.id } else { draw }
    }

    // INITIATE is for states 1 and 2.
    #[tactic(auto, unfolding(crate::specs::Step::initiate))]
    fn initiate(self, draw: u8) -> Stepped
        ensures { result ≡ initiate draw self }
    {
        if !matches!(self.state, 1 | 2) {
            return self.silent();
        }
        let id = self.chosen(draw);
        let next = Chip {
            state: 2,
            id,
            ..self
        };
        next.told(Answer::Id(id))
    }

    #[tactic(auto, unfolding(crate::specs::Step::pcall))]
    fn pcall(self, draw: u8) -> Stepped
        ensures { result ≡ pcall draw self }
    {
        if self.state != 2 {
            return self.silent();
        }
        let low = self.chosen(draw) % 16;
        let id = self.id / 16 * 16 + low;
        let next = Chip { id, ..self };
        if low == 0 {
            next.told(Answer::Id(id))
        } else {
            next.silent()
        }
    }

    #[tactic(auto, unfolding(crate::specs::Step::marker))]
    fn marker(self, s: u8) -> Stepped
        ensures { result ≡ marker s self }
    {
        if self.state == 2 && self.id % 16 == s {
            self.told(Answer::Id(self.id))
        } else {
            self.silent()
        }
    }

    // Leaving state 3 clears reload.
    #[tactic(auto, unfolding(crate::specs::Step::leave))]
    fn leave(self, state: u8) -> Stepped
        ensures { result ≡ leave state self }
    {
        if self.state != 3 {
            return self.silent();
        }
        let next = Chip {
            state,
            reload: 0,
            ..self
        };
        next.silent()
    }

    // SELECT with its own Chip_ID is for states 2, 3 and 4.
    #[tactic(auto, unfolding(crate::specs::Step::select))]
    fn select(self, id: u8) -> Stepped
        ensures { result ≡ select id self }
    {
        if self.id != id {
            return self.leave(4);
        }
        if matches!(self.state, 2 | 3 | 4) {
            let next = Chip {
                state: 3,
                reload: 0,
                ..self
            };
            return next.told(Answer::Id(id));
        }
        self.silent()
    }

    // A read of a block or of the UID: answered in state 3.
    fn read(self, answer: Answer) -> Stepped
        ensures { result ≡ (if not (eqb self.state 3) then silent self else told answer self) }
    {
        if self.state == 3 {
            self.told(answer)
        } else {
            self.silent()
        }
    }

    // o is block a before, s is block 255.
    #[tactic(auto, unfolding(crate::specs::Step::write))]
    fn write(self, a: u8, w: u32, o: u32, s: u32) -> Stepped
        ensures { result ≡ write a w o s self }
    {
        if self.state != 3 || is_locked(s, a) {
            return self.silent();
        }
        let value = write_rule(a, o, w, self.reload);
        Stepped {
            next: if sets_reload(a, o, w) {
                Chip { reload: 1, ..self }
            } else {
                self
            },
            answer: Answer::Silent,
            work: Some(Put { block: a, value }),
        }
    }

    // The chip's step on an order; o is the block that a write names, s is block 255.
    #[tactic(auto, unfolding(crate::specs::Step::act, crate::specs::Step::read, crate::specs::Step::uid))]
    pub fn act(self, order: Order, draw: u8, o: u32, s: u32) -> Stepped
        ensures { result ≡ act order draw o s self }
    {
        match order {
            Order::Ignored => self.silent(),
            Order::Off => self.field_off(),
            Order::On => self.field_on(draw),
            Order::Initiate => self.initiate(draw),
            Order::Pcall => self.pcall(draw),
            Order::Marker(n) => self.marker(n),
            Order::Select(id) => self.select(id),
            Order::Completion => self.leave(5),
            Order::Reset => self.leave(2),
            Order::Read(a) => self.read(Answer::Block(a)),
            Order::Uid => self.read(Answer::Uid),
            Order::Write(a, w) => self.write(a, w, o, s),
        }
    }
}
