// What a label does with a request: each step takes the old label and gives back the new one, what it answers and what is written.
ghost use Rattle.std.specs.Prelude.{◌≡◌, ◌+◌, ◌^◌, ◌≤◌, ltb, if◌then◌else◌};
ghost use Rattle.frame.specs.Choose.{bit, set?};
ghost use Rattle.request.specs.declared.label.Family.TheVariants.{Only};
ghost use Rattle.request.specs.Label.{both};
ghost use Rattle.label.specs.Step.{awake, told, with_slot, silent, done, failed, field_off, field_on, ended, passes, ready, heeds, turn, opens, inventory};
ghost use Rattle.label.specs.Step.{end_of_frame, acts, perform, passed, asked, faulted, act, with_state, with_locks};
ghost use Rattle.label.specs.Step.{read_blocks, write_block, lock_block};

use frame::uid::{ends_in, ends_in_slot, same_uid};
use request::label::{Call, Family, Request, Target};
use request::table::Task;

// The part of a label that steps: its body's first 25 bytes.
#[derive(Clone, Copy)]
pub struct Label {
    pub uid: [u8; 8],
    pub dsfid: u8,
    pub afi: u8,
    pub locks: u8,
    pub blocks: u8,
    pub size: u8,
    pub ic: u8,
    // A number: a body is loaded and stored byte for byte, one that breaks the rules too (`load_of`, `store_of`).
    pub state: u8,
    pub slot: u8,
    pub bits: u8,
    pub mask: u64,
}

#[derive(Clone, Copy)]
pub enum Answer {
    Silent,
    Error(u8),
    Done,
    // To an Inventory: DSFID and UID.
    Found,
    Block(u8, bool),
    Info,
    // A block and so many more behind it; the same with each one's lock before it; the locks alone.
    Blocks(u8, u8),
    LocksAndBlocks(u8, u8),
    Locks(u8, u8),
}

// What is written beside the label's first bytes: a block becomes the bytes sent, or it is locked.
#[derive(Clone, Copy)]
pub enum Work {
    Write(u8),
    Lock(u8),
}

// The next label, what it answers, and what else is written, if anything.
#[derive(Clone, Copy)]
pub struct Stepped {
    pub next: Label,
    pub answer: Answer,
    pub work: Option<Work>,
}

// Whether a label's AFI is one that the byte f asks for: 00 asks for all, low half 0 for all of that high half.
#[tactic(auto, using(crate::proofs::StepFamily::all_asked, crate::proofs::StepFamily::half_asked, crate::proofs::StepFamily::one_asked))]
fn family_has(f: u8, afi: u8) -> bool
    ensures { result ≡ passes (Only f) afi }
{
    match f {
        0 => true,
        _ if f % 16 == 0 => f / 16 == afi / 16,
        _ => f == afi,
    }
}

// Whether a label's AFI passes a family asked for.
#[tactic(auto, unfolding(crate::specs::Step::passes))]
pub fn passing(family: Family, afi: u8) -> bool
    ensures { result ≡ passes family afi }
{
    match family {
        Family::Any => true,
        Family::Only(f) => family_has(f, afi),
    }
}

impl Label {
    fn told(self, answer: Answer) -> Stepped
        ensures { result ≡ told answer self }
    {
        Stepped {
            next: self,
            answer,
            work: None,
        }
    }

    fn silent(self) -> Stepped
        ensures { result ≡ silent self }
    {
        self.told(Answer::Silent)
    }

    fn done(self) -> Stepped
        ensures { result ≡ done self }
    {
        self.told(Answer::Done)
    }

    fn failed(self, code: u8) -> Stepped
        ensures { result ≡ failed code self }
    {
        self.told(Answer::Error(code))
    }

    fn put_state(self, state: u8) -> Label
        ensures { result ≡ with_state state self }
    {
        Label { state, ..self }
    }

    // With a slot sequence in a slot, and its mask of so many bits.
    fn in_slot(self, slot: u8, bits: u8, mask: u64) -> Label
        ensures { result ≡ with_slot slot bits mask self }
    {
        Label {
            slot,
            bits,
            mask,
            ..self
        }
    }

    // With no slot sequence.
    #[tactic(auto, unfolding(crate::specs::Step::ended))]
    fn ended(self) -> Label
        ensures { result ≡ ended self }
    {
        self.in_slot(255, 0, 0)
    }

    // Ready or selected.
    #[tactic(auto, unfolding(crate::specs::Step::ready))]
    fn is_ready(self) -> bool
        ensures { result ≡ ready self }
    {
        self.state == 1 || self.state == 3
    }

    #[tactic(auto, unfolding(crate::specs::Step::field_off))]
    fn field_off(self) -> Stepped
        ensures { result ≡ field_off self }
    {
        self.ended().put_state(0).silent()
    }

    #[tactic(auto, unfolding(crate::specs::Step::field_on))]
    fn field_on(self) -> Stepped
        ensures { result ≡ field_on self }
    {
        if self.state == 0 {
            self.put_state(1).silent()
        } else {
            self.silent()
        }
    }

    // In a slot: answers if its UID ends in the mask with the slot above it.
    #[tactic(auto, unfolding(crate::specs::Step::turn))]
    fn turn(self) -> Stepped
        ensures { result ≡ turn self }
    {
        if ends_in_slot(self.uid, self.mask, self.bits as u32, self.slot) {
            self.told(Answer::Found)
        } else {
            self.silent()
        }
    }

    // Ready or selected, and its AFI passes.
    #[tactic(auto, unfolding(crate::specs::Step::heeds))]
    pub fn heeds(self, family: Family) -> bool
        ensures { result ≡ heeds family self }
    {
        self.is_ready() && passing(family, self.afi)
    }

    // Sixteen slots: slot 0 starts; one slot: answers if its UID ends in the mask.
    #[tactic(auto, unfolding(crate::specs::Step::opens))]
    fn opens(self, sixteen: bool, bits: u8, mask: u64) -> Stepped
        ensures { result ≡ opens sixteen bits mask self }
    {
        if sixteen {
            return self.in_slot(0, bits, mask).turn();
        }
        if ends_in(self.uid, mask, bits as u32) {
            self.told(Answer::Found)
        } else {
            self.silent()
        }
    }

    #[tactic(auto, unfolding(crate::specs::Step::inventory))]
    fn inventory(self, family: Family, sixteen: bool, bits: u8, mask: u64) -> Stepped
        ensures { result ≡ awake (inventory family sixteen bits mask self) self }
    {
        if self.state == 0 {
            return self.silent();
        }
        let l = self.ended();
        if self.heeds(family) {
            l.opens(sixteen, bits, mask)
        } else {
            l.silent()
        }
    }

    // A bare end of frame adds one to a running slot; after 15 the sequence ends in silence.
    #[tactic(auto, unfolding(crate::specs::Step::end_of_frame))]
    fn end_of_frame(self) -> Stepped
        ensures { result ≡ awake (end_of_frame self) self }
    {
        if self.state == 0 {
            return self.silent();
        }
        if self.slot < 15 {
            return self.in_slot(self.slot + 1, self.bits, self.mask).turn();
        }
        if self.slot == 15 {
            self.ended().silent()
        } else {
            self.silent()
        }
    }

    // Whether it is meant.
    #[tactic(auto, unfolding(crate::specs::Step::acts))]
    fn is_meant(self, to: Target, uid: [u8; 8]) -> bool
        ensures { result ≡ acts to uid self }
    {
        match to {
            Target::Everyone => self.is_ready(),
            Target::Selected => self.state == 3,
            Target::One => same_uid(uid, self.uid),
        }
    }

    // An answer from block n and so many more behind it, the last of which may be past the end.
    fn read(self, n: u8, more: u8, answer: Answer) -> Stepped
        ensures { result ≡ (if ltb self.blocks (n + more) then failed 0x10 self else told answer self) }
    {
        if (self.blocks as u32) < n as u32 + more as u32 {
            self.failed(0x10)
        } else {
            self.told(answer)
        }
    }

    #[tactic(auto, unfolding(crate::specs::Step::read_blocks))]
    fn read_blocks(self, n: u8, more: u8, lock: bool) -> Stepped
        ensures { result ≡ read_blocks n more lock self }
    {
        if lock {
            self.read(n, more, Answer::LocksAndBlocks(n, more))
        } else {
            self.read(n, more, Answer::Blocks(n, more))
        }
    }

    // count bytes were sent; lock is that of block n.
    #[tactic(auto, unfolding(crate::specs::Step::write_block))]
    fn write_block(self, n: u8, option: bool, count: usize, lock: u8) -> Stepped
        ensures { result ≡ write_block n option count lock self }
    {
        if count != self.size as usize + 1 {
            return self.failed(2);
        }
        if option {
            return self.failed(3);
        }
        if self.blocks < n {
            return self.failed(0x10);
        }
        if lock == 1 {
            return self.failed(0x12);
        }
        Stepped {
            next: self,
            answer: Answer::Done,
            work: Some(Work::Write(n)),
        }
    }

    #[tactic(auto, unfolding(crate::specs::Step::lock_block))]
    fn lock_block(self, n: u8, lock: u8) -> Stepped
        ensures { result ≡ lock_block n lock self }
    {
        if self.blocks < n {
            return self.failed(0x10);
        }
        if lock == 1 {
            return self.failed(0x11);
        }
        Stepped {
            next: self,
            answer: Answer::Done,
            work: Some(Work::Lock(n)),
        }
    }

    // AFI or DSFID is written, locked by bit 0 or 1 of the locks; next has it written.
    fn write_byte(self, at: u8, next: Label) -> Stepped
        requires { at ≤ 1 }
        ensures { result ≡ (if set? (bit at self.locks) then failed 0x12 self else done next) }
    {
        if (self.locks >> at) % 2 == 1 {
            self.failed(0x12)
        } else {
            next.done()
        }
    }

    // AFI or DSFID is locked, by bit 0 or 1 of the locks.
    #[tactic(auto, using(crate::proofs::StepLocks::lock_fits))]
    fn lock_byte(self, at: u8) -> Stepped
        requires { at ≤ 1 }
        ensures { result ≡ (if set? (bit at self.locks) then failed 0x11 self else done (with_locks (self.locks + 2 ^ at) self)) }
    {
        if (self.locks >> at) % 2 == 1 {
            return self.failed(0x11);
        }
        let locks = self.locks + (1 << at);
        let next = Label { locks, ..self };
        next.done()
    }

    // What one that is meant does. The parameters come as two bytes: handed on as a struct they are kept in memory, which costs a third of a step.
    #[tactic(auto, unfolding(crate::specs::Step::perform, crate::specs::Step::read_block, crate::specs::Step::read_blocks, crate::specs::Step::read_locks, crate::specs::Step::write_afi, crate::specs::Step::lock_afi, crate::specs::Step::write_dsfid, crate::specs::Step::lock_dsfid))]
    fn perform(
        self,
        task: Task,
        first: u8,
        second: u8,
        option: bool,
        count: usize,
        lock: u8,
    ) -> Stepped
        ensures { result ≡ perform task (both first second) option count lock self }
    {
        match task {
            Task::Quiet => self.put_state(2).silent(),
            Task::Read => self.read(first, 0, Answer::Block(first, option)),
            Task::Write => self.write_block(first, option, count, lock),
            Task::Lock => self.lock_block(first, lock),
            Task::ReadMany => self.read_blocks(first, second, option),
            Task::Select => self.put_state(3).done(),
            Task::Ready => self.put_state(1).done(),
            Task::WriteAfi => self.write_byte(0, Label { afi: first, ..self }),
            Task::LockAfi => self.lock_byte(0),
            Task::WriteDsfid => self.write_byte(
                1,
                Label {
                    dsfid: first,
                    ..self
                },
            ),
            Task::LockDsfid => self.lock_byte(1),
            Task::Info => self.told(Answer::Info),
            Task::Status => self.read(first, second, Answer::Locks(first, second)),
        }
    }

    // What one that is not meant does: Select for another UID sends state 3 to 1.
    #[tactic(auto, unfolding(crate::specs::Step::passed, request::specs::Table::row_of))]
    fn passed(self, task: Task) -> Stepped
        ensures { result ≡ passed task self }
    {
        match task {
            Task::Select if self.state == 3 => self.put_state(1).silent(),
            _ => self.silent(),
        }
    }

    // A frame that no label acts on.
    fn left_alone(self) -> Stepped
        ensures { result ≡ awake (silent (ended self)) self }
    {
        if self.state == 0 {
            return self.silent();
        }
        self.ended().silent()
    }

    #[tactic(auto, unfolding(crate::specs::Step::faulted))]
    fn faulted(self, to: Target, uid: [u8; 8], code: u8) -> Stepped
        ensures { result ≡ awake (faulted to uid code self) self }
    {
        if self.state == 0 {
            return self.silent();
        }
        let l = self.ended();
        if self.is_meant(to, uid) {
            l.failed(code)
        } else {
            l.silent()
        }
    }

    #[tactic(auto, unfolding(crate::specs::Step::asked))]
    fn asked(
        self,
        to: Target,
        uid: [u8; 8],
        task: Task,
        first: u8,
        second: u8,
        option: bool,
        count: usize,
        lock: u8,
    ) -> Stepped
        ensures { result ≡ awake (asked to uid task (both first second) option count lock self) self }
    {
        if self.state == 0 {
            return self.silent();
        }
        let l = self.ended();
        if self.is_meant(to, uid) {
            l.perform(task, first, second, option, count, lock)
        } else {
            l.passed(task)
        }
    }

    // The label's step; count is how many bytes a write sent, lock that of the block which the first parameter names.
    // Off and on are for every state; tags in state 0 ignore all else: each step tests it, since one test here for all costs a third of a step.
    #[tactic(auto, unfolding(crate::specs::Step::act, crate::specs::Step::called))]
    pub fn act(self, r: Request, count: usize, lock: u8) -> Stepped
        ensures { result ≡ act r count lock self }
    {
        match r.call {
            Call::Ignored => self.silent(),
            Call::Off => self.field_off(),
            Call::On => self.field_on(),
            Call::EndOfFrame => self.end_of_frame(),
            Call::Nobody => self.left_alone(),
            Call::Inventory(family, sixteen, bits, mask) => {
                self.inventory(family, sixteen, bits, mask)
            }
            Call::Fault(to, code) => self.faulted(to, r.uid, code),
            Call::Do(to, task, p, option) => {
                self.asked(to, r.uid, task, p.first, p.second, option, count, lock)
            }
        }
    }
}
