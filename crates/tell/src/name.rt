// What an event asks, in words.
ghost use Rattle.std.specs.Prelude.{◌≡◌};
ghost use Rattle.print.specs.Line.{laid};
ghost use Rattle.print.specs.Seen.{seen};
ghost use Rattle.tell.specs.Names.{target_text, block_of, read_text, byte_of, range_text, read_many_text, status_text, task_text, do_text};
ghost use Rattle.tell.specs.Names.{slots_text, family_text, bits_text, mask_text, inventory_text, call_text, order_text, name_text};

use frame::put::put_number;
use print::line::Line;
use request::chip::Order;
use request::label::{Call, Family, Params, Target};
use request::signal::Signal;
use request::table::Task;

// ---- labels

#[tactic(auto, using(print::proofs::Lines::lines), unfolding(crate::specs::Names::target_text))]
fn put_target(line: &mut Line, to: Target, uid: [u8; 8])
    ensures { seen line.new ≡ laid (seen line.old) (target_text to uid) }
{
    match to {
        Target::Everyone => line.put(b"all"),
        Target::Selected => line.put(b"selected"),
        Target::One => line.uid(uid),
    }
}

// What is done to block n.
#[tactic(auto, using(print::proofs::Lines::lines), unfolding(crate::specs::Names::block_of))]
fn put_block_of(line: &mut Line, s: &[u8], n: u8)
    ensures { seen line.new ≡ laid (seen line.old) (block_of s.now n) }
{
    line.word_number(s, n as u64);
    line.put(b" of ");
}

#[tactic(auto, using(print::proofs::Lines::lines), unfolding(crate::specs::Names::read_text))]
fn put_read(line: &mut Line, n: u8, option: bool)
    ensures { seen line.new ≡ laid (seen line.old) (read_text n option) }
{
    if option {
        line.word_number(b"read block ", n as u64);
        line.put(b" with lock of ");
    } else {
        put_block_of(line, b"read block ", n);
    }
}

// What is made of byte b.
#[tactic(auto, using(print::proofs::Lines::lines), unfolding(crate::specs::Names::byte_of))]
fn put_byte_of(line: &mut Line, s: &[u8], b: u8)
    ensures { seen line.new ≡ laid (seen line.old) (byte_of s.now b) }
{
    line.word_byte(s, b);
    line.put(b" of ");
}

// A first block and a last one.
#[tactic(auto, using(print::proofs::Lines::lines), unfolding(crate::specs::Names::range_text))]
fn put_range(line: &mut Line, s: &[u8], p: Params)
    ensures { seen line.new ≡ laid (seen line.old) (range_text s.now p) }
{
    line.word_number(s, p.first as u64);
    line.word_number(b" to ", p.first as u64 + p.second as u64);
}

#[tactic(auto, using(print::proofs::Lines::lines), unfolding(crate::specs::Names::read_many_text))]
fn put_read_many(line: &mut Line, p: Params, option: bool)
    ensures { seen line.new ≡ laid (seen line.old) (read_many_text p option) }
{
    put_range(line, b"read blocks ", p);
    if option {
        line.put(b" with locks of ");
    } else {
        line.put(b" of ");
    }
}

#[tactic(auto, using(print::proofs::Lines::lines), unfolding(crate::specs::Names::status_text))]
fn put_status(line: &mut Line, p: Params)
    ensures { seen line.new ≡ laid (seen line.old) (status_text p) }
{
    put_range(line, b"status of blocks ", p);
    line.put(b" of ");
}

#[tactic(auto, using(print::proofs::Lines::lines), unfolding(crate::specs::Names::task_text))]
fn put_task(line: &mut Line, task: Task, p: Params, option: bool)
    ensures { seen line.new ≡ laid (seen line.old) (task_text task p option) }
{
    match task {
        Task::Quiet => line.put(b"quiet "),
        Task::Read => put_read(line, p.first, option),
        Task::Write => put_block_of(line, b"write block ", p.first),
        Task::Lock => put_block_of(line, b"lock block ", p.first),
        Task::ReadMany => put_read_many(line, p, option),
        Task::Select => line.put(b"select "),
        Task::Ready => line.put(b"ready "),
        Task::WriteAfi => put_byte_of(line, b"write AFI ", p.first),
        Task::LockAfi => line.put(b"lock AFI of "),
        Task::WriteDsfid => put_byte_of(line, b"write DSFID ", p.first),
        Task::LockDsfid => line.put(b"lock DSFID of "),
        Task::Info => line.put(b"info of "),
        Task::Status => put_status(line, p),
    }
}

#[tactic(auto, using(print::proofs::Lines::lines), unfolding(crate::specs::Names::do_text))]
fn put_do(line: &mut Line, to: Target, uid: [u8; 8], task: Task, p: Params, option: bool)
    ensures { seen line.new ≡ laid (seen line.old) (do_text to uid task p option) }
{
    put_task(line, task, p, option);
    put_target(line, to, uid);
}

#[tactic(auto, using(print::proofs::Lines::lines), unfolding(crate::specs::Names::slots_text))]
fn put_slots(line: &mut Line, sixteen: bool)
    ensures { seen line.new ≡ laid (seen line.old) (slots_text sixteen) }
{
    line.put(if sixteen {
        b"inventory 16"
    } else {
        b"inventory"
    });
}

#[tactic(auto, using(print::proofs::Lines::lines), unfolding(crate::specs::Names::family_text))]
fn put_family(line: &mut Line, family: Family)
    ensures { seen line.new ≡ laid (seen line.old) (family_text family) }
{
    match family {
        Family::Any => {}
        Family::Only(afi) => line.word_byte(b" afi ", afi),
    }
}

// A mask's bits, high byte first, in as few bytes as hold them.
#[tactic(auto, using(print::proofs::Lines::lines), unfolding(crate::specs::Names::bits_text))]
fn put_bits(line: &mut Line, bits: u8, mask: u64)
    ensures { seen line.new ≡ laid (seen line.old) (bits_text bits mask) }
{
    let mut low = [0u8; 32];
    let few = (bits as usize + 7) / 8;
    let k = put_number(&mut low, 0, mask, few);
    line.back(&low[..k]);
}

#[tactic(auto, using(print::proofs::Lines::lines), unfolding(crate::specs::Names::mask_text))]
fn put_mask(line: &mut Line, bits: u8, mask: u64)
    ensures { seen line.new ≡ laid (seen line.old) (mask_text bits mask) }
{
    if bits != 0 {
        line.word_number(b" mask ", bits as u64);
        line.put(b"/");
        put_bits(line, bits, mask);
    }
}

#[tactic(auto, using(print::proofs::Lines::lines), unfolding(crate::specs::Names::inventory_text))]
fn put_inventory(line: &mut Line, family: Family, sixteen: bool, bits: u8, mask: u64)
    ensures { seen line.new ≡ laid (seen line.old) (inventory_text family sixteen bits mask) }
{
    put_slots(line, sixteen);
    put_family(line, family);
    put_mask(line, bits, mask);
}

#[tactic(auto, using(print::proofs::Lines::lines), unfolding(crate::specs::Names::call_text))]
fn put_call(line: &mut Line, uid: [u8; 8], call: Call)
    ensures { seen line.new ≡ laid (seen line.old) (call_text uid call) }
{
    match call {
        Call::Ignored => line.put(b"event"),
        Call::Off => line.put(b"off"),
        Call::On => line.put(b"on"),
        Call::EndOfFrame => line.put(b"eof"),
        Call::Nobody | Call::Fault(_, _) => line.put(b"label"),
        Call::Inventory(family, sixteen, bits, mask) => {
            put_inventory(line, family, sixteen, bits, mask)
        }
        Call::Do(to, task, p, option) => put_do(line, to, uid, task, p, option),
    }
}

// ---- chips

#[tactic(auto, using(print::proofs::Lines::lines), unfolding(crate::specs::Names::order_text))]
fn put_order(line: &mut Line, order: Order)
    ensures { seen line.new ≡ laid (seen line.old) (order_text order) }
{
    match order {
        Order::Ignored => line.put(b"chip"),
        Order::Off => line.put(b"off"),
        Order::On => line.put(b"on"),
        Order::Initiate => line.put(b"initiate"),
        Order::Pcall => line.put(b"pcall"),
        Order::Marker(slot) => line.word_number(b"slot ", slot as u64),
        Order::Select(id) => line.word_byte(b"select ", id),
        Order::Completion => line.put(b"completion"),
        Order::Reset => line.put(b"reset"),
        Order::Read(n) => line.word_number(b"get ", n as u64),
        Order::Uid => line.put(b"uid"),
        Order::Write(n, _) => line.word_number(b"put ", n as u64),
    }
}

// What event `number` asks.
#[tactic(auto, using(print::proofs::Lines::lines), unfolding(crate::specs::Names::name_text))]
pub fn put_name(line: &mut Line, number: u8, signal: Signal)
    ensures { seen line.new ≡ laid (seen line.old) (name_text number signal) }
{
    if number == 5 {
        put_order(line, signal.chip);
    } else {
        put_call(line, signal.label.uid, signal.label.call);
    }
}
