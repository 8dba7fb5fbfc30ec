// Why nobody answered, in words.
ghost use Rattle.std.specs.Prelude.{◌≡◌, ◌-◌, length};
ghost use Rattle.print.specs.Line.{laid};
ghost use Rattle.print.specs.Seen.{seen};
ghost use Rattle.trace.specs.Words.{stands_text, should_text, sum_text, frame_text, chip_frame_text, slot_text, reason_text, why_text};

use crate::reason::{Reason, reason_of};
use frame::check_sum::sum_of;
use print::line::Line;
use rack::whole::Rack;
use request::signal::Signal;
use request::why::{Why, WhyChip};

// Where a frame's check sum starts.
fn sum_place(len: usize) -> usize
    ensures { result ≡ len - 2 }
{
    len.saturating_sub(2)
}

// A frame's check sum, as it stands.
#[tactic(auto, using(print::proofs::Lines::lines), unfolding(crate::specs::Words::stands_text))]
fn put_stands(line: &mut Line, f: &[u8])
    ensures { seen line.new ≡ laid (seen line.old) (stands_text f.now) }
{
    line.hex(&f[sum_place(f.len())..]);
}

// And as it should be.
#[tactic(auto, using(print::proofs::Lines::lines), unfolding(crate::specs::Words::should_text))]
fn put_should(line: &mut Line, f: &[u8])
    ensures { seen line.new ≡ laid (seen line.old) (should_text f.now) }
{
    let sum = sum_of(&f[..sum_place(f.len())]);
    line.hex(&sum.to_le_bytes());
}

// A wrong check sum.
#[tactic(auto, using(print::proofs::Lines::lines), unfolding(crate::specs::Words::sum_text))]
fn put_wrong_sum(line: &mut Line, f: &[u8])
    ensures { seen line.new ≡ laid (seen line.old) (sum_text f.now) }
{
    line.put(b"check sum wrong:");
    put_stands(line, f);
    line.put(b" for");
    put_should(line, f);
}

#[tactic(auto, using(print::proofs::Lines::lines), unfolding(crate::specs::Words::frame_text))]
fn put_frame(line: &mut Line, why: Why, f: &[u8])
    ensures { seen line.new ≡ laid (seen line.old) (frame_text why f.now) }
{
    match why {
        Why::Acts => line.put(b"nobody answered"),
        Why::Short => line.put(b"under 4 bytes"),
        Why::Bit3 => line.put(b"flag bit 3 is set"),
        Why::Bit7 => line.put(b"flag bit 7 is set"),
        Why::Sum => put_wrong_sum(line, f),
        Why::OtherCommand => line.put(b"Inventory flag with another command"),
        Why::InventoryOption => line.put(b"Inventory with Option"),
        Why::LongMask => line.put(b"mask too long"),
        Why::OtherLength => line.put(b"another length"),
        Why::BothBits => line.put(b"Select and Address both set"),
        Why::ShortForUid => line.put(b"too short for a UID"),
        Why::Unflagged => line.put(b"Inventory without its flag"),
        Why::WantsUid => line.put(b"wants a UID"),
        Why::QuietFault => line.put(b"stay quiet: not well formed"),
    }
}

#[tactic(auto, using(print::proofs::Lines::lines), unfolding(crate::specs::Words::chip_frame_text))]
fn put_chip_frame(line: &mut Line, why: WhyChip, f: &[u8])
    ensures { seen line.new ≡ laid (seen line.old) (chip_frame_text why f.now) }
{
    match why {
        WhyChip::Heard => line.put(b"no chip answered"),
        WhyChip::Short => line.put(b"under 3 bytes"),
        WhyChip::Sum => put_wrong_sum(line, f),
        WhyChip::Unknown => line.put(b"no such chip command"),
    }
}

// Words and a slot behind them.
#[tactic(auto, using(print::proofs::Lines::lines), unfolding(crate::specs::Words::slot_text))]
fn put_slot(line: &mut Line, words: &[u8], s: u8)
    ensures { seen line.new ≡ laid (seen line.old) (slot_text words.now s) }
{
    line.put(words);
    line.decimal(s as u64);
}

// Why nobody answered.
#[tactic(auto, using(print::proofs::Lines::lines), unfolding(crate::specs::Words::reason_text))]
fn put_reason(line: &mut Line, reason: Reason, f: &[u8])
    ensures { seen line.new ≡ laid (seen line.old) (reason_text reason f.now) }
{
    match reason {
        Reason::Other => line.put(b"no such event"),
        Reason::EveryOff => line.put(b"every tag is off"),
        Reason::TagsOn => line.put(b"tags are on"),
        Reason::NoLabel => line.put(b"no label here"),
        Reason::NoChip => line.put(b"no chip here"),
        Reason::FieldOff => line.put(b"field is off"),
        Reason::Frame(why) => put_frame(line, why, f),
        Reason::NotReady => line.put(b"no label is ready or selected"),
        Reason::NoFamily => line.put(b"no label of this family"),
        Reason::NoMask => line.put(b"no UID ends in this mask"),
        Reason::InSlot(s) => put_slot(line, b"nobody in slot ", s),
        Reason::NoUid => line.put(b"no label by that UID here"),
        Reason::LabelOff => line.put(b"that label is off"),
        Reason::QuietSilent => line.put(b"quiet has no answer"),
        Reason::NotSelected => line.put(b"no label is selected"),
        Reason::NoRound => line.put(b"no inventory is running"),
        Reason::ChipFrame(why) => put_chip_frame(line, why, f),
        Reason::ChipNotReady => line.put(b"no chip is ready or in inventory"),
        Reason::NoDraw => line.put(b"no chip drew slot 0"),
        Reason::NotInventory => line.put(b"no chip is in inventory"),
        Reason::ChipSlot(s) => put_slot(line, b"no chip in slot ", s),
        Reason::NoChipId => line.put(b"no chip by that Chip_ID can be selected"),
        Reason::NoAnswer => line.put(b"has no answer"),
        Reason::ChipNotSelected => line.put(b"no chip is selected"),
    }
}

// Why nobody answered event `number` with a frame, which asks what the signal says, by the rack that it left.
#[tactic(auto, using(print::proofs::Lines::lines), unfolding(crate::specs::Words::why_text))]
pub fn put_why(line: &mut Line, number: u8, frame: &[u8], signal: Signal, rack: &Rack)
    ensures { seen line.new ≡ laid (seen line.old) (why_text number frame.now signal rack.now) }
{
    let why = reason_of(number, frame, signal, rack);
    put_reason(line, why, frame);
}
