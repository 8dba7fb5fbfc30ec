// Words that a number or a test chooses.
ghost use Rattle.std.specs.Prelude.{◌≡◌};
ghost use Rattle.print.specs.Line.{laid};
ghost use Rattle.print.specs.Seen.{seen};
ghost use Rattle.sheet.specs.Words.{label_state, chip_state, yes_or_no, lock_mark, lock_column, blanks_behind, tags_word};

use print::line::Line;

#[tactic(auto, using(print::proofs::Lines::lines), unfolding(crate::specs::Words::label_state))]
pub fn put_label_state(line: &mut Line, s: u8)
    ensures { seen line.new ≡ laid (seen line.old) (label_state s) }
{
    line.put(match s {
        0 => b"off",
        1 => b"ready",
        2 => b"quiet",
        _ => b"selected",
    });
}

#[tactic(auto, using(print::proofs::Lines::lines), unfolding(crate::specs::Words::chip_state))]
pub fn put_chip_state(line: &mut Line, s: u8)
    ensures { seen line.new ≡ laid (seen line.old) (chip_state s) }
{
    line.put(match s {
        0 => b"off",
        1 => b"ready",
        2 => b"inventory",
        3 => b"selected",
        4 => b"deselected",
        _ => b"deactivated",
    });
}

// A choice of two words, and so is `put_tags_word`: one function for both would be given the words, which are all that each says.
#[tactic(auto, using(print::proofs::Lines::lines), unfolding(crate::specs::Words::yes_or_no))]
pub fn put_yes_or_no(line: &mut Line, n: u8)
    ensures { seen line.new ≡ laid (seen line.old) (yes_or_no n) }
{
    line.put(if n == 1 { b"yes" } else { b"no" });
}

#[tactic(auto, using(print::proofs::Lines::lines), unfolding(crate::specs::Words::lock_mark))]
pub fn put_lock_mark(line: &mut Line, locked: bool)
    ensures { seen line.new ≡ laid (seen line.old) (lock_mark locked) }
{
    if locked {
        line.put(b" locked");
    }
}

#[tactic(auto, using(print::proofs::Lines::lines), unfolding(crate::specs::Words::lock_column))]
pub fn put_lock_column(line: &mut Line, locked: bool)
    ensures { seen line.new ≡ laid (seen line.old) (lock_column locked) }
{
    line.put(if locked { b"  locked" } else { b"        " });
}

#[tactic(auto, using(print::proofs::Lines::lines), unfolding(crate::specs::Words::blanks_behind))]
pub fn put_blanks_behind(line: &mut Line, n: u8)
    ensures { seen line.new ≡ laid (seen line.old) (blanks_behind n) }
{
    line.put(match n {
        0..=9 => b"  ",
        10..=99 => b" ",
        _ => b"",
    });
}

#[tactic(auto, using(print::proofs::Lines::lines), unfolding(crate::specs::Words::tags_word))]
pub fn put_tags_word(line: &mut Line, n: usize)
    ensures { seen line.new ≡ laid (seen line.old) (tags_word n) }
{
    line.put(if n == 1 { b" tag, " } else { b" tags, " });
}
