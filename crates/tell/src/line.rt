// The line of one reply.
ghost use Rattle.std.specs.Prelude.{◌≡◌};
ghost use Rattle.print.specs.Line.{laid};
ghost use Rattle.print.specs.Seen.{seen};
ghost use Rattle.tell.specs.Lines.{reply_text, front_text, gap_of, beside_text, line_text, event_word, quiet_text};

use crate::meaning::part_of;
use crate::name::put_name;
use event::call::Report;
use print::line::Line;
use request::signal::Signal;

// The column in which a meaning starts, where there is room before it.
const COLUMN: usize = 60;

// Silence, the answer's bytes, a collision or a refusal, a space in front.
#[tactic(auto, using(print::proofs::Lines::lines), unfolding(crate::specs::Lines::reply_text))]
pub fn put_reply(line: &mut Line, report: Report, answer: &[u8])
    ensures { seen line.new ≡ laid (seen line.old) (reply_text report answer.now) }
{
    if report.number != 0 {
        line.word_number(b" refused ", report.number as u64);
    } else if report.answered == 0 {
        line.put(b" silence");
    } else if report.answered == 1 {
        line.hex(part_of(answer, 0, report.length));
    } else {
        line.word_number(b" collision of ", report.answered as u64);
    }
}

// Line n: what was asked, and the reply.
#[tactic(auto, using(print::proofs::Lines::lines), unfolding(crate::specs::Lines::front_text))]
fn put_front(line: &mut Line, n: u64, number: u8, signal: Signal, report: Report, answer: &[u8])
    ensures { seen line.new ≡ laid (seen line.old) (front_text n number signal report answer.now) }
{
    line.decimal(n);
    line.put(b" ");
    put_name(line, number, signal);
    line.put(b":");
    put_reply(line, report, answer);
}

// How many spaces stand between a front of so many characters and the meaning.
#[tactic(auto, unfolding(crate::specs::Lines::gap_of))]
fn gap(width: usize) -> usize
    ensures { result ≡ gap_of width }
{
    if width < COLUMN - 2 {
        COLUMN - width
    } else {
        2
    }
}

// A meaning behind n spaces, where there is one.
#[tactic(auto, using(print::proofs::Lines::lines), unfolding(crate::specs::Lines::beside_text))]
fn put_beside(line: &mut Line, n: usize, meaning: &[u8])
    ensures { seen line.new ≡ laid (seen line.old) (beside_text n meaning.now) }
{
    if !meaning.is_empty() {
        line.spaces(n);
        line.put(meaning);
    }
}

// Line n: what event `number` asked, the reply, and what it means.
#[tactic(auto, using(print::proofs::Lines::lines, crate::proofs::LineWidth::line_laid, crate::proofs::LineWidth::laid_grows))]
pub fn put_line(
    line: &mut Line,
    n: u64,
    number: u8,
    signal: Signal,
    report: Report,
    answer: &[u8],
    meaning: &[u8],
)
    ensures { seen line.new ≡ laid (seen line.old) (line_text (front_text n number signal report answer.now) meaning.now) }
{
    let from = line.len();
    put_front(line, n, number, signal, report, answer);
    let width = line.len() - from;
    put_beside(line, gap(width), meaning);
    line.put(b"\n");
}

// An event's word, by its number.
#[tactic(auto, using(print::proofs::Lines::lines), unfolding(crate::specs::Lines::event_word))]
fn put_event(line: &mut Line, number: u8)
    ensures { seen line.new ≡ laid (seen line.old) (event_word number) }
{
    line.put(match number {
        1 => b"off",
        2 => b"on",
        3 => b"label",
        4 => b"eof",
        5 => b"chip",
        _ => b"event",
    });
}

// Line n: the event's word and the reply.
#[tactic(auto, using(print::proofs::Lines::lines), unfolding(crate::specs::Lines::quiet_text))]
pub fn put_quiet(line: &mut Line, n: u64, number: u8, report: Report, answer: &[u8])
    ensures { seen line.new ≡ laid (seen line.old) (quiet_text n number report answer.now) }
{
    line.decimal(n);
    line.put(b" ");
    put_event(line, number);
    line.put(b":");
    put_reply(line, report, answer);
    line.put(b"\n");
}
