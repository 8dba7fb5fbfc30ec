// A rack from the lines of its text.
ghost use Rattle.std.specs.Prelude.{◌≡◌, ◌-◌, ◌≤◌, length, if◌then◌else◌};
ghost use Rattle.text.specs.Count.{is_decimal};
ghost use Rattle.verbs.specs.Data.{place_of};
ghost use Rattle.draft.specs.Bodies.{Drafts};
ghost use Rattle.make.specs.Lines.{line_of, lines_from, opens_tag, tags_in};
ghost use Rattle.make.specs.Tags.{Takes, Turns, stop, over, fits, entry_place, kind_byte, with_entry, Closes, closed_maker, over_at_once, opened, opens};
ghost use Rattle.make.specs.Tags.{word_behind, edition_in, begins, field_of, Tells, fields_in, measured, told, holds, about, take_line, take_next, take_lines};
ghost use Rattle.make.specs.Made.{first_of, laid_out, judged, Fits, Makes, finished, making_of};

use draft::blocks::block;
use draft::bodies::{body_length, new_tag};
use draft::chips::chip_field;
use draft::labels::{Reached, label_field};
use draft::words::{Part, Why, ended, no_part, uid_from};
use frame::number::byte_at;
use frame::put::put_number;
use frame::verdict::Offence;
use print::put::put_text;
use rack::file::{entry_of, judge};
use rack::tag::Kind;
use text::mark::after_mark;
use verbs::data::place;
use verbs::tokens::{Rest, Span, find, text_of};

// What is wrong with a line.
#[derive(Clone, Copy)]
pub struct Stop {
    pub line: u64,
    pub why: Why,
}

// Why no rack is made: what is wrong with a line, or a rack of so many bytes that is not well-formed.
#[derive(Clone, Copy)]
pub enum Flaw {
    Wrong(Stop),
    Refused(usize, Offence),
}

// The open tag, whose body stands in a buffer of its own: the line that gave it its length, and whether a block has been said.
#[derive(Clone, Copy)]
struct Tag {
    kind: Kind,
    line: u64,
    held: bool,
}

// How far a rack is made.
#[derive(Clone, Copy)]
struct Maker {
    // Lines so far, and whether the edition has been said.
    lines: u64,
    begun: bool,
    // Tags so far, the rack's length with the tags before the open one, and where the open one's body goes.
    count: usize,
    size: usize,
    end: usize,
    tag: Option<Tag>,
}

impl Maker {
    // Something is wrong with the line at hand.
    fn stop(self, why: Why) -> Stop
        ensures { result ≡ stop self.lines why }
    {
        Stop {
            line: self.lines,
            why,
        }
    }

    // Whether the rack has over 65,536 bytes with a tag of this kind.
    #[tactic(auto, unfolding(crate::specs::Tags::over))]
    fn over(self, kind: Kind, b: &[u8]) -> bool
        ensures { result ≡ over self kind b.now }
    {
        65536 < place(place(self.size, 8), body_length(b, kind))
    }

    // There is room for the open tag, or else the line that gave it its length is wrong.
    #[tactic(auto, unfolding(crate::specs::Tags::fits))]
    fn fits(self, b: &[u8]) -> Result<(), Stop>
        ensures { result ≡ fits self b.now }
    {
        match self.tag {
            Some(tag) if self.over(tag.kind, b) => Err(Stop {
                line: tag.line,
                why: Why::Bytes,
            }),
            _ => Ok(()),
        }
    }
}

// Where entry i stands.
#[tactic(auto, unfolding(crate::specs::Tags::entry_place))]
fn entry_place(i: usize) -> usize
    ensures { result ≡ entry_place i }
{
    entry_of(i.min(64))
}

fn kind_byte(kind: Kind) -> u8
    ensures { result ≡ kind_byte kind }
{
    kind as u8
}

// The entry of the last of so many tags.
fn put_entry(out: &mut [u8], count: usize, kind: Kind, len: usize, at: usize)
    ensures { out.new ≡ with_entry count kind len at out.old }
{
    let mut e = [0u8; 8];
    e[0] = kind_byte(kind);
    put_number(&mut e, 2, len as u64, 2);
    put_number(&mut e, 4, at as u64, 4);
    put_text(out, entry_place(count.saturating_sub(1)), &e);
}

// The open tag goes into the rack.
#[tactic(auto, unfolding(crate::specs::Tags::closed_maker, crate::specs::Tags::closed_out))]
fn close(m: Maker, b: &[u8], out: &mut [u8]) -> Maker
    ensures { Closes m b.now out.old result out.new }
{
    let Some(tag) = m.tag else {
        return m;
    };
    let len = body_length(b, tag.kind);
    put_entry(out, m.count, tag.kind, len, m.end);
    put_text(out, m.end, text_of(b, Span { from: 0, to: len }));
    Maker {
        size: place(place(m.size, 8), len),
        end: place(m.end, len),
        ..m
    }
}

// A chip's length is known at once, a label's when all is said of it.
#[tactic(auto, unfolding(crate::specs::Tags::over_at_once))]
fn over_at_once(m: Maker, kind: Kind, b: &[u8]) -> bool
    ensures { result ≡ over_at_once m kind b.now }
{
    kind == Kind::Chip && m.over(kind, b)
}

// A tag is opened where there is room for one more.
#[tactic(auto, unfolding(crate::specs::Tags::opened))]
fn opened(m: Maker, kind: Kind, uid: [u8; 8], b: &mut [u8], out: &mut [u8]) -> Result<Maker, Stop>
    ensures { Takes (opened m kind uid b.old out.old) result b.new out.new }
{
    if 63 < m.count {
        return Err(m.stop(Why::Tags));
    }
    let next = Maker {
        count: place(m.count, 1),
        tag: Some(Tag {
            kind,
            line: m.lines,
            held: false,
        }),
        ..close(m, b, out)
    };
    new_tag(b, kind, uid);
    if over_at_once(next, kind, b) {
        return Err(m.stop(Why::Bytes));
    }
    Ok(next)
}

#[tactic(auto, unfolding(crate::specs::Tags::opens))]
fn open(m: Maker, kind: Kind, rest: Rest, b: &mut [u8], out: &mut [u8]) -> Result<Maker, Stop>
    ensures { Takes (opens m kind rest.entry.line.now rest.entry.at b.old out.old) result b.new out.new }
{
    m.fits(b)?;
    let u = uid_from(rest);
    let uid = u.value.ok_or(m.stop(no_part(u.word.from, Part::Uid)))?;
    ended(rest.behind(u.word)).map_err(|why| m.stop(why))?;
    opened(m, kind, uid, b, out)
}

// The place behind a word of the edition, which must stand next.
#[tactic(auto, unfolding(crate::specs::Tags::word_behind))]
fn word_behind(rest: Rest, word: &[u8]) -> Result<usize, Why>
    ensures { result ≡ word_behind rest.entry.line.now rest.entry.at word.now }
{
    let w = rest.word();
    if rest.next_is(word) {
        return Ok(w.to);
    }
    Err(no_part(w.from, Part::Edition))
}

#[tactic(auto, unfolding(crate::specs::Tags::edition_in))]
fn edition_in(line: &[u8]) -> Result<usize, Why>
    ensures { result ≡ edition_in line.now }
{
    let at = word_behind(Rest { line, at: 0 }, b"rack")?;
    let at = word_behind(Rest { line, at }, b"edition")?;
    let at = word_behind(Rest { line, at }, b"1")?;
    ended(Rest { line, at })
}

#[tactic(auto, unfolding(crate::specs::Tags::begins))]
fn edition(m: Maker, line: &[u8]) -> Result<Maker, Stop>
    ensures { result ≡ begins m line.now }
{
    edition_in(line).map_err(|why| m.stop(why))?;
    Ok(Maker { begun: true, ..m })
}

#[tactic(auto, unfolding(crate::specs::Tags::field_of))]
fn field(b: &mut [u8], line: Rest, w: Span, tag: Tag) -> Result<Reached, Why>
    ensures { Drafts (field_of tag line.entry.line.now w b.old) result b.new }
{
    if tag.kind == Kind::Label {
        return label_field(b, line, w, tag.held);
    }
    let to = chip_field(b, line, w)?;
    Ok(Reached { to, sized: false })
}

// Reads the fields of a line, and says whether `blocks` was among them.
fn fields_in(b: &mut [u8], line: &[u8], tag: Tag) -> Result<bool, Why>
    ensures { Tells (fields_in tag line.now b.old) result b.new }
{
    let mut at = 0;
    let mut sized = false;
    for _ in 0..line.len() {
        let rest = Rest { line, at };
        let w = rest.word();
        if w.is_empty() {
            return Ok(sized);
        }
        let reached = field(b, rest, w, tag)?;
        at = reached.to;
        sized |= reached.sized;
    }
    Ok(sized)
}

#[tactic(auto, unfolding(crate::specs::Tags::told))]
fn told(m: Maker, tag: Tag, line: &[u8], b: &mut [u8]) -> Result<Maker, Stop>
    ensures { Turns (told m tag line.now b.old) result b.new }
{
    let sized = fields_in(b, line, tag).map_err(|why| m.stop(why))?;
    measured(m, tag, sized, b)
}

// A line that said how many blocks there are gives a label its length.
#[tactic(auto, unfolding(crate::specs::Tags::measured))]
fn measured(m: Maker, tag: Tag, sized: bool, b: &[u8]) -> Result<Maker, Stop>
    ensures { result ≡ measured m tag sized b.now }
{
    if !sized {
        return Ok(m);
    }
    if m.over(tag.kind, b) {
        return Err(m.stop(Why::Bytes));
    }
    Ok(Maker {
        tag: Some(Tag {
            line: m.lines,
            ..tag
        }),
        ..m
    })
}

#[tactic(auto, unfolding(crate::specs::Tags::holds))]
fn held(m: Maker, tag: Tag, line: &[u8], b: &mut [u8]) -> Result<Maker, Stop>
    ensures { Turns (holds m tag line.now b.old) result b.new }
{
    block(b, tag.kind, line).map_err(|why| m.stop(why))?;
    Ok(Maker {
        tag: Some(Tag { held: true, ..tag }),
        ..m
    })
}

// A line about the open tag, whose first word stands at a place.
#[tactic(auto, unfolding(crate::specs::Tags::about))]
fn about(m: Maker, line: &[u8], from: usize, b: &mut [u8]) -> Result<Maker, Stop>
    ensures { Turns (about m line.now from b.old) result b.new }
{
    let Some(tag) = m.tag else {
        return Err(m.stop(no_part(from, Part::Tag)));
    };
    if byte_at(line, from).is_ascii_digit() {
        held(m, tag, line, b)
    } else {
        told(m, tag, line, b)
    }
}

#[tactic(auto, unfolding(crate::specs::Tags::take_line))]
fn take_line(m: Maker, line: &[u8], b: &mut [u8], out: &mut [u8]) -> Result<Maker, Stop>
    ensures { Takes (take_line m line.now b.old out.old) result b.new out.new }
{
    let rest = Rest { line, at: 0 };
    let w = rest.word();
    if w.is_empty() {
        return Ok(m);
    }
    if !m.begun {
        return edition(m, line);
    }
    if rest.next_is(b"label") {
        return open(m, Kind::Label, rest.behind(w), b, out);
    }
    if rest.next_is(b"chip") {
        return open(m, Kind::Chip, rest.behind(w), b, out);
    }
    about(m, line, w.from, b)
}

// A line without the carriage return before its newline.
#[tactic(auto, unfolding(crate::specs::Lines::line_of))]
fn line_of(text: &[u8], from: usize, to: usize) -> &[u8]
    ensures { result.now ≡ line_of text.now from to }
{
    let line = text_of(text, Span { from, to });
    let n = line.len();
    if n == 0 || text.len() <= to || line[n - 1] != b'\r' {
        return line;
    }
    &line[..n - 1]
}

// The number of the next line. Numbers wrap, past any text's end.
#[tactic(auto, unfolding(verbs::specs::Data::place_of))]
fn after(line: u64) -> u64
    ensures { result ≡ place_of line 1 }
{
    line.wrapping_add(1)
}

#[tactic(auto, unfolding(crate::specs::Tags::take_next))]
fn take_next(m: Maker, line: &[u8], len: usize, b: &mut [u8], out: &mut [u8]) -> Result<Maker, Stop>
    ensures { Takes (take_next m line.now len b.old out.old) result b.new out.new }
{
    let next = Maker {
        lines: after(m.lines),
        ..m
    };
    if 262143 < len {
        return Err(next.stop(Why::Long));
    }
    take_line(next, line, b, out)
}

// Every line, from a place of the text on.
fn take_lines(
    first: Maker,
    text: &[u8],
    from: usize,
    b: &mut [u8],
    out: &mut [u8],
) -> Result<Maker, Stop>
    ensures { Takes (take_lines (lines_from (length text.now) text.now from) first b.old out.old)
        result b.new out.new }
{
    let mut m = first;
    let mut at = from;
    for _ in 0..text.len() {
        if text.len() <= at {
            return Ok(m);
        }
        let to = find(text, at, b'\n');
        m = take_next(m, line_of(text, at, to), to - at, b, out)?;
        at = place(to, 1);
    }
    Ok(m)
}

#[tactic(auto, unfolding(crate::specs::Lines::opens_tag))]
fn opens_tag(line: &[u8]) -> bool
    ensures { result ≡ opens_tag line.now }
{
    let rest = Rest { line, at: 0 };
    rest.next_is(b"label") || rest.next_is(b"chip")
}

// How many lines open a tag; only so many entries are kept free.
// A loop of its own beside `take_lines`: that one leaves at the first offence and has two buffers lent, which one function over both would not make plainer.
fn count_tags(text: &[u8], from: usize) -> usize
    ensures { result ≡ tags_in (lines_from (length text.now) text.now from) }
{
    let mut n = 0;
    let mut at = from;
    for _ in 0..text.len() {
        if text.len() <= at {
            return n;
        }
        let to = find(text, at, b'\n');
        n += usize::from(opens_tag(line_of(text, at, to)));
        at = place(to, 1);
    }
    n
}

#[tactic(auto, unfolding(crate::specs::Made::first_of))]
fn first_of(tags: usize) -> Maker
    ensures { result ≡ first_of tags }
{
    Maker {
        lines: 0,
        begun: false,
        count: 0,
        size: 2,
        end: entry_place(tags),
        tag: None,
    }
}

// Lays the last tag and the head, and returns the rack's length.
fn laid(m: Maker, b: &[u8], out: &mut [u8]) -> usize
    ensures { (result ≡ (closed_maker m b.now).end) × (out.new ≡ laid_out m b.now out.old) }
{
    let n = close(m, b, out);
    let mut head = [1u8, 0u8];
    put_number(&mut head, 1, m.count as u64, 1);
    put_text(out, 0, &head);
    n.end
}

#[tactic(auto, unfolding(crate::specs::Made::judged))]
fn judged(out: &[u8], n: usize) -> Result<usize, Flaw>
    ensures fits { Fits result out.now }
    ensures value { result ≡ judged out.now n }
{
    if 65536 < n || out.len() < n {
        return Err(Flaw::Wrong(Stop {
            line: 0,
            why: Why::Bytes,
        }));
    }
    match judge(&out[..n]) {
        Ok(()) => Ok(n),
        Err(offence) => Err(Flaw::Refused(n, offence)),
    }
}

#[tactic(auto, unfolding(crate::specs::Made::finished))]
fn finished(m: Maker, b: &[u8], out: &mut [u8]) -> Result<usize, Flaw>
    ensures fits { Fits result out.new }
    ensures makes { Makes (finished m b.now out.old) result out.new }
{
    m.fits(b).map_err(Flaw::Wrong)?;
    if !m.begun {
        return Err(Flaw::Wrong(Stop {
            line: after(m.lines),
            why: no_part(0, Part::Edition),
        }));
    }
    let n = laid(m, b, out);
    judged(out, n)
}

// A rack from its text, at the front of out, and how many bytes it has; b is for the body of one tag.
#[tactic(auto, unfolding(crate::specs::Made::making_of, crate::specs::Lines::lines_of))]
pub fn make_rack(text: &[u8], b: &mut [u8], out: &mut [u8]) -> Result<usize, Flaw>
    ensures fits { Fits result out.new }
    ensures makes { Makes (making_of text.now b.old out.old) result out.new }
{
    let from = after_mark(text);
    let first = first_of(count_tags(text, from));
    let last = take_lines(first, text, from, b, out).map_err(Flaw::Wrong)?;
    finished(last, b, out)
}
