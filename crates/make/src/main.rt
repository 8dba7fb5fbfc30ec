// make TEXT RACK: reads a rack as text and writes the rack file.
#![tactic(auto)]

mod lines;

ghost use Rattle.std.specs.Prelude.{◌≡◌};
ghost use Rattle.print.specs.Line.{laid};
ghost use Rattle.print.specs.Seen.{seen};
ghost use Rattle.make.specs.Texts.{wrong_text, refused_text};

use crate::lines::{Flaw, Stop, make_rack};
use draft::words::put_why;
use frame::verdict::Verdict;
use print::fail::tell;
use print::line::Line;
use sheet::refusal::put_refusal;
use text::args::{PATH_MAX, count, path};
use text::file::load;
use text::save::save;
use verbs::tokens::{Span, text_of};

#[tactic(auto, using(print::proofs::Lines::lines), unfolding(crate::specs::Texts::wrong_text))]
fn put_wrong(line: &mut Line, stop: Stop)
    ensures { seen line.new ≡ laid (seen line.old) (wrong_text stop.line stop.why) }
{
    line.put(b"line ");
    line.decimal(stop.line);
    line.put(b": ");
    put_why(line, stop.why);
    line.put(b"\n");
}

#[tactic(auto, using(print::proofs::Lines::lines), unfolding(crate::specs::Texts::refused_text))]
fn put_refused(line: &mut Line, rack: &[u8], v: Verdict)
    ensures { seen line.new ≡ laid (seen line.old) (refused_text rack.now v) }
{
    line.put(b"not written: ");
    put_refusal(line, rack, v);
    line.put(b"\n");
}

fn leave(rt: &HostRuntime, rack: &[u8]) {
    let mut named = [0u8; PATH_MAX];
    if let Some(n) = path(rt, 2, b"RACK", &mut named) {
        save(rt, &named[..n], rack);
    }
}

fn flawed(rt: &HostRuntime, out: &[u8], flaw: Flaw) {
    let mut room = [0u8; 160];
    let mut line = Line::new(&mut room);
    match flaw {
        Flaw::Wrong(stop) => put_wrong(&mut line, stop),
        Flaw::Refused(n, offence) => {
            let rack = text_of(out, Span { from: 0, to: n });
            put_refused(&mut line, rack, Err(offence))
        }
    }
    tell(rt, line.text());
}

// Room for a rack, its entries and one body more.
fn make_text(rt: &HostRuntime, text: &[u8]) {
    let mut body = [0u8; 8480];
    let mut out = [0u8; 74528];
    match make_rack(text, &mut body, &mut out) {
        Ok(n) => leave(rt, text_of(&out, Span { from: 0, to: n })),
        Err(flaw) => flawed(rt, &out, flaw),
    }
}

// At most 1 MiB.
fn make_file(rt: &HostRuntime, text: &mut [u8]) {
    let Some(len) = load(rt, 1, b"TEXT", text) else {
        return;
    };
    if 1048576 < len {
        tell(rt, b"TEXT has over 1048576 bytes\n");
        return;
    }
    make_text(rt, &text[..len]);
}

fn make_named(rt: &HostRuntime) {
    let mut text = [0u8; 1048577];
    make_file(rt, &mut text);
}

fn main(rt: HostRuntime) {
    if count(&rt) != 3 {
        tell(&rt, b"usage: make TEXT RACK\n");
        return;
    }
    make_named(&rt);
}
