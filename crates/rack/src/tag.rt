// One tag of a rack: every question whose answer depends on its kind is asked here.
ghost use Rattle.std.specs.Prelude.{◌≡◌, true, ◌≤◌, length, IfErr};
ghost use Rattle.std.proofs.lemmas.List.Edits.{sets};
ghost use Rattle.rack.specs.File.{kind_of, known, length_fits, body_rules};
ghost use Rattle.rack.specs.Facts.{TagFine, Sayable};
ghost use Rattle.rack.specs.Tag.{carrying, next_body, said_by, speaks, frame_of};

use frame::verdict::Verdict;
use request::signal::Signal;

// What an entry's first byte names: a label, a chip, or nothing that a tag can be.
#[derive(Clone, Copy, PartialEq, Eq)]
pub enum Kind {
    Label = 1,
    Chip,
    Other,
}

impl From<u8> for Kind {
    ghost from_gives = { λ code kind. kind ≡ kind_of code };

    #[tactic(auto, unfolding(crate::specs::File::kind_of))]
    fn from(code: u8) -> Kind {
        match code {
            1 => Kind::Label,
            2 => Kind::Chip,
            _ => Kind::Other,
        }
    }
}

// What a tag says.
#[derive(Clone, Copy)]
pub enum Said {
    Nothing,
    Label(label::step::Answer),
    Chip(chip::step::Answer),
}

pub fn is_known(kind: Kind) -> bool
    ensures { result ≡ known kind }
{
    kind != Kind::Other
}

// Whether a body of a kind can have this length: a label's has 34 to 8,480 bytes, a chip's 80.
#[tactic(auto, unfolding(crate::specs::File::length_fits))]
pub fn fits(kind: Kind, len: usize) -> bool
    ensures { result ≡ length_fits kind len }
{
    match kind {
        Kind::Label => 34 <= len && len <= 8480,
        Kind::Chip => len == 80,
        Kind::Other => false,
    }
}

// The rules of a body.
#[tactic(auto, using(crate::proofs::TagKinds::fits_label, crate::proofs::TagKinds::fits_chip), unfolding(crate::specs::File::body_rules))]
pub fn judge_tag(kind: Kind, body: &[u8]) -> Verdict
    requires { length_fits kind (length body.now) ≡ true }
    ensures rules { result ≡ body_rules kind body.now }
    ensures place { IfErr result (λ offence. offence.place ≤ 8480) }
{
    match kind {
        Kind::Label => label_body::judge::judge_label(body),
        Kind::Chip => chip_body::body::judge_chip(body),
        Kind::Other => Ok(()),
    }
}

// A tag takes its step: only its body is lent, and so only its body changes. Signal, bytes and draw come apart: the first two are one event's, the draw is
// each tag's own.
#[tactic(auto, using(crate::proofs::TagKinds::label_sized, crate::proofs::TagKinds::chip_80), unfolding(crate::specs::Tag::next_body, crate::specs::Tag::said_by))]
pub fn step_tag(kind: Kind, body: &mut [u8], signal: Signal, bytes: &[u8], draw: u8) -> Said
    requires { TagFine kind body.old }
    ensures value { result ≡ said_by kind (carrying signal bytes.now) draw body.old }
    ensures body_after { body.new ≡ next_body kind (carrying signal bytes.now) draw body.old }
{
    match kind {
        Kind::Label => Said::Label(label_body::body::step(body, signal.label, bytes)),
        Kind::Chip => Said::Chip(chip_body::body::step(body, signal.chip, draw)),
        Kind::Other => Said::Nothing,
    }
}

// What a tag with this body says; its step is not taken.
#[tactic(auto, using(crate::proofs::TagKinds::label_long, crate::proofs::TagKinds::chip_80), unfolding(crate::specs::Tag::said_by, label_body::specs::Body::said_label, chip_body::specs::Body::said_chip))]
pub fn said_of(kind: Kind, body: &[u8], signal: Signal, bytes: &[u8], draw: u8) -> Said
    requires { TagFine kind body.now }
    ensures { result ≡ said_by kind (carrying signal bytes.now) draw body.now }
{
    match kind {
        Kind::Label => Said::Label(
            label_body::body::act_on(body, signal.label, bytes.len()).answer,
        ),
        Kind::Chip => Said::Chip(chip_body::body::act_on(body, signal.chip, draw).answer),
        Kind::Other => Said::Nothing,
    }
}

// Whether something is said.
#[tactic(auto, unfolding(crate::specs::Tag::speaks))]
pub fn speaking(said: Said) -> bool
    ensures { result ≡ speaks said }
{
    match said {
        Said::Nothing => false,
        Said::Label(a) => label_body::answer::speaking(a),
        Said::Chip(a) => chip_body::answer::speaking(a),
    }
}

// Writes the frame of what a tag said, taken from its body, to the front of the answer buffer.
#[tactic(auto, unfolding(crate::specs::Tag::frame_of, crate::specs::Facts::Sayable))]
pub fn write_said(said: Said, body: &[u8], answer: &mut [u8]) -> usize
    requires { Sayable said body.now × (length (frame_of said body.now) ≤ length answer.old) }
    ensures { (result ≡ length (frame_of said body.now))
        × (answer.new ≡ sets answer.old 0 (frame_of said body.now)) }
{
    match said {
        Said::Nothing => 0,
        Said::Label(a) => label_body::answer::write_answer(a, body, answer),
        Said::Chip(a) => chip_body::answer::write_answer(a, body, answer),
    }
}
