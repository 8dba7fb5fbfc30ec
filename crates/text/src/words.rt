// The first word of an event line. Words are parted by blanks, spaces and tabs, and their letters may be of either case.
ghost use Rattle.std.specs.Prelude.{Bool, not, ◌≡◌, ℕ, ◌+◌, ◌≤◌, length, drop};
ghost use Rattle.text.specs.Words.{is_blank, solid, lead, Decides, same_word, bare_word, word_of, first_word};

// What the first word of a line is: Empty where it has only blanks, Comment where its first byte but blanks is `#`. LabelSeal and ChipSeal are the
// words with a `+`: the check sum is to be added.
#[derive(Clone, Copy, PartialEq, Eq)]
pub enum Keyword {
    Empty,
    Comment,
    Off,
    On,
    Eof,
    Label,
    LabelSeal,
    Chip,
    ChipSeal,
    Draws,
    Unknown,
}

// The first word of a line and the place behind it, where the rest starts: the end of the line for a comment.
#[derive(Clone, Copy, PartialEq, Eq)]
pub struct FirstWord {
    pub word: Keyword,
    pub rest: usize,
}

#[tactic(auto, unfolding(crate::specs::Words::is_blank))]
pub fn is_blank(c: u8) -> bool
    ensures { result ≡ is_blank c }
{
    matches!(c, b' ' | b'\t')
}

// The first place from `from` on whose byte passes a test, or s's length.
pub fn first_from<F: Fn(u8) -> bool>(s: &[u8], from: usize, stops: F) -> usize
    requires in_bounds { from ≤ length s.now }
    requires callable { F.IsAlwaysCallable stops }
    ensures { (p : ℕ → Bool) → Decides (F.post stops) p → result ≡ from + lead (λ c. not (p c)) (drop from s.now) }
{
    for i in from..s.len() {
        if stops(s[i]) {
            return i;
        }
    }
    s.len()
}

// The first place from `from` on that holds no blank, or s's length.
pub fn skip_blanks(s: &[u8], from: usize) -> usize
    requires { from ≤ length s.now }
    ensures { result ≡ from + lead is_blank (drop from s.now) }
{
    first_from(s, from, |c| !is_blank(c))
}

// The first place from `from` on that holds a blank, or s's length.
pub fn word_end(s: &[u8], from: usize) -> usize
    requires { from ≤ length s.now }
    ensures { result ≡ from + lead solid (drop from s.now) }
{
    first_from(s, from, |c| is_blank(c))
}

// Whether a, its letters in either case, is b, which is in small letters.
pub fn same_word(a: &[u8], b: &[u8]) -> bool
    ensures { result ≡ same_word a.now b.now }
{
    a.len() == b.len() && a.iter().zip(b).all(|(x, y)| x.to_ascii_lowercase() == *y)
}

// A word that takes nothing.
#[tactic(auto, unfolding(crate::specs::Words::bare_word))]
fn bare_word(s: &[u8]) -> Keyword
    ensures { result ≡ bare_word s.now }
{
    if same_word(s, b"off") {
        return Keyword::Off;
    }
    if same_word(s, b"on") {
        return Keyword::On;
    }
    if same_word(s, b"eof") {
        return Keyword::Eof;
    }
    Keyword::Unknown
}

#[tactic(auto, unfolding(crate::specs::Words::word_of))]
fn named(s: &[u8]) -> Keyword
    ensures { result ≡ word_of s.now }
{
    if same_word(s, b"label") {
        return Keyword::Label;
    }
    if same_word(s, b"label+") {
        return Keyword::LabelSeal;
    }
    if same_word(s, b"chip") {
        return Keyword::Chip;
    }
    if same_word(s, b"chip+") {
        return Keyword::ChipSeal;
    }
    if same_word(s, b"draws") {
        return Keyword::Draws;
    }
    bare_word(s)
}

pub fn first_word(line: &[u8]) -> FirstWord
    ensures { result ≡ first_word line.now }
{
    let from = skip_blanks(line, 0);
    if from == line.len() {
        return FirstWord {
            word: Keyword::Empty,
            rest: from,
        };
    }
    if line[from] == b'#' {
        return FirstWord {
            word: Keyword::Comment,
            rest: line.len(),
        };
    }
    let to = word_end(line, from);
    let word = named(&line[from..to]);
    FirstWord {
        word: word,
        rest: to,
    }
}
