// The words of a line: parted by blanks, up to the line's end or a `#`.
ghost use Rattle.std.specs.Prelude.{◌≡◌, ◌+◌, ◌<◌, ◌≤◌, length, drop, position, IfSome};
ghost use Rattle.notation.specs.Words.{stops, seek_of, next_of, part, none};
ghost use Rattle.notation.specs.Lines.{with_place, value_of};

use crate::{Fault, digits};

/// A part of a line, from one place up to another: `read`'s fault has places, so that who reads it can quote the line.
// No invariant: a part lies within a line only beside that line.
#[derive(Clone, Copy, Debug, PartialEq, Eq)]
pub struct Span {
    pub start: usize,
    pub end: usize,
}

impl Span {
    pub(crate) fn is_empty(self) -> bool
        ensures { result ≡ none self }
    {
        self.start == self.end
    }

    // The part's bytes.
    pub(crate) fn of(self, line: &[u8]) -> &[u8]
        requires ordered { self.start ≤ self.end }
        requires within { self.end ≤ length line.now }
        ensures { result.now ≡ part line.now self }
    {
        &line[self.start..self.end]
    }
}

// Whether a search stops at a byte: inside a word it is for the word's end, outside for a start.
fn stops(inside: bool, b: u8) -> bool
    ensures { result ≡ stops inside b }
{
    match b {
        b' ' | b'\t' | b'\r' => inside,
        b'#' => true,
        _ => !inside,
    }
}

// The words of a line, read one after another from a place on.
// That the line stays is said by each method: a `&mut self` may change any field.
#[derive(Drop)]
pub struct Words<'a> {
    pub line: &'a [u8],
    pub at: usize,
}

impl<'a> Words<'a> {
    pub fn of(line: &'a [u8]) -> Words<'a>
        ensures line { result.line.now ≡ line.now }
        ensures start { result.at ≡ 0 }
    {
        Words { line, at: 0 }
    }

    // How far ahead a search stops, where it does.
    fn stop(&self, inside: bool) -> Option<usize>
        ensures place { result ≡ position (stops inside) (drop self.now.at self.now.line.now) }
        ensures within { IfSome result (λ n. self.now.at + n < length self.now.line.now) }
    {
        self.line
            .iter()
            .skip(self.at)
            .position(|b| stops(inside, *b))
    }

    // Goes to the first place from here on where a search stops, or to the line's end.
    #[tactic(auto, unfolding(crate::specs::Words::seek_of))]
    fn seek(&mut self, inside: bool)
        ensures place { self.new.at ≡ seek_of inside self.old.line.now self.old.at }
        ensures line { self.new.line.now ≡ self.old.line.now }
        ensures within { self.new.at ≤ length self.old.line.now }
        ensures forward { self.old.at ≤ length self.old.line.now → self.old.at ≤ self.new.at }
    {
        self.at = match self.stop(inside) {
            Some(n) => self.at + n,
            None => self.line.len(),
        };
    }

    // The next word: an empty part at the line's end or before a `#`.
    #[tactic(auto, unfolding(crate::specs::Words::next_of))]
    pub fn next(&mut self) -> Span
        ensures word { result ≡ next_of self.old.line.now self.old.at }
        ensures behind { self.new.at ≡ result.end }
        ensures line { self.new.line.now ≡ self.old.line.now }
        ensures ordered { result.start ≤ result.end }
        ensures within { result.end ≤ length self.old.line.now }
    {
        self.seek(false);
        let start = self.at;
        self.seek(true);
        Span {
            start,
            end: self.at,
        }
    }

    // The next word as a number.
    #[tactic(auto, unfolding(crate::specs::Lines::value_of))]
    pub fn number(&mut self, signed: bool) -> Result<u32, Fault>
        ensures number { with_place result self.new.at ≡ value_of self.old.line.now self.old.at signed }
        ensures line { self.new.line.now ≡ self.old.line.now }
    {
        let part = self.next();
        digits::read(part.of(self.line), signed).map_err(|reason| Fault { reason, part })
    }
}
