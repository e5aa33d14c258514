// The notation of a pulse script: one step a line, words parted by blanks, `#` before a comment.
#![tactic(auto)]

ghost use Rattle.std.specs.Prelude.{◌≡◌, ◌≤◌, length, Some};
ghost use Rattle.notation.specs.Reasons.{sentence_of};
ghost use Rattle.notation.specs.Lines.{with_place, value_of, alone_of, mode_of, named_of, takes_sign, has_of, with_of};
ghost use Rattle.notation.specs.Lines.{add_of, fields_of, push_of, line_of};

use rules::Push;
use std::fmt;
pub use words::Span;
use words::Words;

mod digits;
mod words;

/// What is wrong with a line that cannot be read.
#[derive(Clone, Copy, Debug, PartialEq, Eq)]
pub enum Reason {
    Step,
    Missing,
    Digits,
    Large,
    Negative,
    Field,
    Twice,
    More,
}

impl fmt::Display for Reason {
    ghost output = { λ reason. Some (sentence_of reason) };

    fn fmt<W: fmt::Write>(&self, f: &mut fmt::Formatter<W>) -> fmt::Result {
        f.write_str(match self {
            Reason::Step => "is no step: a line starts with mode, push, finalize or show",
            Reason::Missing => "a number is missing at the end",
            Reason::Digits => "is no number: write 10, 0x0A or, for a word, -10",
            Reason::Large => "does not fit into 32 bits",
            Reason::Negative => "is negative, and only a word may be",
            Reason::Field => "is no field: a push takes word, phase and acr",
            Reason::Twice => "comes twice",
            Reason::More => "is too much: the step ends before it (a comment starts with #)",
        })
    }
}

/// A reason, and the part of the line that it is about.
#[derive(Clone, Copy, Debug, PartialEq, Eq)]
pub struct Fault {
    pub reason: Reason,
    pub part: Span,
}

/// What a line says.
#[derive(Clone, Copy, Debug, PartialEq, Eq)]
pub enum Line {
    Blank,
    Mode(u32),
    Push(Push),
    Finalize,
    Show,
}

// A field of a push.
#[derive(Clone, Copy, Debug, PartialEq, Eq)]
enum Field {
    Word,
    Phase,
    Acr,
}

impl Field {
    #[tactic(auto, unfolding(crate::specs::Lines::named_of))]
    fn named(text: &[u8]) -> Option<Field>
        ensures { result ≡ named_of text.now }
    {
        match text {
            b"word" => Some(Field::Word),
            b"phase" => Some(Field::Phase),
            b"acr" => Some(Field::Acr),
            _ => None,
        }
    }

    // Only a word may be negative.
    fn takes_sign(self) -> bool
        ensures { result ≡ takes_sign self }
    {
        matches!(self, Field::Word)
    }

    // Whether a push has the field already.
    fn is_in(self, push: Push) -> bool
        ensures { result ≡ has_of push self }
    {
        match self {
            Field::Word => push.word.is_some(),
            Field::Phase => push.phase.is_some(),
            Field::Acr => push.acr.is_some(),
        }
    }

    // A push with the field.
    fn put_in(self, push: Push, n: u32) -> Push
        ensures { result ≡ with_of push self n }
    {
        match self {
            Field::Word => Push {
                word: Some(rules::signed(n)),
                ..push
            },
            Field::Phase => Push {
                phase: Some(n),
                ..push
            },
            Field::Acr => Push {
                acr: Some(n),
                ..push
            },
        }
    }
}

// A step, if no word stands behind it.
#[tactic(auto, unfolding(crate::specs::Lines::alone_of))]
fn alone(words: &mut Words, step: Line) -> Result<Line, Fault>
    ensures { result ≡ alone_of words.old.line.now words.old.at step }
{
    let part = words.next();
    if part.is_empty() {
        Ok(step)
    } else {
        Err(Fault {
            reason: Reason::More,
            part,
        })
    }
}

// A mode, by the number behind its name.
#[tactic(auto, unfolding(crate::specs::Lines::mode_of))]
fn read_mode(words: &mut Words) -> Result<Line, Fault>
    ensures { result ≡ mode_of words.old.line.now words.old.at }
{
    let mode = words.number(false)?;
    alone(words, Line::Mode(mode))
}

// A push with the field that a part of the line names.
#[tactic(auto, unfolding(crate::specs::Lines::add_of))]
fn add(words: &mut Words, push: Push, part: Span) -> Result<Push, Fault>
    requires ordered { part.start ≤ part.end }
    requires within { part.end ≤ length words.old.line.now }
    requires behind { words.old.at ≡ part.end }
    ensures push { with_place result words.new.at ≡ add_of words.old.line.now push part }
    ensures line { words.new.line.now ≡ words.old.line.now }
{
    let reason = Reason::Field;
    let field = Field::named(part.of(words.line)).ok_or(Fault { reason, part })?;
    if field.is_in(push) {
        let reason = Reason::Twice;
        return Err(Fault { reason, part });
    }
    let n = words.number(field.takes_sign())?;
    Ok(field.put_in(push, n))
}

// The fields of a push. None comes twice, so the fourth look finds the end or a fault.
#[tactic(auto, using(crate::proofs::Looks::look, crate::proofs::Looks::look_last))]
fn fields(words: &mut Words, mut push: Push) -> Result<Push, Fault>
    ensures { result ≡ fields_of 4 words.old.line.now push words.old.at }
{
    for _ in 0..4u32 {
        let part = words.next();
        if part.is_empty() {
            return Ok(push);
        }
        push = add(words, push, part)?;
    }
    Ok(push)
}

// A push, by the mask behind its name and its fields.
#[tactic(auto, unfolding(crate::specs::Lines::push_of))]
fn read_push(words: &mut Words) -> Result<Line, Fault>
    ensures { result ≡ push_of words.old.line.now words.old.at }
{
    let bare = Push {
        mask: words.number(false)?,
        word: None,
        phase: None,
        acr: None,
    };
    Ok(Line::Push(fields(words, bare)?))
}

/// What a line says, or why it cannot be read.
#[tactic(auto, unfolding(crate::specs::Lines::line_of, crate::specs::Lines::step_of))]
pub fn read(line: &[u8]) -> Result<Line, Fault>
    ensures { result ≡ line_of line.now }
{
    let mut words = Words::of(line);
    let part = words.next();
    if part.is_empty() {
        return Ok(Line::Blank);
    }
    match part.of(line) {
        b"push" => read_push(&mut words),
        b"mode" => read_mode(&mut words),
        b"finalize" => alone(&mut words, Line::Finalize),
        b"show" => alone(&mut words, Line::Show),
        _ => Err(Fault {
            reason: Reason::Step,
            part,
        }),
    }
}
