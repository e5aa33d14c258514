// What a script means, and scripts played on a new serializer.
#![tactic(auto)]

ghost use Rattle.std.specs.Prelude.{◌≡◌};
ghost use Rattle.script.specs.Meaning.{answer_at};
ghost use Rattle.script.specs.Runs.{step_of};
ghost use Rattle.script.specs.Play.{step_at};

use profile::{ProfileSerializer, Push, Stepped};

pub mod play;

/// A step of a script: a push, or a finalisation into a buffer of so many words.
#[derive(Clone, Copy, Debug, PartialEq, Eq)]
pub enum Step {
    Push(Push),
    Finalize { words: usize },
}

/// A step from numbers: kind 0 is a push, any other a finalisation into a buffer of `mask` words.
// Kind and presence stay numbers: `step_of` may not change, and makes a step of any; `replay` reads its steps so.
#[tactic(auto, unfolding(crate::specs::Play::step_at))]
pub fn step_of(kind: u32, mask: u32, presence: u32, word: i32, phase: u32, acr: u32) -> Step
    ensures { result ≡ step_at kind mask presence word phase acr }
{
    if kind != 0 {
        return Step::Finalize {
            words: mask as usize,
        };
    }
    Step::Push(Push {
        mask,
        word: (presence % 2 == 1).then_some(word),
        phase: (presence / 2 % 2 == 1).then_some(phase),
        acr: (presence / 4 % 2 == 1).then_some(acr),
    })
}

fn finalize(serializer: ProfileSerializer, words: usize) -> Stepped<()>
    ensures answer { result.answer ≡ answer_at serializer.mode serializer.length (Step.Finalize words) }
    ensures serializer { result.serializer ≡ step_of serializer (Step.Finalize words) }
{
    // A profile takes at most eight words; a buffer of our own, since the driver has no heap.
    let mut buffer = [0u32; 8];
    let lent = words.min(8);
    let finalized = profile::finalize(serializer, &mut buffer[..lent]);
    Stepped {
        answer: finalized.answer.map(|_| ()),
        serializer: finalized.serializer,
    }
}

/// One step, on the code of `profile`.
#[tactic(auto, unfolding(crate::specs::Meaning::answer_at, crate::specs::Runs::step_of, profile::specs::Serializer::push_of))]
pub fn step_by(serializer: ProfileSerializer, step: Step) -> Stepped<()>
    ensures answer { result.answer ≡ answer_at serializer.mode serializer.length step }
    ensures serializer { result.serializer ≡ step_of serializer step }
{
    match step {
        Step::Push(push) => profile::push(serializer, push),
        Step::Finalize { words } => finalize(serializer, words),
    }
}
