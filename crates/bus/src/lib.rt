// Bus sequences: their actions and replies, what every sequence has, and a host's loop that plays one.
#![tactic(auto)]

ghost use Rattle.std.specs.Prelude.{◌≡◌, ℕ, List};
ghost use Rattle.bus.specs.Bus.{fault_of};
ghost use Rattle.bus.specs.declared.Action.{Action};
ghost use Rattle.bus.specs.declared.Reply.{Reply};
ghost use Rattle.bus.specs.Sequence.{Plan, Follows, Ran, action, answer, after};

use registers::address;
use registers::refusal::Refusal;

// Pins, by number: `Action::Pin` has any u32.
pub const IO_UPDATE: u32 = 0;

pub const RESET: u32 = 1;

// What a sequence hands out: a pin and whether it goes high, microseconds, a wire mode, an address and a value, an address.
// All are u32, as in `fault`'s clause: an enum for the pin or the mode would ask more of who makes an action by hand.
#[derive(Clone, Copy, Debug, PartialEq, Eq)]
pub enum Action {
    Pin(u32, bool),
    Delay(u32),
    Configure(u32),
    Write(u32, u32),
    Read(u32),
}

// What the host says of an action: whether it failed, and what was read. The flag stays beside the value: `failed_fault`
// and `failed_stops` speak of a failed reply with any value, which counts for nothing.
#[derive(Clone, Copy, Debug, PartialEq, Eq)]
pub struct Reply {
    pub failed: bool,
    pub value: u32,
}

// What is wrong with a reply to an action: Interface or Pin, then Word; Over where there is no action.
pub fn fault(action: Option<Action>, reply: Reply) -> Result<(), Refusal>
    ensures { result ≡ fault_of action reply }
{
    match action {
        None => Err(Refusal::Over),
        Some(Action::Delay(_)) => Ok(()),
        Some(Action::Pin(_, _)) if reply.failed => Err(Refusal::Pin),
        Some(_) if reply.failed => Err(Refusal::Interface),
        Some(Action::Read(address)) if !address::holds(address, reply.value) => Err(Refusal::Word),
        Some(_) => Ok(()),
    }
}

/// A record that hands out one action, takes one reply, and goes on. A host calls `action` and `reply`, or lets `run` call them; `judge`, `onward`
/// and `end` are what each kind adds, for `reply` alone.
// A kind's step is a number in its record and its table is read by it, as its plan is: a record may be made by hand, with any step.
pub trait Sequence {
    // What it hands back at its end.
    type Output;

    ghost plan: { Plan Self Self.Output };

    ghost table_of: { Self → List ℕ → List Action };

    // None where it has ended, as a hand-made record out of range has.
    fn action(&self) -> Option<Action>
        ensures { result ≡ action plan self.now };

    // Its own judgement of a value that came back well: a refusal, what it hands back at its end, or nothing yet.
    fn judge(&self, value: u32) -> Result<Option<Self::Output>, Refusal>
        ensures { result ≡ plan.judge self.now value };

    // Each kind's own: what it keeps of a value. Any step has one after it: the largest of a u32 stays.
    fn onward(&mut self, value: u32)
        ensures { self.new ≡ plan.onward self.old value };

    // Each kind's own: the step past its table.
    fn end(&mut self)
        ensures { self.new ≡ plan.ended self.old };

    ghost laws: { Follows plan table_of };

    // A refusal ends it, and so does what it hands back; only Over, of one that has ended, leaves it as it was.
    #[tactic(auto, unfolding(crate::specs::Sequence::answer, crate::specs::Sequence::after))]
    final fn reply(&mut self, reply: Reply) -> Result<Option<Self::Output>, Refusal>
        ensures answer { result ≡ answer plan self.old reply }
        ensures after { self.new ≡ after plan self.old reply }
    {
        let Some(action) = self.action() else {
            return Err(Refusal::Over);
        };
        let answer = fault(Some(action), reply).and_then(|()| self.judge(reply.value));
        match &answer {
            Ok(None) => self.onward(reply.value),
            _ => self.end(),
        }
        answer
    }
}

// What a sequence is played on: a chip, or a test in its place.
pub trait Bus {
    // From one state, an action may be replied to so, and leave another.
    ghost gives: { Self → Action → Reply → Self → Type 0 };

    fn play(&mut self, action: Action) -> Reply
        ensures { gives self.old action result self.new };
}

// A host's loop: a sequence played to its end, in no more steps than its table has left.
pub fn run<S: Sequence, B: Bus>(sequence: &mut S, bus: &mut B) -> Result<S::Output, Refusal>
    ensures { Ran S.plan B.gives sequence.old bus.old result sequence.new bus.new }
{
    while let Some(action) = sequence.action() {
        let reply = bus.play(action);
        if let Some(output) = sequence.reply(reply)? {
            return Ok(output);
        }
    }
    Err(Refusal::Over)
}
