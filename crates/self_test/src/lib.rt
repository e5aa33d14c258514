// The self test: CSR's channel bits set and cleared, read each time, and the old byte written back.
#![tactic(auto)]

ghost use Rattle.std.specs.Prelude.{◌≡◌};
ghost use Rattle.self_test.specs.SelfTest.{start, differs, plan, table_of};
ghost use Rattle.self_test.specs.Laws.{follows};

use bus::{Action, Sequence};
use registers::address;
use registers::refusal::Refusal;

// The step, and the byte that was read first.
// The step stays a number, by which its table is read: a record made by hand may have any, as `Plan` has it.
#[derive(Clone, Copy, Debug, PartialEq, Eq)]
pub struct SelfTest {
    pub step: u32,
    pub old: u32,
}

pub fn new() -> SelfTest
    ensures { result ≡ start }
{
    SelfTest { step: 0, old: 0 }
}

// Whether the channel bits that were read are not those that were written.
fn differs(step: u32, value: u32) -> bool
    ensures { result ≡ differs step value }
{
    match step {
        2 => value / 16 != 15,
        4 => value / 16 != 0,
        _ => false,
    }
}

impl Sequence for SelfTest {
    // Whether it has passed.
    type Output = bool;

    ghost plan = { plan };

    ghost table_of = { table_of };

    ghost laws = { follows };

    #[tactic(auto, unfolding(bus::specs::Sequence::action))]
    fn action(&self) -> Option<Action> {
        if !address::holds(address::CSR, self.old) {
            return None;
        }
        let plan = [
            Action::Read(address::CSR),
            Action::Write(address::CSR, self.old % 16 + 240),
            Action::Read(address::CSR),
            Action::Write(address::CSR, self.old % 16),
            Action::Read(address::CSR),
            Action::Write(address::CSR, self.old),
        ];
        plan.get(self.step as usize).copied()
    }

    fn judge(&self, value: u32) -> Result<Option<bool>, Refusal> {
        if differs(self.step, value) {
            return Ok(Some(false));
        }
        Ok((self.step == 5).then_some(true))
    }

    fn onward(&mut self, value: u32) {
        if self.step == 0 {
            self.old = value;
        }
        self.step = self.step.saturating_add(1);
    }

    fn end(&mut self) {
        self.step = 6;
    }
}
