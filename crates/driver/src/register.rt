// Reading CSR or FR1.
ghost use Rattle.std.specs.Prelude.{◌≡◌};
ghost use Rattle.registers.specs.Registers.{CSR, FR1};
ghost use Rattle.driver.specs.Register.{start, plan};
ghost use Rattle.driver.specs.RegisterLaws.{follows};

use bus::{Action, Sequence};
use registers::address;
use registers::refusal::Refusal;

// The step stays a number, by which its table is read: a record made by hand may have any, as `Plan` has it.
#[derive(Clone, Copy, Debug, PartialEq, Eq)]
pub struct Register {
    pub step: u32,
    pub address: u32,
}

fn start(address: u32) -> Register
    ensures { result ≡ start address }
{
    Register { step: 0, address }
}

pub fn csr() -> Register
    ensures { result ≡ start CSR }
{
    start(address::CSR)
}

pub fn fr1() -> Register
    ensures { result ≡ start FR1 }
{
    start(address::FR1)
}

impl Sequence for Register {
    // What was read.
    type Output = u32;

    ghost plan = { plan };

    ghost table_of = { λ s vs. plan.table s };

    ghost laws = { follows };

    #[tactic(auto, unfolding(bus::specs::Sequence::action))]
    fn action(&self) -> Option<Action> {
        if 0 < self.step || 1 < self.address {
            return None;
        }
        Some(Action::Read(self.address))
    }

    fn judge(&self, value: u32) -> Result<Option<u32>, Refusal> {
        Ok(Some(value))
    }

    fn onward(&mut self, _value: u32) {
        self.step = self.step.saturating_add(1);
    }

    fn end(&mut self) {
        self.step = 1;
    }
}
