// The four kinds of sequence as one, so that one slot holds any of them and a host's one loop plays it.
#![tactic(auto)]

ghost use Rattle.std.specs.Prelude.{◌≡◌, false};
ghost use Rattle.host.specs.Host.{plan, table_of};
ghost use Rattle.host.specs.Laws.{follows};

use bus::{Action, Sequence};
use convert::Driver;
use driver::channel::Transfer;
use driver::register::Register;
use registers::refusal::Refusal;
use self_test::SelfTest;
use startup::Startup;

// An enum and no dyn: a trait with an associated type and a final function makes none.
#[derive(Clone, Copy)]
pub enum Kind {
    Startup(Startup),
    Transfer(Transfer),
    Register(Register),
    SelfTest(SelfTest),
}

// What a sequence hands back at its end.
#[derive(Clone, Copy)]
pub enum Outcome {
    Driver(Driver),
    Float(f32),
    Word(u32),
    Passed(bool),
}

impl Sequence for Kind {
    type Output = Outcome;

    ghost plan = { plan };

    ghost table_of = { table_of };

    ghost laws = { follows };

    #[tactic(auto, unfolding(bus::specs::Sequence::action))]
    fn action(&self) -> Option<Action> {
        match self {
            Kind::Startup(s) => s.action(),
            Kind::Transfer(s) => s.action(),
            Kind::Register(s) => s.action(),
            Kind::SelfTest(s) => s.action(),
        }
    }

    fn judge(&self, value: u32) -> Result<Option<Outcome>, Refusal> {
        Ok(match self {
            Kind::Startup(s) => s.judge(value)?.map(Outcome::Driver),
            Kind::Transfer(s) => s.judge(value)?.map(Outcome::Float),
            Kind::Register(s) => s.judge(value)?.map(Outcome::Word),
            Kind::SelfTest(s) => s.judge(value)?.map(Outcome::Passed),
        })
    }

    fn onward(&mut self, value: u32) {
        match self {
            Kind::Startup(s) => s.onward(value),
            Kind::Transfer(s) => s.onward(value),
            Kind::Register(s) => s.onward(value),
            Kind::SelfTest(s) => s.onward(value),
        }
    }

    fn end(&mut self) {
        match self {
            Kind::Startup(s) => s.end(),
            Kind::Transfer(s) => s.end(),
            Kind::Register(s) => s.end(),
            Kind::SelfTest(s) => s.end(),
        }
    }
}

#[cfg(test)]
mod tests {
    use super::{Kind, Outcome};
    use bus::{Action, Bus, Reply};
    use registers::address;

    // A chip that remembers its CSR, and whose replies never fail.
    #[derive(Clone, Copy)]
    struct Chip {
        csr: u32,
    }

    impl Bus for Chip {
        ghost gives = { λ chip a r end. r.failed ≡ false };

        fn play(&mut self, action: Action) -> Reply {
            if let Action::Write(address::CSR, value) = action {
                self.csr = value;
            }
            Reply {
                failed: false,
                value: self.csr,
            }
        }
    }

    #[test]
    fn passes(rt: HostRuntime) {
        let mut kind = Kind::SelfTest(self_test::new());
        let mut chip = Chip { csr: 0x29 };
        let passed = bus::run(&mut kind, &mut chip);
        assert!(rt; matches!(passed, Ok(Outcome::Passed(true))));
        assert_eq!(rt; chip.csr, 0x29);
    }
}
