// Start-up: the chip reset, its wire mode set and read back, and its clock.
#![tactic(auto)]

ghost use Rattle.std.specs.Prelude.{◌≡◌};
ghost use Rattle.startup.specs.Startup.{new_of, clock, csr, legal, word, plan, table_of};
ghost use Rattle.startup.specs.Laws.{follows};

use bitfields::{csr, fr1};
use bus::{Action, IO_UPDATE, RESET, Sequence};
use convert::clock::Clock;
use convert::{Driver, clock};
use registers::address;
use registers::refusal::Refusal;

// The step, what was asked for, and the FR1 that was read.
// The step stays a number, by which its table is read: a record made by hand may have any, as `Plan` has it.
#[derive(Clone, Copy)]
pub struct Startup {
    pub step: u32,
    pub mode: u32,
    pub reference: f32,
    pub multiplier: u32,
    pub fr1: u32,
}

// Three parameters: the record of them is what it makes.
// The test of a mode stays a line, as in `csr::of`, here and in `legal`.
pub fn new(mode: u32, reference: f32, multiplier: u32) -> Result<Startup, Refusal>
    ensures { result ≡ new_of mode reference multiplier }
{
    if 3 < mode {
        return Err(Refusal::Mode);
    }
    Ok(Startup {
        step: 0,
        mode,
        reference,
        multiplier,
        fr1: 0,
    })
}

impl Startup {
    fn clock(self) -> Result<Clock, Refusal>
        ensures { result ≡ clock self }
    {
        clock::of(self.reference, self.multiplier)
    }

    // In range, and with a good clock where it stands past the CSR read.
    #[tactic(auto, unfolding(crate::specs::Startup::legal))]
    fn legal(self) -> bool
        ensures { result ≡ legal self }
    {
        self.mode <= 3
            && address::holds(address::FR1, self.fr1)
            && (self.step < 12 || self.clock().is_ok())
    }

    // All channels in the mode. A mode above 3, which `legal` shuts out, has no CSR: 0, as the definition `csr` has it of such a record.
    fn csr(self) -> u32
        ensures { result ≡ csr self }
    {
        csr::of(self.mode, 15).unwrap_or(0)
    }

    // The FR1 to be written: multiplier and vco_high, and every other bit as it was read. Where the clock is refused it is
    // written nowhere: `legal` shuts that out past the CSR read.
    #[tactic(auto, unfolding(crate::specs::Startup::word))]
    fn word(self) -> u32
        ensures { result ≡ word self self.fr1 }
    {
        let vco = self.clock().map_or(0, |clock| clock.vco);
        fr1::with_clock(self.fr1, self.multiplier, vco).unwrap_or(0)
    }
}

impl Sequence for Startup {
    // The driver's record exists only after the last reply.
    type Output = Driver;

    ghost plan = { plan };

    ghost table_of = { table_of };

    ghost laws = { follows };

    #[tactic(auto, unfolding(bus::specs::Sequence::action))]
    fn action(&self) -> Option<Action> {
        if !self.legal() {
            return None;
        }
        let csr = self.csr();
        let fr1 = self.word();
        let plan = [
            Action::Pin(IO_UPDATE, false),
            Action::Pin(RESET, true),
            Action::Delay(5),
            Action::Pin(RESET, false),
            Action::Configure(0),
            Action::Write(address::CSR, csr),
            Action::Pin(IO_UPDATE, true),
            Action::Delay(5),
            Action::Pin(IO_UPDATE, false),
            Action::Configure(self.mode),
            Action::Delay(5),
            Action::Read(address::CSR),
            Action::Read(address::FR1),
            Action::Write(address::FR1, fr1),
            Action::Pin(IO_UPDATE, true),
            Action::Delay(5),
            Action::Pin(IO_UPDATE, false),
        ];
        plan.get(self.step as usize).copied()
    }

    // The CSR that was read, then the clock.
    #[tactic(auto, unfolding(crate::specs::Startup::judge))]
    fn judge(&self, value: u32) -> Result<Option<Driver>, Refusal> {
        match self.step {
            11 if value != self.csr() => Err(Refusal::Check),
            11 => {
                self.clock()?;
                Ok(None)
            }
            16 => {
                let ratio = self.clock()?.ratio;
                Ok(Some(Driver {
                    mode: self.mode,
                    ratio,
                }))
            }
            _ => Ok(None),
        }
    }

    fn onward(&mut self, value: u32) {
        if self.step == 12 {
            self.fr1 = value;
        }
        self.step = self.step.saturating_add(1);
    }

    fn end(&mut self) {
        self.step = 17;
    }
}
