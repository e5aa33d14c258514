// Channel settings and readings: CSR written, then the register written or read.
ghost use Rattle.std.specs.Prelude.{◌≡◌, Ok};
ghost use Rattle.driver.specs.Channel.{begin_of, set_frequency, set_phase, set_amplitude, get_frequency, get_phase, get_amplitude, own, takes, entry, word_of, meaning_of, plan, table};
ghost use Rattle.driver.specs.declared.channel.Access.TheVariants.{Set, Get};
ghost use Rattle.driver.specs.ChannelLaws.{follows};

use bitfields::csr;
use bus::{Action, Sequence};
use convert::{Driver, amplitude, frequency, phase};
use registers::address;
use registers::refusal::Refusal;

// What is done with the register: a word written to it, or its word read. No Option: None would have to mean a reading.
#[derive(Clone, Copy, Debug, PartialEq, Eq)]
pub enum Access {
    Set(u32),
    Get,
}

// The step stays a number, by which its table is read: a record made by hand may have any, as `Plan` has it.
// Of the driver's record it keeps what its actions and its result need. These are fields of its own, since the laws of
// `Transfers` and `Begins` speak of a sequence's mode and ratio, and a hand-made one may have any.
#[derive(Clone, Copy)]
pub struct Transfer {
    pub step: u32,
    pub mode: u32,
    pub mask: u32,
    pub register: u32,
    pub access: Access,
    pub ratio: f32,
}

// The reading of a register: Mode, then Mask. Driver and mask stay two parameters: one record serves every mask.
fn begin(driver: Driver, mask: u32, register: u32) -> Result<Transfer, Refusal>
    ensures { result ≡ begin_of driver mask register (Ok Get) }
{
    csr::of(driver.mode, mask)?;
    Ok(Transfer {
        step: 0,
        mode: driver.mode,
        mask,
        register,
        access: Access::Get,
        ratio: driver.ratio,
    })
}

// Three settings, which callers know: each has its register, its conversion and its refusals.
pub fn set_frequency(driver: Driver, mask: u32, frequency: f32) -> Result<Transfer, Refusal>
    ensures { result ≡ set_frequency driver mask frequency }
{
    let reading = begin(driver, mask, address::CFTW0)?;
    let word = frequency::set(driver, frequency)?.word;
    Ok(Transfer {
        access: Access::Set(word),
        ..reading
    })
}

pub fn set_phase(driver: Driver, mask: u32, phase: f32) -> Result<Transfer, Refusal>
    ensures { result ≡ set_phase driver mask phase }
{
    let reading = begin(driver, mask, address::CPOW0)?;
    let word = phase::set(phase).word;
    Ok(Transfer {
        access: Access::Set(word),
        ..reading
    })
}

pub fn set_amplitude(driver: Driver, mask: u32, amplitude: f32) -> Result<Transfer, Refusal>
    ensures { result ≡ set_amplitude driver mask amplitude }
{
    let reading = begin(driver, mask, address::ACR)?;
    let word = amplitude::set(amplitude)?.word;
    Ok(Transfer {
        access: Access::Set(word),
        ..reading
    })
}

pub fn get_frequency(driver: Driver, mask: u32) -> Result<Transfer, Refusal>
    ensures { result ≡ get_frequency driver mask }
{
    let reading = begin(driver, mask, address::CFTW0)?;
    if !frequency::ready(driver.ratio) {
        return Err(Refusal::NotReady);
    }
    Ok(reading)
}

// The two readings that nothing else refuses: two names of one line, which callers know.
pub fn get_phase(driver: Driver, mask: u32) -> Result<Transfer, Refusal>
    ensures { result ≡ get_phase driver mask }
{
    begin(driver, mask, address::CPOW0)
}

pub fn get_amplitude(driver: Driver, mask: u32) -> Result<Transfer, Refusal>
    ensures { result ≡ get_amplitude driver mask }
{
    begin(driver, mask, address::ACR)
}

impl Access {
    // Whether a register takes the word: a phase word has 14 bits.
    fn fits(self, register: u32) -> bool
        ensures { result ≡ takes register self }
    {
        match self {
            Access::Set(word) if register == address::CPOW0 => word < 16384,
            Access::Set(word) => address::holds(register, word),
            Access::Get => true,
        }
    }

    // The second action.
    fn action(self, register: u32) -> Action
        ensures { result ≡ entry register self }
    {
        match self {
            Access::Set(word) => Action::Write(register, word),
            Access::Get => Action::Read(register),
        }
    }

    // The word that was written, or the one that came back.
    fn word(self, value: u32) -> u32
        ensures { result ≡ word_of self value }
    {
        match self {
            Access::Set(word) => word,
            Access::Get => value,
        }
    }
}

impl Transfer {
    // One of the three registers, and a ratio for the one that needs it.
    fn own(self) -> bool
        ensures { result ≡ own self.register self.ratio }
    {
        match self.register {
            address::CFTW0 => frequency::ready(self.ratio),
            address::CPOW0 | address::ACR => true,
            _ => false,
        }
    }

    // By the register: the three meanings don't take the same values.
    fn meaning(self, word: u32) -> f32
        ensures { result ≡ meaning_of self.register self.ratio word }
    {
        match self.register {
            address::CFTW0 => frequency::meaning(self.ratio, word),
            address::CPOW0 => phase::meaning(word),
            _ => amplitude::meaning(word),
        }
    }
}

impl Sequence for Transfer {
    // The value achieved or read.
    type Output = f32;

    ghost plan = { plan };

    ghost table_of = { λ s vs. table s };

    ghost laws = { follows };

    #[tactic(auto, using(crate::proofs::Channels::selects), unfolding(bus::specs::Sequence::action, crate::specs::Channel::legal))]
    fn action(&self) -> Option<Action> {
        let csr = csr::of(self.mode, self.mask).ok()?;
        if !self.own() || !self.access.fits(self.register) {
            return None;
        }
        let plan = [
            Action::Write(address::CSR, csr),
            self.access.action(self.register),
        ];
        plan.get(self.step as usize).copied()
    }

    fn judge(&self, value: u32) -> Result<Option<f32>, Refusal> {
        if self.step != 1 {
            return Ok(None);
        }
        let word = self.access.word(value);
        Ok(Some(self.meaning(word)))
    }

    fn onward(&mut self, _value: u32) {
        self.step = self.step.saturating_add(1);
    }

    fn end(&mut self) {
        self.step = 2;
    }
}
