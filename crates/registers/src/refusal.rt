// Why a call is refused.
ghost use Rattle.std.specs.Prelude.{◌≡◌, ◌++◌, Some, codes, decimal};
ghost use Rattle.registers.specs.Refusals.{number, number_of, name_of, answer_name, name_at, Names};

use std::error::Error;
use std::fmt;

/// The thirteen refusals, in the order of their numbers.
#[derive(Clone, Copy, Debug, PartialEq, Eq)]
pub enum Refusal {
    Interface = 1,
    Check,
    Bounds,
    Pin,
    Frequency,
    Mask,
    Mode,
    Word,
    Room,
    Address,
    Short,
    NotReady,
    Over,
}

impl Refusal {
    /// The number at the C boundary and in print.
    pub fn number(self) -> u32
        ensures { result ≡ number self }
    {
        self as u32
    }

    pub fn name(self) -> &'static str
        ensures { result.now ≡ name_of self }
    {
        match self {
            Refusal::Interface => "Interface",
            Refusal::Check => "Check",
            Refusal::Bounds => "Bounds",
            Refusal::Pin => "Pin",
            Refusal::Frequency => "Frequency",
            Refusal::Mask => "Mask",
            Refusal::Mode => "Mode",
            Refusal::Word => "Word",
            Refusal::Room => "Room",
            Refusal::Address => "Address",
            Refusal::Short => "Short",
            Refusal::NotReady => "NotReady",
            Refusal::Over => "Over",
        }
    }
}

/// The number of an answer: 0 where nothing is refused.
pub fn number<T>(answer: &Result<T, Refusal>) -> u32
    ensures { result ≡ number_of answer.now }
{
    match answer {
        Ok(_) => 0,
        Err(refusal) => refusal.number(),
    }
}

/// The name of an answer: "Ok" where nothing is refused.
pub fn name<T>(answer: &Result<T, Refusal>) -> &'static str
    ensures { result.now ≡ answer_name answer.now }
{
    match answer {
        Ok(_) => "Ok",
        Err(refusal) => refusal.name(),
    }
}

/// The name that goes with a number: "Ok" for 0, and no letter above 13.
#[tactic(auto, using(crate::proofs::Names::name_at_number, crate::proofs::Names::name_at_none))]
pub fn name_at(number: u32) -> &'static str
    ensures { result.now ≡ name_at number }
{
    match Refusal::try_from(number) {
        Ok(refusal) => refusal.name(),
        Err(_) if number == 0 => "Ok",
        Err(_) => "",
    }
}

/// A number that is no refusal's.
#[derive(Clone, Copy, Debug, PartialEq, Eq)]
pub struct NoRefusal(pub u32);

impl TryFrom<u32> for Refusal {
    type Error = NoRefusal;

    ghost try_from_gives = { Names };

    fn try_from(number: u32) -> Result<Self, NoRefusal> {
        match number {
            1 => Ok(Refusal::Interface),
            2 => Ok(Refusal::Check),
            3 => Ok(Refusal::Bounds),
            4 => Ok(Refusal::Pin),
            5 => Ok(Refusal::Frequency),
            6 => Ok(Refusal::Mask),
            7 => Ok(Refusal::Mode),
            8 => Ok(Refusal::Word),
            9 => Ok(Refusal::Room),
            10 => Ok(Refusal::Address),
            11 => Ok(Refusal::Short),
            12 => Ok(Refusal::NotReady),
            13 => Ok(Refusal::Over),
            _ => Err(NoRefusal(number)),
        }
    }
}

impl fmt::Display for Refusal {
    ghost output = { λ refusal. Some (decimal (number refusal) ++ codes " " ++ name_of refusal) };

    fn fmt<W: fmt::Write>(&self, f: &mut fmt::Formatter<W>) -> fmt::Result {
        write!(f, "{} {}", self.number(), self.name())
    }
}

impl fmt::Display for NoRefusal {
    ghost output = { λ e. Some (codes "no refusal has number " ++ decimal e.0) };

    fn fmt<W: fmt::Write>(&self, f: &mut fmt::Formatter<W>) -> fmt::Result {
        write!(f, "no refusal has number {}", self.0)
    }
}

impl Error for Refusal {}

impl Error for NoRefusal {}
