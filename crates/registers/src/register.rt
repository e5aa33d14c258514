// The value of a register.
ghost use Rattle.std.specs.Prelude.{◌≡◌, ◌<◌, ◌^◌, ℕ};
ghost use Rattle.registers.specs.Registers.{width_of};
ghost use Rattle.registers.specs.Fields.{field_of, raw_in, with_in};

use crate::field;
use crate::field::Field;
use crate::refusal::Refusal;
use std::marker::Model;

/// A value of the register at an address: never too wide for it.
#[derive(Clone, Copy, Debug, PartialEq, Eq)]
pub struct Register<const ADDRESS: u32> {
    raw: u32,
}

impl<const ADDRESS: u32> Model for Register<ADDRESS> {
    ghost Value = { ℕ };

    ghost view = { λ register. register.raw };

    ghost invariant = { λ register. register.raw < 256 ^ width_of ADDRESS };

    ghost inverse = { λ n. record { raw = n } };
}

impl<const ADDRESS: u32> TryFrom<u32> for Register<ADDRESS> {
    type Error = Refusal;

    ghost try_from_gives = { λ n r. r ≡ raw_in ADDRESS n };

    fn try_from(raw: u32) -> Result<Self, Refusal> {
        Ok(Register {
            raw: field::raw_in(ADDRESS, raw)?,
        })
    }
}

impl<const ADDRESS: u32> Register<ADDRESS> {
    pub fn raw(self) -> u32
        ensures { result ≡ self.entry }
    {
        self.raw
    }

    // What stands in a field.
    pub fn get(&self, field: Field) -> u32
        ensures { result ≡ field_of self.now field }
    {
        field.get(self.raw)
    }

    // The register with a value in a field and every other bit as it was.
    #[tactic(auto, using(crate::proofs::Fields::set_of_fits))]
    pub fn with(&self, field: Field, value: u32) -> Result<Self, Refusal>
        ensures { result ≡ with_in ADDRESS self.now field value }
    {
        if !field.lies_in(ADDRESS) {
            return Err(Refusal::Word);
        }
        let raw = field.set(self.raw, value)?;
        Ok(Register { raw })
    }
}
