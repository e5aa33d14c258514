// ACR, the amplitude control register.
ghost use Rattle.std.specs.Prelude.{◌≡◌};
ghost use Rattle.registers.specs.Registers.{ACR};
ghost use Rattle.registers.specs.Fields.{raw_in};
ghost use Rattle.bitfields.specs.Acr.{acr_of};

use registers::bits;
use registers::field::Field;
use registers::refusal::Refusal;
use registers::register::Register;

pub type Acr = Register<0x06>;

pub const ASF: Field = bits!(0, 9);

pub const LOAD_ARR: Field = bits!(10, 10);

pub const RAMP: Field = bits!(11, 11);

pub const MULTIPLIER: Field = bits!(12, 12);

pub const STEP: Field = bits!(14, 15);

pub const ARR: Field = bits!(16, 23);

/// An ACR of a raw value, under the Rust's name: Word where it has more than 24 bits.
pub fn new_with_raw_value(raw: u32) -> Result<Acr, Refusal>
    ensures { result ≡ raw_in ACR raw }
{
    Acr::try_from(raw)
}

// The ACR of an amplitude scale factor: 1024, full amplitude, is the multiplier off.
pub fn of(asf: u32) -> Result<u32, Refusal>
    ensures { result ≡ acr_of asf }
{
    match asf {
        0..=1023 => Ok(4096 + asf),
        1024 => Ok(0),
        _ => Err(Refusal::Word),
    }
}
