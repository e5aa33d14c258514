// FR1, function register 1.
ghost use Rattle.std.specs.Prelude.{◌≡◌};
ghost use Rattle.registers.specs.Registers.{FR1};
ghost use Rattle.registers.specs.Fields.{raw_in};
ghost use Rattle.bitfields.specs.Fr1.{with_clock};

use registers::bits;
use registers::field::Field;
use registers::refusal::Refusal;
use registers::register::Register;

pub type Fr1 = Register<0x01>;

pub const SW_SYNC: Field = bits!(0, 0);

pub const HW_SYNC: Field = bits!(1, 1);

pub const DAC_REF_PD: Field = bits!(4, 4);

pub const SYNC_CLK_PD: Field = bits!(5, 5);

pub const EXT_PD: Field = bits!(6, 6);

pub const EXT_CLK_PD: Field = bits!(7, 7);

pub const MODULATION: Field = bits!(8, 9);

pub const RAMP_UP_DOWN: Field = bits!(10, 11);

pub const PROFILE_PIN: Field = bits!(12, 14);

pub const CHARGE_PUMP: Field = bits!(16, 17);

/// The clock's multiplier, under the Rust's name.
pub const PLL_DIVIER: Field = bits!(18, 22);

pub const VCO_HIGH: Field = bits!(23, 23);

/// An FR1 of a raw value, under the Rust's name: Word where it has more than 24 bits.
pub fn new_with_raw_value(raw: u32) -> Result<Fr1, Refusal>
    ensures { result ≡ raw_in FR1 raw }
{
    Fr1::try_from(raw)
}

// FR1 with a multiplier and vco_high: every other bit stays.
#[tactic(auto, unfolding(registers::specs::Registers::width_of))]
pub fn with_clock(fr1: u32, multiplier: u32, vco_high: u32) -> Result<u32, Refusal>
    ensures { result ≡ with_clock fr1 multiplier vco_high }
{
    let fr1 = Fr1::try_from(fr1)?;
    let fr1 = fr1.with(PLL_DIVIER, multiplier)?.with(VCO_HIGH, vco_high)?;
    Ok(fr1.raw())
}
