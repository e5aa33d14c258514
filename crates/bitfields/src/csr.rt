// CSR, the channel select register.
// Mode and mask are tested in a line wherever they are refused, here and in the crates above: a function for it would say no more.
ghost use Rattle.std.specs.Prelude.{◌≡◌};
ghost use Rattle.registers.specs.Registers.{CSR};
ghost use Rattle.registers.specs.Fields.{raw_in};
ghost use Rattle.bitfields.specs.Csr.{csr_of, with_mode, with_channel};

use registers::bits;
use registers::field::Field;
use registers::refusal::Refusal;
use registers::register::Register;

pub type Csr = Register<0x00>;

pub const LSB_FIRST: Field = bits!(0, 0);

pub const MODE: Field = bits!(1, 2);

pub const CHANNEL: Field = bits!(4, 7);

/// A CSR of a raw value, under the Rust's name: Word where it has more than 8 bits.
pub fn new_with_raw_value(raw: u32) -> Result<Csr, Refusal>
    ensures { result ≡ raw_in CSR raw }
{
    Csr::try_from(raw)
}

// A CSR in another mode: Mode, then Word.
#[tactic(auto, unfolding(registers::specs::Registers::width_of))]
pub fn with_mode(csr: u32, mode: u32) -> Result<u32, Refusal>
    ensures { result ≡ with_mode csr mode }
{
    if 3 < mode {
        return Err(Refusal::Mode);
    }
    let csr = Csr::try_from(csr)?.with(MODE, mode)?;
    Ok(csr.raw())
}

// A CSR with other channels: Mask, then Word. It stands beside `with_mode`: field, limit and refusal as parameters would be no plainer.
#[tactic(auto, unfolding(registers::specs::Registers::width_of))]
pub fn with_channel(csr: u32, mask: u32) -> Result<u32, Refusal>
    ensures { result ≡ with_channel csr mask }
{
    if 15 < mask {
        return Err(Refusal::Mask);
    }
    let csr = Csr::try_from(csr)?.with(CHANNEL, mask)?;
    Ok(csr.raw())
}

// The CSR that the driver builds: the mask's channels in a mode.
pub fn of(mode: u32, mask: u32) -> Result<u32, Refusal>
    ensures { result ≡ csr_of mode mask }
{
    if 3 < mode {
        return Err(Refusal::Mode);
    }
    if 15 < mask {
        return Err(Refusal::Mask);
    }
    Ok(mask * 16 + mode * 2)
}
