// What a driver that is up does: settings and readings, register reads, and freezing.
#![tactic(auto)]

ghost use Rattle.std.specs.Prelude.{◌≡◌};
ghost use Rattle.driver.specs.Driver.{freeze_of};

use convert::Driver;
use registers::refusal::Refusal;

pub mod channel;
pub mod register;

// The mode, for profiles that are streamed to the chip. The test of a mode stays a line, as in `csr::of`: a call would say no more.
pub fn freeze(driver: Driver) -> Result<u32, Refusal>
    ensures { result ≡ freeze_of driver }
{
    if 3 < driver.mode {
        return Err(Refusal::Mode);
    }
    Ok(driver.mode)
}
