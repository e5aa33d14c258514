// Start-ups.
use crate::chip::Fault;
use crate::run::{Trial, each, play};
use crate::show::Float;
use convert::Driver;
use host::{Kind, Outcome};
use registers::refusal;
use std::io;

/// A start-up of a mode, on a reference and a multiplier.
// Mode, reference and multiplier are what `startup::new` takes.
pub fn title(rt: &impl Print, mode: u32, reference: f32, multiplier: u32) -> io::Result<()> {
    print!(rt;
        "\nstart-up, mode {mode}, clock {} x {multiplier}",
        Float(reference)
    )
}

pub fn begin(
    rt: &impl Print,
    mode: u32,
    reference: f32,
    multiplier: u32,
    trial: Trial,
) -> io::Result<Option<Outcome>> {
    title(rt, mode, reference, multiplier)?;
    trial.title(rt)?;
    match startup::new(mode, reference, multiplier) {
        Ok(startup) => play(rt, Kind::Startup(startup), trial),
        Err(refusal) => {
            print!(rt; ": refused, {refusal}")?;
            Ok(None)
        }
    }
}

pub fn freeze(rt: &impl Print, driver: Driver) -> io::Result<()> {
    let frozen = driver::freeze(driver);
    let number = refusal::number(&frozen);
    let name = refusal::name(&frozen);
    let mode = frozen.unwrap_or(0);
    print!(rt;
        "\nfreeze a driver of mode {}: {number} {name}, mode {mode}",
        driver.mode
    )
}

/// The whole transcript, and the driver that it makes.
pub fn good(rt: &impl Print) -> io::Result<Driver> {
    match begin(rt, 3, 125e6, 4, Trial::new())? {
        Some(Outcome::Driver(driver)) => {
            freeze(rt, driver)?;
            Ok(driver)
        }
        _ => Err(io::Error::from(io::ErrorKind::InvalidData)),
    }
}

/// One action each of some others: the CSR, the wire mode, the FR1.
pub fn others(rt: &impl Print) -> io::Result<()> {
    let good = Trial::new();
    let ones = good.with(Fault::Reads(13, 0xff_ffff));
    begin(rt, 0, 125e6, 4, good.showing(6))?;
    begin(rt, 1, 125e6, 4, good.showing(6))?;
    begin(rt, 2, 125e6, 4, good.showing(6))?;
    begin(rt, 2, 125e6, 4, good.showing(10))?;
    begin(rt, 3, 10e6, 19, ones.showing(14))?;
    begin(rt, 3, 10e6, 20, ones.showing(14))?;
    begin(rt, 3, 268435456.0, 1, good.showing(14))?;
    Ok(())
}

/// A failed reply to each action; then values too wide, a wrong CSR and a bad clock.
pub fn faulty(rt: &impl Print) -> io::Result<()> {
    let good = Trial::new();
    let wide = good.with(Fault::Reads(12, 0x1f6));
    let wide_fr1 = good.with(Fault::Reads(13, 0x100_0000));
    let other = good.with(Fault::Reads(12, 0xb6));
    let Ok(startup) = startup::new(3, 125e6, 4) else {
        return Ok(());
    };
    let title = "\nstart-up, each action failing in turn";
    each(rt, title, Kind::Startup(startup), 17)?;
    begin(rt, 3, 125e6, 4, wide.showing(12))?;
    begin(rt, 3, 125e6, 4, wide_fr1.showing(13))?;
    begin(rt, 3, 125e6, 4, other.showing(12))?;
    begin(rt, 3, 10e6, 4, good.showing(12))?;
    begin(rt, 3, 10e6, 4, other.showing(12))?;
    begin(rt, 3, 10e6, 4, wide.showing(12))?;
    Ok(())
}
