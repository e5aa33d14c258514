// Channel settings and readings.
use crate::chip::Fault;
use crate::run::{Trial, play};
use crate::show::Float;
use convert::Driver;
use driver::channel::{self, Transfer};
use host::Kind;
use registers::refusal::Refusal;
use std::{fmt, io};

#[derive(Clone, Copy)]
enum Wish {
    SetFrequency(f32),
    SetPhase(f32),
    SetAmplitude(f32),
    GetFrequency,
    GetPhase,
    GetAmplitude,
}

impl fmt::Display for Wish {
    fn fmt<W: fmt::Write>(&self, f: &mut fmt::Formatter<W>) -> fmt::Result {
        match *self {
            Wish::SetFrequency(x) => write!(f, "set frequency {}", Float(x)),
            Wish::SetPhase(x) => write!(f, "set phase {}", Float(x)),
            Wish::SetAmplitude(x) => write!(f, "set amplitude {}", Float(x)),
            Wish::GetFrequency => f.write_str("read frequency"),
            Wish::GetPhase => f.write_str("read phase"),
            Wish::GetAmplitude => f.write_str("read amplitude"),
        }
    }
}

/// Where something is done.
// Driver and mask stay two parameters, as driver's functions take them.
pub fn on(rt: &impl Print, driver: Driver, mask: u32) -> io::Result<()> {
    let ratio = Float(driver.ratio);
    print!(rt; " in mode {}, mask {mask}, ratio {ratio}", driver.mode)
}

// A match and no closures: a wish is printed too.
fn begun(driver: Driver, mask: u32, wish: Wish) -> Result<Transfer, Refusal> {
    match wish {
        Wish::SetFrequency(x) => channel::set_frequency(driver, mask, x),
        Wish::SetPhase(x) => channel::set_phase(driver, mask, x),
        Wish::SetAmplitude(x) => channel::set_amplitude(driver, mask, x),
        Wish::GetFrequency => channel::get_frequency(driver, mask),
        Wish::GetPhase => channel::get_phase(driver, mask),
        Wish::GetAmplitude => channel::get_amplitude(driver, mask),
    }
}

fn ask(rt: &impl Print, driver: Driver, mask: u32, wish: Wish, trial: Trial) -> io::Result<()> {
    print!(rt; "\n{wish}")?;
    on(rt, driver, mask)?;
    trial.title(rt)?;
    match begun(driver, mask, wish) {
        Ok(transfer) => {
            play(rt, Kind::Transfer(transfer), trial)?;
            Ok(())
        }
        Err(refusal) => print!(rt; ": refused, {refusal}"),
    }
}

fn six(rt: &impl Print, driver: Driver, mask: u32, trial: Trial) -> io::Result<()> {
    ask(rt, driver, mask, Wish::SetFrequency(100e6), trial)?;
    ask(rt, driver, mask, Wish::SetPhase(0.75), trial)?;
    ask(rt, driver, mask, Wish::SetAmplitude(0.5), trial)?;
    ask(rt, driver, mask, Wish::GetFrequency, trial)?;
    ask(rt, driver, mask, Wish::GetPhase, trial)?;
    ask(rt, driver, mask, Wish::GetAmplitude, trial)
}

/// Besides the six: full amplitude, which turns ACR's multiplier off.
pub fn good(rt: &impl Print, driver: Driver) -> io::Result<()> {
    let all = Trial::new();
    let off = all.with(Fault::Reads(2, 0x00_0200));
    six(rt, driver, 5, all)?;
    ask(rt, driver, 8, Wish::SetFrequency(1e6), all)?;
    ask(rt, driver, 8, Wish::SetAmplitude(1.0), all)?;
    ask(rt, driver, 8, Wish::GetAmplitude, off)
}

/// Each action fails; then values too wide for CPOW0 and for ACR.
pub fn faulty(rt: &impl Print, driver: Driver) -> io::Result<()> {
    let cpow0 = Trial::new().with(Fault::Reads(2, 0x1_0000));
    let acr = Trial::new().with(Fault::Reads(2, 0x100_0000));
    six(rt, driver, 1, Trial::new().with(Fault::Fails(1)).showing(1))?;
    six(rt, driver, 1, Trial::new().with(Fault::Fails(2)).showing(2))?;
    ask(rt, driver, 1, Wish::GetPhase, cpow0.showing(2))?;
    ask(rt, driver, 1, Wish::GetAmplitude, acr.showing(2))
}

// What is accepted shows its second action.
fn judged(rt: &impl Print, mode: u32, mask: u32, ratio: f32, wish: Wish) -> io::Result<()> {
    ask(
        rt,
        Driver { mode, ratio },
        mask,
        wish,
        Trial::new().showing(2),
    )
}

/// Mode, Mask and NotReady.
pub fn refused(rt: &impl Print) -> io::Result<()> {
    let get = Wish::GetFrequency;
    let set = Wish::SetFrequency(100e6);
    let second = Trial::new().showing(2);
    let ratio = 16.0;
    six(rt, Driver { mode: 4, ratio }, 1, second)?;
    six(rt, Driver { mode: 3, ratio }, 16, second)?;
    let ratio = f32::NAN;
    six(rt, Driver { mode: 3, ratio }, 1, second)?;
    judged(rt, 3, 1, 7.9999995, set)?;
    judged(rt, 3, 1, 7.9999995, get)?;
    judged(rt, 3, 1, 8.0, set)?;
    judged(rt, 3, 1, 4295.0, get)?;
    judged(rt, 3, 1, 4295.0005, set)?;
    judged(rt, 3, 1, 4295.0005, get)
}

/// Bounds: on the ratio 16 the limit is 268435456. Then several refusals at once.
pub fn bounds(rt: &impl Print) -> io::Result<()> {
    let nan = f32::NAN;
    let negative = Wish::SetFrequency(-1.0);
    let loud = Wish::SetAmplitude(1.5);
    judged(rt, 3, 1, 16.0, negative)?;
    judged(rt, 3, 1, 16.0, Wish::SetFrequency(268435456.0))?;
    judged(rt, 3, 1, 16.0, Wish::SetFrequency(268435488.0))?;
    judged(rt, 3, 1, 16.0, loud)?;
    judged(rt, 3, 1, 16.0, Wish::SetAmplitude(nan))?;
    judged(rt, 3, 1, nan, negative)?;
    judged(rt, 3, 16, nan, negative)?;
    judged(rt, 4, 16, nan, negative)?;
    judged(rt, 3, 16, nan, loud)?;
    judged(rt, 4, 16, nan, loud)
}
