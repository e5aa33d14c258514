// Transcripts of the bus sequences: each action, its reply, and what the driver answers.
#![tactic(auto)]

mod channels;
mod checks;
mod chip;
mod records;
mod run;
mod show;
mod startups;

use convert::Driver;
use run::Trial;
use std::io;

// Start-ups, settings and the self test: what goes well. The driver that starting up makes.
fn well(rt: &impl Print) -> io::Result<Driver> {
    print!(rt; "1. Start-up: the driver's record comes with the last reply")?;
    let driver = startups::good(rt)?;
    startups::others(rt)?;
    print!(rt; "\n\n2. Settings and readings: a value comes with the last reply")?;
    channels::good(rt, driver)?;
    checks::registers(rt, Trial::new())?;
    print!(rt; "\n\n3. The self test: true comes with the last reply")?;
    checks::tests(rt)?;
    Ok(driver)
}

fn main(rt: HostRuntime) -> io::Result<()> {
    let driver = well(&rt)?;
    print!(rt; "\n\n4. Replies that say failed, are too wide, or are wrong")?;
    startups::faulty(&rt)?;
    channels::faulty(&rt, driver)?;
    checks::faulty(&rt)?;
    print!(rt; "\n\n5. Refusals before any action")?;
    startups::begin(&rt, 4, 125e6, 4, Trial::new())?;
    let ratio = 16.0;
    startups::freeze(&rt, Driver { mode: 4, ratio })?;
    channels::refused(&rt)?;
    channels::bounds(&rt)?;
    print!(rt; "\n\n6. Records made by hand")?;
    records::startups(&rt)?;
    records::transfers(&rt)?;
    records::others(&rt)?;
    println!(rt)
}
