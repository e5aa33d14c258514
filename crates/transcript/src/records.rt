// Records made by hand.
use crate::channels::on;
use crate::chip::Fault;
use crate::run::{Trial, play};
use crate::show;
use crate::startups::title;
use convert::Driver;
use driver::channel::{Access, Transfer};
use driver::register::Register;
use host::Kind;
use registers::address;
use self_test::SelfTest;
use startup::Startup;
use std::io;

// On the multiplier 4; a CSR read in the first turn gives what mode 3 wants.
fn startup(rt: &impl Print, step: u32, mode: u32, reference: f32, fr1: u32) -> io::Result<()> {
    title(rt, mode, reference, 4)?;
    print!(rt; ", step {step}, FR1 0x{fr1:06x}")?;
    let record = Startup {
        step,
        mode,
        reference,
        multiplier: 4,
        fr1,
    };
    let trial = Trial::new().with(Fault::Reads(1, 0xf6));
    play(rt, Kind::Startup(record), trial)?;
    Ok(())
}

pub fn startups(rt: &impl Print) -> io::Result<()> {
    startup(rt, 17, 3, 125e6, 0)?;
    startup(rt, 4294967295, 3, 125e6, 0)?;
    startup(rt, 0, 4, 125e6, 0)?;
    startup(rt, 0, 3, 125e6, 0x100_0000)?;
    startup(rt, 12, 3, 10e6, 0)?;
    startup(rt, 16, 3, 10e6, 0)?;
    startup(rt, 11, 3, 10e6, 0)?;
    startup(rt, 16, 3, 125e6, 0xff_ffff)
}

fn transfer(rt: &impl Print, record: Transfer) -> io::Result<()> {
    let register = show::Register(record.register);
    match record.access {
        Access::Set(word) => print!(rt; "\nwrite 0x{word:04x} to {register}")?,
        Access::Get => print!(rt; "\nread {register}")?,
    }
    let driver = Driver {
        mode: record.mode,
        ratio: record.ratio,
    };
    on(rt, driver, record.mask)?;
    print!(rt; ", step {}", record.step)?;
    play(rt, Kind::Transfer(record), Trial::new())?;
    Ok(())
}

// A transfer that is as it should be.
fn right(register: u32, access: Access) -> Transfer {
    Transfer {
        step: 0,
        mode: 3,
        mask: 1,
        register,
        access,
        ratio: 16.0,
    }
}

/// One thing is wrong with each but the last, which is past its check of the ratio.
pub fn transfers(rt: &impl Print) -> io::Result<()> {
    let read = right(address::CFTW0, Access::Get);
    transfer(rt, Transfer { step: 2, ..read })?;
    transfer(rt, Transfer { mode: 4, ..read })?;
    transfer(rt, Transfer { mask: 16, ..read })?;
    let ratio = f32::NAN;
    transfer(rt, Transfer { ratio, ..read })?;
    transfer(rt, right(address::LSRR, Access::Get))?;
    transfer(rt, right(address::CSR, Access::Get))?;
    transfer(rt, right(address::CPOW0, Access::Set(0x4000)))?;
    transfer(rt, right(address::ACR, Access::Set(0x100_0000)))?;
    let write = right(address::CPOW0, Access::Set(0x3fff));
    transfer(
        rt,
        Transfer {
            step: 1,
            ratio,
            ..write
        },
    )
}

fn test(rt: &impl Print, step: u32, old: u32) -> io::Result<()> {
    print!(rt; "\nself test at step {step}, old byte 0x{old:02x}")?;
    play(rt, Kind::SelfTest(SelfTest { step, old }), Trial::new())?;
    Ok(())
}

fn reading(rt: &impl Print, step: u32, address: u32) -> io::Result<()> {
    print!(rt; "\nread {} at step {step}", show::Register(address))?;
    play(rt, Kind::Register(Register { step, address }), Trial::new())?;
    Ok(())
}

pub fn others(rt: &impl Print) -> io::Result<()> {
    test(rt, 6, 0x29)?;
    test(rt, 0, 256)?;
    test(rt, 5, 0x29)?;
    reading(rt, 1, address::CSR)?;
    reading(rt, 0, address::FR2)
}
