// The self test, and reading CSR and FR1.
use crate::chip::Fault;
use crate::run::{Trial, each, titled};
use driver::register;
use host::Kind;
use std::io;

pub fn registers(rt: &impl Print, trial: Trial) -> io::Result<()> {
    titled(rt, "\nread CSR", Kind::Register(register::csr()), trial)?;
    titled(rt, "\nread FR1", Kind::Register(register::fr1()), trial)
}

fn test(rt: &impl Print, trial: Trial) -> io::Result<()> {
    titled(rt, "\nself test", Kind::SelfTest(self_test::new()), trial)
}

/// Channel 2 differs in the first check and in the second; then bits of the mode alone do.
pub fn tests(rt: &impl Print) -> io::Result<()> {
    test(rt, Trial::new())?;
    test(rt, Trial::new().with(Fault::Reads(3, 0xb9)))?;
    test(rt, Trial::new().with(Fault::Reads(5, 0x49)))?;
    test(rt, Trial::new().with(Fault::Reads(3, 0xf6)))
}

/// Each action fails; then values too wide for CSR and for FR1.
pub fn faulty(rt: &impl Print) -> io::Result<()> {
    let sequence = Kind::SelfTest(self_test::new());
    each(rt, "\nself test, each action failing in turn", sequence, 6)?;
    test(rt, Trial::new().with(Fault::Reads(1, 0x100)).showing(1))?;
    test(rt, Trial::new().with(Fault::Reads(3, 0x1f9)).showing(3))?;
    test(rt, Trial::new().with(Fault::Reads(5, 0x109)).showing(5))?;
    registers(rt, Trial::new().with(Fault::Fails(1)).showing(1))?;
    registers(
        rt,
        Trial::new().with(Fault::Reads(1, 0x100_0000)).showing(1),
    )
}
