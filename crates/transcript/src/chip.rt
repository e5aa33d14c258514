// The other end of the bus: a chip that remembers its CSR, and one thing that may go wrong with it.
use bus::{Action, Reply};
use registers::address;
use std::fmt;

/// What goes wrong at one action, by its number from 1.
#[derive(Clone, Copy)]
pub enum Fault {
    /// the reply says failed
    Fails(usize),
    /// a read gives this value, whatever the register holds
    Reads(usize, u32),
}

impl fmt::Display for Fault {
    fn fmt<W: fmt::Write>(&self, f: &mut fmt::Formatter<W>) -> fmt::Result {
        match *self {
            Fault::Fails(n) => write!(f, ", failing at action {n}"),
            Fault::Reads(n, value) => write!(f, ", action {n} reads 0x{value:02x}"),
        }
    }
}

// Comes with each reply whose value must not count.
const JUNK: u32 = 0xffff_ffff;

#[derive(Drop)]
pub struct Chip {
    csr: u32,
    fault: Option<Fault>,
}

impl Chip {
    pub fn new(fault: Option<Fault>) -> Chip {
        Chip { csr: 0x29, fault }
    }

    // FR1, CPOW0 and ACR have bits set that the driver must keep or leave out; CFTW0 has more than a float can hold.
    fn value(&self, action: Action) -> u32 {
        match action {
            Action::Read(address::CSR) => self.csr,
            Action::Read(address::FR1) => 0x6f_a5c3,
            Action::Read(address::CFTW0) => 0x3333_3333,
            Action::Read(address::CPOW0) => 0x7000,
            Action::Read(_) => 0xa5_1200,
            _ => JUNK,
        }
    }

    /// The n-th action, and the reply to it.
    pub fn play(&mut self, n: usize, action: Action) -> Reply {
        let (failed, value) = match self.fault {
            Some(Fault::Fails(at)) if at == n => (true, JUNK),
            Some(Fault::Reads(at, other)) if at == n => (false, other),
            _ => (false, self.value(action)),
        };
        if let Action::Write(address::CSR, csr) = action {
            self.csr = csr;
        }
        Reply { failed, value }
    }
}
