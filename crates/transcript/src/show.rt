// An action, its reply, an answer, a float and a fault, in words.
use bus::{Action, IO_UPDATE, Reply};
use host::Outcome;
use registers::address;
use registers::refusal::Refusal;
use registers::write::Write;
use std::fmt;

/// A float's sign, its size cut to three places, and its bit pattern.
#[derive(Clone, Copy)]
pub struct Float(pub f32);

impl fmt::Display for Float {
    fn fmt<W: fmt::Write>(&self, f: &mut fmt::Formatter<W>) -> fmt::Result {
        let x = self.0;
        if x.is_nan() {
            return f.write_str("NaN");
        }
        let sign = if x < 0.0 { "-" } else { "" };
        let size = x.abs();
        let whole = binary32::cut(size);
        let rest = binary32::cut((size - binary32::nearest(whole)) * 1000.0) % 1000;
        let bits = binary32::to_bits(x);
        write!(f, "{sign}{whole}.{rest:03} (0x{bits:08x})")
    }
}

/// A register's name, in five columns.
#[derive(Clone, Copy)]
pub struct Register(pub u32);

impl fmt::Display for Register {
    fn fmt<W: fmt::Write>(&self, f: &mut fmt::Formatter<W>) -> fmt::Result {
        match self.0 {
            address::CSR => f.write_str("CSR  "),
            address::FR1 => f.write_str("FR1  "),
            address::FR2 => f.write_str("FR2  "),
            address::CFR => f.write_str("CFR  "),
            address::CFTW0 => f.write_str("CFTW0"),
            address::CPOW0 => f.write_str("CPOW0"),
            address::ACR => f.write_str("ACR  "),
            address::LSRR => f.write_str("LSRR "),
            other => write!(f, "{other}"),
        }
    }
}

// A register's value, in thirteen columns: in as many digits as it has, or in eight where it is too wide.
#[derive(Clone, Copy)]
struct Value(Write);

impl fmt::Display for Value {
    #[tactic(auto, using(registers::proofs::Widths::width_most))]
    fn fmt<W: fmt::Write>(&self, f: &mut fmt::Formatter<W>) -> fmt::Result {
        let Write { address, value } = self.0;
        let digits = if address::holds(address, value) {
            2 * address::width(address)
        } else {
            8
        };
        let blanks = 10 - digits;
        write!(f, " 0x{value:0digits$x}{:blanks$}", "")
    }
}

/// An action, in 29 columns, and its reply, in thirteen: of a read that did not fail, its value.
#[derive(Clone, Copy)]
pub struct Turn {
    pub action: Action,
    pub reply: Reply,
}

impl fmt::Display for Turn {
    fn fmt<W: fmt::Write>(&self, f: &mut fmt::Formatter<W>) -> fmt::Result {
        match self.action {
            Action::Pin(pin, high) => {
                let pin = if pin == IO_UPDATE {
                    "io_update"
                } else {
                    "reset"
                };
                let level = if high { "high" } else { "low" };
                write!(f, "{pin:<11}{level:<18}")?;
            }
            Action::Delay(us) => write!(f, "delay      {us} us              ")?,
            Action::Configure(mode) => write!(f, "configure  mode {mode}            ")?,
            Action::Write(address, value) => {
                let register = Register(address);
                let value = Value(Write { address, value });
                write!(f, "write      {register}{value}")?;
            }
            Action::Read(address) => {
                let register = Register(address);
                write!(f, "read       {register}             ")?;
            }
        }
        match self.action {
            _ if self.reply.failed => f.write_str(" failed      "),
            Action::Read(address) => {
                let value = self.reply.value;
                write!(f, "{}", Value(Write { address, value }))
            }
            _ => f.write_str(" good        "),
        }
    }
}

/// What a reply gave: an answer's number and name, and what a sequence brings at its end.
#[derive(Clone, Copy)]
pub struct Answer(pub Result<Option<Outcome>, Refusal>);

impl fmt::Display for Answer {
    fn fmt<W: fmt::Write>(&self, f: &mut fmt::Formatter<W>) -> fmt::Result {
        match self.0 {
            Err(refusal) => write!(f, "{refusal}"),
            Ok(None) => f.write_str("0 Ok"),
            Ok(Some(Outcome::Driver(driver))) => {
                let mode = driver.mode;
                let ratio = Float(driver.ratio);
                write!(f, "0 Ok, driver of mode {mode} and ratio {ratio}")
            }
            Ok(Some(Outcome::Float(x))) => write!(f, "0 Ok, value {}", Float(x)),
            Ok(Some(Outcome::Word(n))) => write!(f, "0 Ok, value 0x{n:02x}"),
            Ok(Some(Outcome::Passed(passed))) => write!(f, "0 Ok, {passed}"),
        }
    }
}
