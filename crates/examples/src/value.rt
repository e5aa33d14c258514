// Examples 8 to 11: a line for each value, with what was asked, the answer, the register and what it achieves.
use crate::step::Asked;
use bitfields::fr1;
use convert::{Driver, Setting, clock};
use registers::refusal::{self, Refusal};
use std::fmt::Write;
use std::io;

// What was asked, in 30 columns, and the answer.
fn answered<T>(rt: &impl Print, asked: &str, answer: &Result<T, Refusal>) -> io::Result<()> {
    let number = refusal::number(answer);
    let name = refusal::name(answer);
    print!(rt; "{asked:<30}{number} {name:<6}")
}

// The rest of a line; a refusal has no register. An f64 is shown in as many places as these floats have.
fn setting(
    rt: &impl Print,
    asked: &str,
    setting: Result<Setting, Refusal>,
    register: &str,
    digits: usize,
) -> io::Result<()> {
    answered(rt, asked, &setting)?;
    if let Ok(Setting { word, achieved }) = setting {
        print!(rt; "{register} 0x{word:0digits$X}")?;
        if register == "CFTW0" {
            print!(rt; " {word:<10}")?;
        }
        print!(rt; "  achieved {}", f64::from(achieved))?;
    }
    println!(rt)
}

pub fn phase(rt: &impl Print, head: &str, x: f32) -> io::Result<()> {
    let mut asked = Asked::new();
    write!(asked, "{head}phase {}", f64::from(x))?;
    setting(rt, asked.as_str(), Ok(convert::phase::set(x)), "CPOW0", 4)
}

pub fn amplitude(rt: &impl Print, head: &str, x: f32) -> io::Result<()> {
    let mut asked = Asked::new();
    write!(asked, "{head}amplitude {}", f64::from(x))?;
    setting(rt, asked.as_str(), convert::amplitude::set(x), "ACR", 6)
}

fn frequency(rt: &impl Print, driver: Driver, x: f32) -> io::Result<()> {
    let mut asked = Asked::new();
    write!(asked, "    frequency {}", f64::from(x))?;
    setting(
        rt,
        asked.as_str(),
        convert::frequency::set(driver, x),
        "CFTW0",
        8,
    )
}

fn reference(head: &str, x: f32, multiplier: u32) -> io::Result<Asked> {
    let mut asked = Asked::new();
    write!(asked, "{head}reference {} x {multiplier}", f64::from(x))?;
    Ok(asked)
}

/// FR1 for a clock, which is judged first.
pub fn clock(rt: &impl Print, was: u32, x: f32, multiplier: u32) -> io::Result<()> {
    let asked = reference("    ", x, multiplier)?;
    let fr1 = clock::of(x, multiplier).and_then(|clock| fr1::with_clock(
        was, multiplier, clock.vco,
    ));
    answered(rt, asked.as_str(), &fr1)?;
    if let Ok(fr1) = fr1 {
        print!(rt; "FR1 0x{fr1:06X}")?;
    }
    println!(rt)
}

/// A clock's ratio, and frequencies on a driver that has it.
pub fn driver(rt: &impl Print, head: &str, x: f32, multiplier: u32) -> io::Result<()> {
    let asked = reference(head, x, multiplier)?;
    let clock = clock::of(x, multiplier);
    answered(rt, asked.as_str(), &clock)?;
    let Ok(clock) = clock else {
        return println!(rt);
    };
    println!(rt; "ratio {}", f64::from(clock.ratio))?;
    let driver = Driver {
        mode: 3,
        ratio: clock.ratio,
    };
    frequency(rt, driver, 1e6)?;
    frequency(rt, driver, 268435456.0)?;
    frequency(rt, driver, 268435488.0)
}
