// Bus sequences: what was asked, the action that failed, the number and the result, and each action with what was read.
use crate::line::Numbers;
use bus::{Action, Reply, Sequence};
use convert::{Driver, clock};
use driver::channel::Transfer;
use driver::{channel, register};
use host::{Kind, Outcome};
use registers::address;
use registers::refusal::{self, Refusal};

// An action as numbers: its kind, and its one or two.
// A function and no `From`: an action and an array are both other crates' types.
fn numbers_of(action: Action) -> [u32; 3] {
    match action {
        Action::Pin(pin, high) => [1, pin, high as u32],
        Action::Delay(us) => [2, us, 0],
        Action::Configure(mode) => [3, mode, 0],
        Action::Write(address, value) => [4, address, value],
        Action::Read(address) => [5, address, 0],
    }
}

// An answer's result: 0 of a driver's record, which is not the original's to show. A function and no `From`, as above.
fn number_of(answer: Result<Option<Outcome>, Refusal>) -> u32 {
    match answer {
        Ok(Some(Outcome::Float(x))) => binary32::to_bits(x),
        Ok(Some(Outcome::Word(n))) => n,
        Ok(Some(Outcome::Passed(passed))) => passed as u32,
        _ => 0,
    }
}

// Twenty turns: no sequence has more than 17 actions. What fails, the number, the result, the count, the actions.
// Not by `bus::run`: what is compared turn by turn would be fields of a `Bus`, and no shorter.
fn played(mut sequence: Kind, mut numbers: Numbers) -> bool {
    let failing = numbers.next();
    let number = numbers.next();
    let result = numbers.next();
    let count = numbers.next();
    let mut good = true;
    let mut turns = 0;
    let mut answer = Ok(None);
    for n in 1..21u32 {
        let Some(action) = sequence.action() else {
            break;
        };
        let told = [numbers.next(), numbers.next(), numbers.next()];
        let value = numbers.next();
        good = good && told == numbers_of(action);
        answer = sequence.reply(Reply {
            failed: n == failing,
            value,
        });
        turns = n;
    }
    good && refusal::number(&answer) == number && number_of(answer) == result && turns == count
}

pub fn started(mut numbers: Numbers) -> bool {
    let mode = numbers.next();
    let reference = binary32::of_bits(numbers.next());
    let multiplier = numbers.next();
    match startup::new(mode, reference, multiplier) {
        Ok(startup) => played(Kind::Startup(startup), numbers),
        Err(_) => false,
    }
}

// A setting of a register or its reading.
// A match and no closures: each arm is another function of the driver, picked once.
// Driver and mask stay two parameters, as driver's functions take them.
fn begun(
    driver: Driver,
    register: u32,
    setting: Option<f32>,
    mask: u32,
) -> Result<Transfer, Refusal> {
    match (register, setting) {
        (address::CFTW0, Some(x)) => channel::set_frequency(driver, mask, x),
        (address::CFTW0, None) => channel::get_frequency(driver, mask),
        (address::CPOW0, Some(x)) => channel::set_phase(driver, mask, x),
        (address::CPOW0, None) => channel::get_phase(driver, mask),
        (_, Some(x)) => channel::set_amplitude(driver, mask, x),
        (_, None) => channel::get_amplitude(driver, mask),
    }
}

// On a clock's ratio. A refusal has handed out nothing.
pub fn transferred(mut numbers: Numbers) -> bool {
    let mode = numbers.next();
    let reference = binary32::of_bits(numbers.next());
    let multiplier = numbers.next();
    let register = numbers.next();
    let is_set = numbers.next() != 0;
    let x = binary32::of_bits(numbers.next());
    let mask = numbers.next();
    let ratio = clock::of(reference, multiplier).map_or(0.0, |clock| clock.ratio);
    let driver = Driver { mode, ratio };
    match begun(driver, register, is_set.then_some(x), mask) {
        Ok(transfer) => played(Kind::Transfer(transfer), numbers),
        Err(refusal) => {
            let _failing = numbers.next();
            let number = numbers.next();
            let _result = numbers.next();
            let count = numbers.next();
            refusal.number() == number && count == 0
        }
    }
}

pub fn tested(numbers: Numbers) -> bool {
    played(Kind::SelfTest(self_test::new()), numbers)
}

pub fn read(mut numbers: Numbers) -> bool {
    let sequence = if numbers.next() == address::CSR {
        register::csr()
    } else {
        register::fr1()
    };
    played(Kind::Register(sequence), numbers)
}
