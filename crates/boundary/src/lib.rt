// What C is offered: numbers and byte slices. Each function refuses bad input by its number, and asks nothing of its caller.
// The C interface keeps numbers for refusals and for presence, places for what comes back, counts beside buffers and two lists for a stream's writes.
#![tactic(auto, using(convert::proofs::Literals::none))]

ghost use Rattle.std.specs.Prelude.{◌≡◌};
ghost use Rattle.std.specs.Result.{result_unwrap_or};
ghost use Rattle.registers.specs.Refusals.{number_of};

use registers::refusal;
use registers::refusal::Refusal;

pub mod conversions;
pub mod serializer;
pub mod streams;

// An answer as C gets it: its number, and beside a refusal zeros.
#[inline(always)]
fn given<T: Copy>(answer: Result<T, Refusal>, zeros: T) -> (u32, T)
    ensures number { result.0 ≡ number_of answer }
    ensures value { result.1 ≡ result_unwrap_or answer zeros }
{
    (refusal::number(&answer), answer.unwrap_or(zeros))
}

// The same with the value in its place.
#[inline(always)]
fn give<T: Copy>(answer: Result<T, Refusal>, zeros: T, place: &mut T) -> u32
    ensures number { result ≡ number_of answer }
    ensures value { place.new ≡ result_unwrap_or answer zeros }
{
    let (number, value) = given(answer, zeros);
    *place = value;
    number
}
