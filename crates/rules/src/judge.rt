// When a step is refused, and what it needs where it is not.
// The limits are the rules' own numbers: CPOW0 has two bits more than a phase.
ghost use Rattle.std.specs.Prelude.{◌≡◌, ◌+◌, ◌*◌, OnOk, IfOk};
ghost use Rattle.registers.specs.Registers.{CFTW0};
ghost use Rattle.rules.specs.Rules.{word_of, push_judged, finalize_judged, padding, quarter, above};
ghost use Rattle.rules.specs.Judged.{Held, Fits, Pads};

use crate::Push;
use registers::refusal::Refusal;

// A tuning word as its register's word.
pub fn word(tuning: Option<i32>) -> Option<u32>
    ensures value { result ≡ word_of tuning }
    ensures held { Held CFTW0 result }
{
    tuning.map(crate::bits)
}

fn above(most: u32, value: Option<u32>) -> bool
    ensures { result ≡ above most value }
{
    value.is_some_and(|v| most < v)
}

// The length behind a push, or why it is refused. The tests of mode and mask stay a line each, as in `csr::of`: their order is read off them.
#[tactic(auto, using(crate::proofs::Lengths::held_below), unfolding(crate::specs::Rules::push_judged, registers::specs::Registers::width_of))]
pub fn push(mode: u32, length: usize, push: Push) -> Result<usize, Refusal>
    ensures judged { result ≡ push_judged mode length push }
    ensures fits { OnOk result (Fits mode length push) }
{
    if 3 < mode {
        return Err(Refusal::Mode);
    }
    if 15 < push.mask {
        return Err(Refusal::Mask);
    }
    if above(16383, push.phase) || above(16777215, push.acr) {
        return Err(Refusal::Word);
    }
    let size = push.size();
    if 32 - size < length || length + size == 31 {
        return Err(Refusal::Room);
    }
    Ok(length + size)
}

// How many words a profile takes once it is padded: none, one, one or two more by the length modulo 4.
pub fn quarter(length: usize) -> usize
    ensures value { result ≡ quarter length }
    ensures whole { result * 4 ≡ length + padding length }
{
    length / 4 + (length % 4 + 1) / 2
}

// How many words finalising hands out, or why it is refused. The test of a mode stays a line, as in `csr::of`.
#[tactic(auto, using(crate::proofs::Lengths::padding_fits), unfolding(crate::specs::Rules::finalize_judged))]
pub fn finalize(mode: u32, length: usize, words: usize) -> Result<usize, Refusal>
    ensures judged { result ≡ finalize_judged mode length words }
    ensures pads { IfOk result (Pads mode length words) }
{
    if 3 < mode {
        return Err(Refusal::Mode);
    }
    if 32 < length || length == 31 {
        return Err(Refusal::Room);
    }
    let count = quarter(length);
    if words < count {
        return Err(Refusal::Room);
    }
    Ok(count)
}
