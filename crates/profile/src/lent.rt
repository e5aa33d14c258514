// The work, over a length and bytes that are lent, as C lends them: nothing is copied. Methods and functions by value are thin layers over it.
ghost use Rattle.std.specs.Prelude.{◌≡◌, length, OnOk, OnErr};
ghost use Rattle.rules.specs.Rules.{push_judged, finalize_judged};
ghost use Rattle.registers.specs.Refusals.{answer_of};
ghost use Rattle.profile.specs.Serializer.{pushed, padded, handed};
ghost use Rattle.profile.specs.Lent.{held};

use crate::{lay, words};
use registers::refusal::Refusal;
use rules::{Push, judge};

// Adds the writes that set a number of channels: CSR, then what is given.
#[inline(always)]
#[tactic(auto, using(crate::proofs::Sizes::length_push))]
pub fn push(mode: u32, len: &mut usize, bytes: &mut [u8; 32], push: Push) -> Result<(), Refusal>
    ensures judged { result ≡ answer_of (push_judged mode len.old push) }
    ensures pushed { OnOk result (held mode len.new bytes.new ≡ pushed (held mode len.old bytes.old) push) }
    ensures kept { OnErr result (held mode len.new bytes.new ≡ held mode len.old bytes.old) }
{
    judge::push(mode, *len, push)?;
    *len = lay::push(bytes, *len, mode, push);
    Ok(())
}

// Pads the profile and hands it out as words: how many.
#[inline(always)]
#[tactic(auto, using(crate::proofs::Sizes::length_padding))]
pub fn finalize(
    mode: u32,
    len: &mut usize,
    bytes: &mut [u8; 32],
    words: &mut [u32],
) -> Result<usize, Refusal>
    ensures judged { result ≡ finalize_judged mode len.old (length words.old) }
    ensures padded { OnOk result (held mode len.new bytes.new ≡ padded (held mode len.old bytes.old)) }
    ensures handed { OnOk result (words.new ≡ handed (held mode len.old bytes.old) words.old) }
    ensures kept { OnErr result (held mode len.new bytes.new ≡ held mode len.old bytes.old) }
    ensures untouched { OnErr result (words.new ≡ words.old) }
{
    let count = judge::finalize(mode, *len, words.len())?;
    *len = lay::pad(bytes, *len, mode);
    words::copy(bytes, count, words);
    Ok(count)
}
