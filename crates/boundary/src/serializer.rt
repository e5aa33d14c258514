// A profile: its length and its 32 bytes are the caller's. As C has it: numbers for refusals and presence, the fields apart, a place for the count.
ghost use Rattle.std.specs.Prelude.{◌≡◌, ◌≢◌, length};
ghost use Rattle.std.specs.Result.{result_unwrap_or};
ghost use Rattle.registers.specs.Refusals.{number_of};
ghost use Rattle.rules.specs.Rules.{finalize_judged};
ghost use Rattle.profile.specs.Serializer.{push_of, finalized_of, handed};
ghost use Rattle.profile.specs.Lent.{held};
ghost use Rattle.boundary.specs.Boundary.{push_at};

use crate::give;
use profile::lent;
use registers::refusal;
use rules::Push;

// The fields stay apart, so that each of the nine arms below is a line.
#[inline(always)]
#[tactic(auto, unfolding(profile::specs::Serializer::push_of))]
fn push(
    mode: u32,
    len: &mut usize,
    bytes: &mut [u8; 32],
    mask: u32,
    word: Option<i32>,
    phase: Option<u32>,
    acr: Option<u32>,
) -> u32
    ensures number { result ≡ number_of (push_of (held mode len.old bytes.old) (record { mask = mask; word = word; phase = phase; acr = acr })).answer }
    ensures profile { held mode len.new bytes.new ≡ (push_of (held mode len.old bytes.old) (record { mask = mask; word = word; phase = phase; acr = acr })).serializer }
{
    let push = Push {
        mask,
        word,
        phase,
        acr,
    };
    refusal::number(&lent::push(mode, len, bytes, push))
}

// Bits 0, 1, 2 of presence say whether word, phase and ACR are given; a presence above 7 is Word, as a phase too wide is.
// Nine arms and not `then_some` for each field: so each is laid by straight-line code, in half the instructions.
pub fn ad9959_push(
    mode: u32,
    len: &mut usize,
    bytes: &mut [u8; 32],
    mask: u32,
    presence: u32,
    word: i32,
    phase: u32,
    acr: u32,
) -> u32
    ensures number { result ≡ number_of (push_of (held mode len.old bytes.old) (push_at mask presence word phase acr)).answer }
    ensures profile { held mode len.new bytes.new ≡ (push_of (held mode len.old bytes.old) (push_at mask presence word phase acr)).serializer }
{
    let w = Some(word);
    let p = Some(phase);
    let a = Some(acr);
    match presence {
        7 => push(mode, len, bytes, mask, w, p, a),
        0 => push(mode, len, bytes, mask, None, None, None),
        1 => push(mode, len, bytes, mask, w, None, None),
        2 => push(mode, len, bytes, mask, None, p, None),
        3 => push(mode, len, bytes, mask, w, p, None),
        4 => push(mode, len, bytes, mask, None, None, a),
        5 => push(mode, len, bytes, mask, w, None, a),
        6 => push(mode, len, bytes, mask, None, p, a),
        _ => push(mode, len, bytes, mask, None, Some(u32::MAX), None),
    }
}

#[tactic(auto, unfolding(profile::specs::Serializer::finalized_of))]
pub fn ad9959_finalize(
    mode: u32,
    len: &mut usize,
    bytes: &mut [u8; 32],
    words: &mut [u32],
    count: &mut usize,
) -> u32
    ensures number { result ≡ number_of (finalize_judged mode len.old (length words.old)) }
    ensures count { count.new ≡ result_unwrap_or (finalize_judged mode len.old (length words.old)) 0 }
    ensures profile { held mode len.new bytes.new ≡ finalized_of (held mode len.old bytes.old) (length words.old) }
    ensures handed { result ≡ 0 → words.new ≡ handed (held mode len.old bytes.old) words.old }
    ensures untouched { result ≢ 0 → words.new ≡ words.old }
{
    give(lent::finalize(mode, len, bytes, words), 0, count)
}
