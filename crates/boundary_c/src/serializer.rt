// A profile: its length and its 32 bytes are the caller's. As C has it, and as in `boundary`: numbers for refusals and presence, the fields apart, a place for the count.
ghost use Rattle.std.specs.Prelude.{◌≡◌, ◌≢◌, length};
ghost use Rattle.std.specs.Result.{result_unwrap_or};
ghost use Rattle.registers.specs.Refusals.{number_of};
ghost use Rattle.rules.specs.Rules.{finalize_judged};
ghost use Rattle.profile.specs.Serializer.{push_of, finalized_of, handed};
ghost use Rattle.profile.specs.Lent.{held};
ghost use Rattle.boundary.specs.Boundary.{push_at};

use boundary::serializer;

#[unsafe(no_mangle)]
pub extern "C" fn ad9959_push(
    mode: u32,
    len: &mut usize,
    bytes: &mut [u8; 32],
    mask: u32,
    presence: u32,
    word: i32,
    phase: u32,
    acr: u32,
) -> u32
    ensures number { result ≡ number_of (push_of (held mode len.old bytes.old) (push_at mask presence word phase acr)).answer }
    ensures profile { held mode len.new bytes.new ≡ (push_of (held mode len.old bytes.old) (push_at mask presence word phase acr)).serializer }
{
    serializer::ad9959_push(mode, len, bytes, mask, presence, word, phase, acr)
}

#[unsafe(no_mangle)]
pub extern "C" fn ad9959_finalize(
    mode: u32,
    len: &mut usize,
    bytes: &mut [u8; 32],
    words: &mut [u32],
    count: &mut usize,
) -> u32
    ensures number { result ≡ number_of (finalize_judged mode len.old (length words.old)) }
    ensures count { count.new ≡ result_unwrap_or (finalize_judged mode len.old (length words.old)) 0 }
    ensures profile { held mode len.new bytes.new ≡ finalized_of (held mode len.old bytes.old) (length words.old) }
    ensures handed { result ≡ 0 → words.new ≡ handed (held mode len.old bytes.old) words.old }
    ensures untouched { result ≢ 0 → words.new ≡ words.old }
{
    serializer::ad9959_finalize(mode, len, bytes, words, count)
}
