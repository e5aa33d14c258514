// Writes laid behind the profile's bytes: bytes and place stay apart, as `lent` has them from C.
ghost use Rattle.std.specs.Prelude.{◌≡◌, ◌+◌, ◌<◌, ◌≤◌, length};
ghost use Rattle.stream.specs.Streams.{encode};
ghost use Rattle.rules.specs.Rules.{push_size, padding, given, push_writes, padding_writes};
ghost use Rattle.profile.specs.Lent.{Puts};
ghost use Rattle.rules.specs.Judged.{Held, Fits, lsrr_by, csr_by};

use registers::address;
use registers::write::Write;
use rules::{Push, judge};

// A value's write, if it is given: the place behind it.
#[tactic(auto, using(stream::proofs::Streams::length_write, stream::proofs::Rest::fault_clear, stream::proofs::Lays::lays_good, crate::proofs::Sizes::encode_given, crate::proofs::Sizes::length_given, crate::proofs::Puts::puts_none))]
fn given(bytes: &mut [u8], at: usize, address: u32, value: Option<u32>) -> usize
    requires { (address < 25) × Held address value × (at + length (encode (given address value)) ≤ length bytes.old) }
    ensures { Puts bytes.old at (encode (given address value)) result bytes.new }
{
    match value {
        Some(value) => stream::lay(bytes, at, Write { address, value }).unwrap(),
        None => at,
    }
}

// A push's writes, CSR's laid last: a value's bytes that are stored before what stands in front of them become one wide store.
#[tactic(auto, using(stream::proofs::Streams::length_write, stream::proofs::Rest::fault_clear, stream::proofs::Lays::lays_good, crate::proofs::Sizes::length_given, crate::proofs::Sizes::encode_push, crate::proofs::Puts::puts_then, crate::proofs::Puts::puts_ahead), unfolding(registers::specs::Registers::width_of))]
pub(crate) fn push(bytes: &mut [u8], at: usize, mode: u32, push: Push) -> usize
    requires fits { Fits mode at push }
    requires room { at + push_size push ≤ length bytes.old }
    ensures { Puts bytes.old at (encode (push_writes mode push)) result bytes.new }
{
    let word = judge::word(push.word);
    let b = given(bytes, at + 2, address::CFTW0, word);
    let c = given(bytes, b, address::CPOW0, push.phase);
    let d = given(bytes, c, address::ACR, push.acr);
    // CSR's byte is worked out here: `csr::of` would judge mode and mask once more.
    let csr = Write {
        address: address::CSR,
        value: push.mask * 16 + mode * 2,
    };
    stream::lay(bytes, at, csr).unwrap();
    d
}

// LSRR zero at 1 and 3.
fn lsrr(r: usize) -> Option<u32>
    requires { r < 4 }
    ensures { result ≡ lsrr_by r }
{
    (r % 2 == 1).then_some(0)
}

// CSR with channels 15 at 2 and 3.
fn csr(r: usize, mode: u32) -> Option<u32>
    requires { mode ≤ 3 }
    ensures { result ≡ csr_by mode r }
{
    (2 <= r).then_some(240 + mode * 2)
}

// The padding behind the bytes.
pub(crate) fn pad(bytes: &mut [u8], at: usize, mode: u32) -> usize
    requires { (mode ≤ 3) × (at + padding at ≤ length bytes.old) }
    ensures { Puts bytes.old at (encode (padding_writes mode at)) result bytes.new }
{
    let r = at % 4;
    let zero = lsrr(r);
    let all = csr(r, mode);
    let b = given(bytes, at, address::LSRR, zero);
    given(bytes, b, address::CSR, all)
}
