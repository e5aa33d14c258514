// The AD9959's registers: addresses, widths, fields, and why a call is refused.
#![tactic(auto)]

ghost use Rattle.std.specs.Prelude.{◌^◌, ◌<◌, ◌≤◌, ◌≡◌};

pub mod address;
pub mod big_endian;
pub mod field;
pub mod refusal;
pub mod register;
pub mod write;

// 2^k.
fn power(k: u32) -> u64
    requires { k ≤ 32 }
    ensures value { result ≡ 2 ^ k }
    ensures positive { 0 < result }
    ensures within { result ≤ 2 ^ 32 }
{
    1u64 << k
}
