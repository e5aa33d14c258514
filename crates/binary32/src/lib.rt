// What Rust's casts do with an f32, worked out by the port itself, and its bit pattern.
// Functions and no `From`: between f32 and u32 there are several conversions, and both types are std's.
#![tactic(auto)]

ghost use Rattle.std.specs.Prelude.{◌≡◌, ◌-◌, ◌*◌, ◌/◌, ◌^◌, ◌≤◌, min, from_bits, to_bits};
ghost use Rattle.std.specs.Float.{binary32};
ghost use Rattle.std.specs.Float.Ieee.{to_unsigned};
ghost use Rattle.binary32.specs.Floats.{whole, within};

use std::num;

// q * 2^e / 2^158 cut toward zero, and the largest number where that is more: a halving for each step of the exponent.
#[tactic(auto, using(crate::proofs::Moves::large, crate::proofs::Moves::shifted, crate::proofs::Moves::turned))]
fn moved(q: u32, e: u32) -> u32
    requires { 2 ^ 31 ≤ q }
    ensures { result ≡ min (q * 2 ^ e / 2 ^ 158) (2 ^ 32 - 1) }
{
    if 158 < e {
        return 0xffff_ffff;
    }
    let mut r = q;
    for _ in e..158 {
        r /= 2;
    }
    r
}

// x cut toward zero into 32 bits: 0 for a NaN and below 1, and the largest number from 2^32 up.
// By `moved` and not by std's cast: a cut of our own is a rule of the project.
#[tactic(auto, using(crate::proofs::Ones::over_one, crate::proofs::Ones::under_one))]
pub fn cut(x: f32) -> u32
    ensures { result ≡ to_unsigned 32 x }
{
    if x >= 1.0 {
        let bits = x.to_bits();
        return moved((bits % 0x80_0000 + 0x80_0000) * 256, bits / 0x80_0000);
    }
    0
}

// The same into 16 bits.
#[tactic(auto, using(crate::proofs::Pattern::narrowed))]
pub fn cut16(x: f32) -> u32
    ensures { result ≡ to_unsigned 16 x }
{
    cut(x).min(0xffff)
}

// The float nearest to n: each half is a float exactly, so the sum alone rounds. By halves and not by std's conversion: a rounding of our own
// is a rule of the project.
pub fn nearest(n: u32) -> f32
    ensures { result ≡ whole n }
{
    ((n >> 16) as f32) * 65536.0 + ((n & 0xffff) as f32)
}

// Whether lo..=hi holds x: not where one is a NaN.
pub fn within(lo: f32, x: f32, hi: f32) -> bool
    ensures { result ≡ within lo x hi }
{
    lo <= x && x <= hi
}

// A float's bit pattern, by std: of a NaN the one with the sign clear and the highest digit set.
pub fn to_bits(x: f32) -> u32
    ensures { result ≡ to_bits binary32 x }
{
    num::f32_to_bits_with_nan(x)
}

// The float of a bit pattern, by std.
pub fn of_bits(pattern: u32) -> f32
    ensures { result ≡ from_bits binary32 pattern }
{
    num::f32_from_bits_with_nan(pattern)
}
