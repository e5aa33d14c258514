// A word as a number.
ghost use Rattle.std.specs.Prelude.{◌≡◌, ◌≤◌};
ghost use Rattle.notation.specs.Numbers.{magnitude_of, negative_of, number_of};

use crate::Reason;

// Digits alone, and at least one. The value is held past 32 bits: only that it is large matters then.
#[tactic(auto, using(crate::proofs::Scans::scan_next, crate::proofs::Scans::scan_stop, crate::proofs::Scans::scan_end), unfolding(crate::specs::Numbers::magnitude_of))]
fn magnitude(text: &[u8], base: u32) -> Result<u32, Reason>
    requires some { 2 ≤ base }
    requires base_in { base ≤ 16 }
    ensures { result ≡ magnitude_of base text.now }
{
    if text.is_empty() {
        return Err(Reason::Digits);
    }
    let mut value: u64 = 0;
    for &b in text {
        let digit = (b as char).to_digit(base).ok_or(Reason::Digits)?;
        value = value
            .saturating_mul(base as u64)
            .saturating_add(digit as u64);
    }
    u32::try_from(value).map_err(|_| Reason::Large)
}

// What a minus sign makes of the number behind it.
fn negative(n: u32, signed: bool) -> Result<u32, Reason>
    ensures { result ≡ negative_of signed n }
{
    if 2147483648 < n {
        return Err(Reason::Large);
    }
    if signed {
        Ok(n.wrapping_neg())
    } else {
        Err(Reason::Negative)
    }
}

// Decimal, hexadecimal behind 0x, or decimal behind a minus sign where one is allowed.
#[tactic(auto, unfolding(crate::specs::Numbers::number_of))]
pub fn read(text: &[u8], signed: bool) -> Result<u32, Reason>
    ensures { result ≡ number_of signed text.now }
{
    match text {
        [] => Err(Reason::Missing),
        [b'-', digits @ ..] => negative(magnitude(digits, 10)?, signed),
        [b'0', b'x' | b'X', digits @ ..] => magnitude(digits, 16),
        _ => magnitude(text, 10),
    }
}
