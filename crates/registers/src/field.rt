// A field of a word, by position and width.
ghost use Rattle.std.specs.Prelude.{◌+◌, ◌^◌, ◌<◌, ◌≤◌, ◌≡◌, true};
ghost use Rattle.registers.specs.Fields.{field_of, with_field, fits_field, set_of, lies_in, get_in, set_in, raw_in};

use crate::address;
use crate::refusal::Refusal;

#[derive(Clone, Copy, Debug, PartialEq, Eq)]
pub struct Field {
    pub position: u32,
    pub width: u32,
}

/// The field of bits low to high, as the data sheet writes it.
#[macro_export]
macro_rules! bits {
    ($low:expr, $high:expr) => {
        $crate::field::Field {
            position: $low,
            width: $high + 1 - $low,
        }
    };
}

impl Field {
    // What stands in the field of a word.
    #[tactic(auto, using(crate::proofs::Fields::get_past, crate::proofs::Fields::get_wide), unfolding(crate::specs::Fields::field_of))]
    pub fn get(self, word: u32) -> u32
        ensures { result ≡ field_of word self }
    {
        if 32 <= self.position {
            return 0;
        }
        let rest = (word as u64) / crate::power(self.position);
        if 32 <= self.width {
            return rest as u32;
        }
        (rest % crate::power(self.width)) as u32
    }

    // Whether the field lies within the register at an address: no field but an empty one lies above 0x18.
    #[tactic(auto, using(crate::proofs::Widths::width_most))]
    pub fn lies_in(self, address: u32) -> bool
        ensures { result ≡ lies_in address self }
    {
        let bits = 8 * address::width(address) as u32;
        self.position <= bits && self.width <= bits - self.position
    }

    // Whether the field lies within 32 bits and the value is not too wide for it.
    fn takes(self, value: u32) -> bool
        ensures tests { result ≡ fits_field self value }
        ensures narrow { result ≡ true → value < 2 ^ self.width }
        ensures within { result ≡ true → self.position + self.width ≤ 32 }
    {
        if 32 < self.position {
            return false;
        }
        if 32 - self.position < self.width {
            return false;
        }
        (value as u64) < crate::power(self.width)
    }

    #[tactic(auto, using(crate::proofs::Fields::tail_lt, crate::proofs::Fields::set_lt), unfolding(crate::specs::Fields::with_field))]
    fn placed(self, word: u32, value: u32) -> u32
        requires narrow { value < 2 ^ self.width }
        requires within { self.position + self.width ≤ 32 }
        ensures { result ≡ with_field word self value }
    {
        let w = word as u64;
        let low = crate::power(self.position);
        let above = crate::power(self.position + self.width);
        (w / above * above + (value as u64) * low + w % low) as u32
    }

    // The word with a value in the field and every other bit as it was.
    pub fn set(self, word: u32, value: u32) -> Result<u32, Refusal>
        ensures { result ≡ set_of word self value }
    {
        if !self.takes(value) {
            return Err(Refusal::Word);
        }
        Ok(self.placed(word, value))
    }
}

// The three below take any address and any raw value, as `raw_in`, `get_in` and `set_in` of the definitions do; `Register` is of one address.

// A register's raw value, where it is not too wide.
pub fn raw_in(address: u32, raw: u32) -> Result<u32, Refusal>
    ensures { result ≡ raw_in address raw }
{
    if !address::holds(address, raw) {
        return Err(Refusal::Word);
    }
    Ok(raw)
}

// A field of a register's raw value.
pub fn get_in(address: u32, raw: u32, field: Field) -> Result<u32, Refusal>
    ensures { result ≡ get_in address raw field }
{
    let raw = raw_in(address, raw)?;
    Ok(field.get(raw))
}

// A register's raw value with a value in a field.
pub fn set_in(address: u32, raw: u32, field: Field, value: u32) -> Result<u32, Refusal>
    ensures { result ≡ set_in address raw field value }
{
    let raw = raw_in(address, raw)?;
    field.set(raw, value)
}
