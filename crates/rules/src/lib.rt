// The rules of a step: how long it is, and when it is refused.
#![tactic(auto)]

ghost use Rattle.std.specs.Prelude.{◌≡◌, ◌≤◌};
ghost use Rattle.rules.specs.Rules.{bits_of, signed_of, push_size};

pub mod judge;

/// What is set on the channels of a mask: a field that is not given stays as it is on the chip.
#[derive(Clone, Copy, Debug, PartialEq, Eq)]
pub struct Push {
    pub mask: u32,
    pub word: Option<i32>,
    pub phase: Option<u32>,
    pub acr: Option<u32>,
}

impl Push {
    // How many bytes it takes: CSR's two, and those of each field that is given.
    pub fn size(self) -> usize
        ensures value { result ≡ push_size self }
        ensures within { result ≤ 14 }
    {
        let mut size = 2;
        if self.word.is_some() {
            size += 5;
        }
        if self.phase.is_some() {
            size += 3;
        }
        if self.acr.is_some() {
            size += 4;
        }
        size
    }
}

// A tuning word's bits, in two's complement. `bits` and `signed` are std's casts under the names that programs and promises know.
pub fn bits(z: i32) -> u32
    ensures { result ≡ bits_of z }
{
    z.cast_unsigned()
}

// The tuning word that some bits are.
pub fn signed(bits: u32) -> i32
    ensures { result ≡ signed_of bits }
{
    bits.cast_signed()
}
