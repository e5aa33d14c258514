// The registers' addresses, under the Rust's names, and their widths. They are numbers and no enum: `width`, `largest` and `holds`, like the
// encoder and the bus, answer every u32, and an enum would ask more of who calls them.
ghost use Rattle.std.specs.Prelude.{◌≤◌, ◌≡◌};
ghost use Rattle.registers.specs.Registers.{width_of, largest_of, holds};

pub const CSR: u32 = 0x00;

pub const FR1: u32 = 0x01;

pub const FR2: u32 = 0x02;

pub const CFR: u32 = 0x03;

pub const CFTW0: u32 = 0x04;

pub const CPOW0: u32 = 0x05;

pub const ACR: u32 = 0x06;

pub const LSRR: u32 = 0x07;

pub const RDW: u32 = 0x08;

pub const FDW: u32 = 0x09;

pub const CW1: u32 = 0x0a;

pub const CW2: u32 = 0x0b;

pub const CW3: u32 = 0x0c;

pub const CW4: u32 = 0x0d;

pub const CW5: u32 = 0x0e;

pub const CW6: u32 = 0x0f;

pub const CW7: u32 = 0x10;

pub const CW8: u32 = 0x11;

pub const CW9: u32 = 0x12;

pub const CW10: u32 = 0x13;

pub const CW11: u32 = 0x14;

pub const CW12: u32 = 0x15;

pub const CW13: u32 = 0x16;

pub const CW14: u32 = 0x17;

pub const CW15: u32 = 0x18;

// In bytes, in address order.
const WIDTHS: [u8; 25] = [
    1, // CSR
    3, // FR1
    2, // FR2
    3, // CFR
    4, // CFTW0
    2, // CPOW0
    3, // ACR
    2, // LSRR
    4, // RDW
    4, // FDW
    4, // CW1
    4, // CW2
    4, // CW3
    4, // CW4
    4, // CW5
    4, // CW6
    4, // CW7
    4, // CW8
    4, // CW9
    4, // CW10
    4, // CW11
    4, // CW12
    4, // CW13
    4, // CW14
    4, // CW15
];

// How many bytes the register at an address has: none above 0x18. 0 and no `None`, since `width_of`, `largest` and `holds` go on with it.
#[tactic(auto, unfolding(crate::specs::Registers::width_of))]
pub fn width(address: u32) -> usize
    ensures { result ≡ width_of address }
{
    if CW15 < address {
        return 0;
    }
    WIDTHS[address as usize] as usize
}

// The largest value of the register at an address.
#[tactic(auto, using(crate::proofs::Widths::width_most, crate::proofs::Widths::bytes_bits))]
pub fn largest(address: u32) -> u32
    ensures { result ≡ largest_of address }
{
    let bits = (8 * width(address)) as u32;
    (crate::power(bits) - 1) as u32
}

// Whether a value is not too wide for the register at an address.
#[tactic(auto, using(crate::proofs::Widths::largest_holds))]
pub fn holds(address: u32, value: u32) -> bool
    ensures { result ≡ holds address value }
{
    value <= largest(address)
}
