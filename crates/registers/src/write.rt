// A register write.

/// A value for the register at an address: any two numbers, judged where they become bytes.
#[derive(Clone, Copy, Debug, PartialEq, Eq)]
pub struct Write {
    pub address: u32,
    pub value: u32,
}
