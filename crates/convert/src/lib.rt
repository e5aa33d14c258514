// From floats to register words and back: clock, frequency, phase, amplitude.
// Functions and no `From`: words and values are plain u32 and f32, and what one means depends on the register.
#![tactic(auto, using(crate::proofs::Literals::literals))]

pub mod amplitude;
pub mod clock;
pub mod frequency;
pub mod phase;

// A register's word and the value that it achieves.
#[derive(Clone, Copy)]
pub struct Setting {
    pub word: u32,
    pub achieved: f32,
}

// The driver's record.
#[derive(Clone, Copy)]
pub struct Driver {
    pub mode: u32,
    pub ratio: f32,
}
