// Phase: CPOW0, in turns.
ghost use Rattle.std.specs.Prelude.{◌≡◌};
ghost use Rattle.convert.specs.Phase.{meaning, setting_of, reading_of};

use crate::Setting;
use registers::refusal::Refusal;
use registers::{address, field};

// What a CPOW0 means, in turns.
pub fn meaning(word: u32) -> f32
    ensures { result ≡ meaning word }
{
    binary32::nearest(word % 16384) / 16384.0
}

// The phase word of a phase in turns, and the phase that it achieves.
pub fn set(phase: f32) -> Setting
    ensures { result ≡ setting_of phase }
{
    let word = binary32::cut16(phase * 16384.0) % 16384;
    Setting {
        word,
        achieved: meaning(word),
    }
}

// The phase of a CPOW0 that was read. It differs from an amplitude's `read` in its register and its meaning, that is in all it says.
pub fn read(word: u32) -> Result<f32, Refusal>
    ensures { result ≡ reading_of word }
{
    Ok(meaning(field::raw_in(address::CPOW0, word)?))
}
