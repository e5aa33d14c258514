// Frequency: CFTW0, the tuning word.
ghost use Rattle.std.specs.Prelude.{◌≡◌};
ghost use Rattle.convert.specs.Frequency.{ready, outside, meaning, word_of, setting_of, reading_of};

use crate::{Driver, Setting};
use registers::refusal::Refusal;

// Whether frequencies can be set and read on a ratio.
pub fn ready(ratio: f32) -> bool
    ensures { result ≡ ready ratio }
{
    binary32::within(8.0, ratio, 4295.0)
}

// Below 0 or above the limit: a NaN is neither.
fn outside(limit: f32, frequency: f32) -> bool
    ensures { result ≡ outside limit frequency }
{
    frequency < 0.0 || limit < frequency
}

// What a tuning word means on a ratio, in Hz. Ratio and word stay two parameters: `frequency::meaning` may not change.
pub fn meaning(ratio: f32, word: u32) -> f32
    ensures { result ≡ meaning ratio word }
{
    binary32::nearest(word) / ratio
}

// The tuning word of a frequency in Hz, and the frequency that it achieves.
pub fn set(driver: Driver, frequency: f32) -> Result<Setting, Refusal>
    ensures { result ≡ setting_of driver.ratio frequency }
{
    if !ready(driver.ratio) {
        return Err(Refusal::NotReady);
    }
    if outside(4294967296.0 / driver.ratio, frequency) {
        return Err(Refusal::Bounds);
    }
    let word = binary32::cut(frequency * driver.ratio);
    Ok(Setting {
        word,
        achieved: meaning(driver.ratio, word),
    })
}

// The frequency of a CFTW0 that was read.
pub fn read(driver: Driver, word: u32) -> Result<f32, Refusal>
    ensures { result ≡ reading_of driver.ratio word }
{
    if ready(driver.ratio) {
        Ok(meaning(driver.ratio, word))
    } else {
        Err(Refusal::NotReady)
    }
}
