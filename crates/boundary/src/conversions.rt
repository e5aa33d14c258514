// From floats to register words and back. As C has it: a number for a refusal, and a place for each value.
ghost use Rattle.std.specs.Prelude.{◌≡◌};
ghost use Rattle.std.specs.Result.{result_unwrap_or};
ghost use Rattle.registers.specs.Refusals.{number_of};
ghost use Rattle.binary32.specs.Floats.{whole};
ghost use Rattle.convert.specs.Clock.{clock_of};
ghost use Rattle.convert.specs.Frequency as Frequency;
ghost use Rattle.convert.specs.Phase as Phase;
ghost use Rattle.convert.specs.Amplitude as Amplitude;
ghost use Rattle.boundary.specs.Boundary.{no_clock, no_setting};

use crate::{give, given};
use convert::clock::Clock;
use convert::{Driver, Setting, amplitude, clock, frequency, phase};

const NO_SETTING: Setting = Setting {
    word: 0,
    achieved: 0.0,
};

const NO_CLOCK: Clock = Clock {
    system: 0.0,
    vco: 0,
    ratio: 0.0,
};

pub fn ad9959_clock(
    reference: f32,
    multiplier: u32,
    system: &mut f32,
    vco: &mut u32,
    ratio: &mut f32,
) -> u32
    ensures number { result ≡ number_of (clock_of reference multiplier) }
    ensures clock { record { system = system.new; vco = vco.new; ratio = ratio.new } ≡ result_unwrap_or (clock_of reference multiplier) no_clock }
{
    let (number, clock) = given(clock::of(reference, multiplier), NO_CLOCK);
    *system = clock.system;
    *vco = clock.vco;
    *ratio = clock.ratio;
    number
}

// The tuning word of a frequency in Hz on a ratio, and the frequency that it achieves.
pub fn ad9959_frequency(ratio: f32, frequency: f32, word: &mut u32, achieved: &mut f32) -> u32
    ensures number { result ≡ number_of (Frequency.setting_of ratio frequency) }
    ensures setting { record { word = word.new; achieved = achieved.new } ≡ result_unwrap_or (Frequency.setting_of ratio frequency) no_setting }
{
    let (number, setting) = given(
        frequency::set(Driver { mode: 0, ratio }, frequency),
        NO_SETTING,
    );
    *word = setting.word;
    *achieved = setting.achieved;
    number
}

pub fn ad9959_phase(phase: f32, word: &mut u32, achieved: &mut f32) -> u32
    ensures number { result ≡ 0 }
    ensures setting { record { word = word.new; achieved = achieved.new } ≡ Phase.setting_of phase }
{
    let setting = phase::set(phase);
    *word = setting.word;
    *achieved = setting.achieved;
    0
}

pub fn ad9959_amplitude(amplitude: f32, acr: &mut u32, achieved: &mut f32) -> u32
    ensures number { result ≡ number_of (Amplitude.setting_of amplitude) }
    ensures setting { record { word = acr.new; achieved = achieved.new } ≡ result_unwrap_or (Amplitude.setting_of amplitude) no_setting }
{
    let (number, setting) = given(amplitude::set(amplitude), NO_SETTING);
    *acr = setting.word;
    *achieved = setting.achieved;
    number
}

pub fn ad9959_read_frequency(ratio: f32, word: u32, value: &mut f32) -> u32
    ensures number { result ≡ number_of (Frequency.reading_of ratio word) }
    ensures value { value.new ≡ result_unwrap_or (Frequency.reading_of ratio word) (whole 0) }
{
    give(frequency::read(Driver { mode: 0, ratio }, word), 0.0, value)
}

pub fn ad9959_read_phase(word: u32, value: &mut f32) -> u32
    ensures number { result ≡ number_of (Phase.reading_of word) }
    ensures value { value.new ≡ result_unwrap_or (Phase.reading_of word) (whole 0) }
{
    give(phase::read(word), 0.0, value)
}

pub fn ad9959_read_amplitude(acr: u32, value: &mut f32) -> u32
    ensures number { result ≡ number_of (Amplitude.reading_of acr) }
    ensures value { value.new ≡ result_unwrap_or (Amplitude.reading_of acr) (whole 0) }
{
    give(amplitude::read(acr), 0.0, value)
}
