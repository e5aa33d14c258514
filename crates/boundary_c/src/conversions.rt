// From floats to register words and back. As C has it, and as in `boundary`: a number for a refusal, and a place for each value.
ghost use Rattle.std.specs.Prelude.{◌≡◌};
ghost use Rattle.std.specs.Result.{result_unwrap_or};
ghost use Rattle.registers.specs.Refusals.{number_of};
ghost use Rattle.binary32.specs.Floats.{whole};
ghost use Rattle.convert.specs.Clock.{clock_of};
ghost use Rattle.convert.specs.Frequency as Frequency;
ghost use Rattle.convert.specs.Phase as Phase;
ghost use Rattle.convert.specs.Amplitude as Amplitude;
ghost use Rattle.boundary.specs.Boundary.{no_clock, no_setting};

use boundary::conversions;

#[unsafe(no_mangle)]
pub extern "C" fn ad9959_clock(
    reference: f32,
    multiplier: u32,
    system: &mut f32,
    vco: &mut u32,
    ratio: &mut f32,
) -> u32
    ensures number { result ≡ number_of (clock_of reference multiplier) }
    ensures clock { record { system = system.new; vco = vco.new; ratio = ratio.new } ≡ result_unwrap_or (clock_of reference multiplier) no_clock }
{
    conversions::ad9959_clock(reference, multiplier, system, vco, ratio)
}

#[unsafe(no_mangle)]
pub extern "C" fn ad9959_frequency(
    ratio: f32,
    frequency: f32,
    word: &mut u32,
    achieved: &mut f32,
) -> u32
    ensures number { result ≡ number_of (Frequency.setting_of ratio frequency) }
    ensures setting { record { word = word.new; achieved = achieved.new } ≡ result_unwrap_or (Frequency.setting_of ratio frequency) no_setting }
{
    conversions::ad9959_frequency(ratio, frequency, word, achieved)
}

#[unsafe(no_mangle)]
pub extern "C" fn ad9959_phase(phase: f32, word: &mut u32, achieved: &mut f32) -> u32
    ensures number { result ≡ 0 }
    ensures setting { record { word = word.new; achieved = achieved.new } ≡ Phase.setting_of phase }
{
    conversions::ad9959_phase(phase, word, achieved)
}

#[unsafe(no_mangle)]
pub extern "C" fn ad9959_amplitude(amplitude: f32, acr: &mut u32, achieved: &mut f32) -> u32
    ensures number { result ≡ number_of (Amplitude.setting_of amplitude) }
    ensures setting { record { word = acr.new; achieved = achieved.new } ≡ result_unwrap_or (Amplitude.setting_of amplitude) no_setting }
{
    conversions::ad9959_amplitude(amplitude, acr, achieved)
}

#[unsafe(no_mangle)]
pub extern "C" fn ad9959_read_frequency(ratio: f32, word: u32, value: &mut f32) -> u32
    ensures number { result ≡ number_of (Frequency.reading_of ratio word) }
    ensures value { value.new ≡ result_unwrap_or (Frequency.reading_of ratio word) (whole 0) }
{
    conversions::ad9959_read_frequency(ratio, word, value)
}

#[unsafe(no_mangle)]
pub extern "C" fn ad9959_read_phase(word: u32, value: &mut f32) -> u32
    ensures number { result ≡ number_of (Phase.reading_of word) }
    ensures value { value.new ≡ result_unwrap_or (Phase.reading_of word) (whole 0) }
{
    conversions::ad9959_read_phase(word, value)
}

#[unsafe(no_mangle)]
pub extern "C" fn ad9959_read_amplitude(acr: u32, value: &mut f32) -> u32
    ensures number { result ≡ number_of (Amplitude.reading_of acr) }
    ensures value { value.new ≡ result_unwrap_or (Amplitude.reading_of acr) (whole 0) }
{
    conversions::ad9959_read_amplitude(acr, value)
}
