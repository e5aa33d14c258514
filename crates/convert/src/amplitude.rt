// Amplitude: ACR, relative to full scale.
ghost use Rattle.std.specs.Prelude.{◌≡◌};
ghost use Rattle.convert.specs.Amplitude.{asf_of, meaning, setting_of, reading_of};

use crate::Setting;
use bitfields::acr;
use registers::refusal::Refusal;
use registers::{address, field};

// The amplitude scale factor of an amplitude.
pub fn scale(amplitude: f32) -> u32
    ensures { result ≡ asf_of amplitude }
{
    binary32::cut(amplitude * 1024.0)
}

// What an ACR means: full amplitude where the multiplier is off.
#[tactic(auto, using(crate::proofs::Literals::one, crate::proofs::Literals::full), unfolding(crate::specs::Amplitude::meaning))]
pub fn meaning(acr: u32) -> f32
    ensures { result ≡ meaning acr }
{
    if acr::MULTIPLIER.get(acr) == 0 {
        return 1.0;
    }
    binary32::nearest(acr::ASF.get(acr)) / 1024.0
}

// The ACR of an amplitude, and the amplitude that it achieves.
#[tactic(auto, using(crate::proofs::Literals::literals, crate::proofs::Achieved::word_given, crate::proofs::Achieved::word_meaning))]
pub fn set(amplitude: f32) -> Result<Setting, Refusal>
    ensures { result ≡ setting_of amplitude }
{
    if !binary32::within(0.0, amplitude, 1.0) {
        return Err(Refusal::Bounds);
    }
    let word = acr::of(scale(amplitude))?;
    Ok(Setting {
        word,
        achieved: meaning(word),
    })
}

// The amplitude of an ACR that was read: beside `phase::read`, whose line says why there are two.
pub fn read(acr: u32) -> Result<f32, Refusal>
    ensures { result ≡ reading_of acr }
{
    Ok(meaning(field::raw_in(address::ACR, acr)?))
}
