// The system clock. Reference and multiplier stay two parameters: `clock::of` may not change, and a type for the two would serve it alone.
ghost use Rattle.std.specs.Prelude.{◌≡◌};
ghost use Rattle.convert.specs.Clock.{system_of, allowed, vco_high_of, clock_of};

use registers::refusal::Refusal;

// A system clock, FR1's vco_high for it as the field's value, and the driver's ratio.
// vco_high is a number, as `fr1::with_clock` takes it and C gets it.
#[derive(Clone, Copy)]
pub struct Clock {
    pub system: f32,
    pub vco: u32,
    pub ratio: f32,
}

// Multiplier times reference: a multiplier that is allowed is a float exactly.
fn system(reference: f32, multiplier: u32) -> f32
    ensures { result ≡ system_of reference multiplier }
{
    binary32::nearest(multiplier) * reference
}

// The range rule of each multiplier.
fn allowed(reference: f32, multiplier: u32) -> bool
    ensures { result ≡ allowed reference multiplier }
{
    match multiplier {
        1 => binary32::within(1e6, reference, 500e6),
        4..=20 => {
            binary32::within(10e6, reference, 125e6)
                && binary32::within(100e6, system(reference, multiplier), 500e6)
        }
        _ => false,
    }
}

fn vco_high(system: f32) -> u32
    ensures { result ≡ vco_high_of system }
{
    u32::from(system >= 200e6)
}

// The clock of a reference and a multiplier.
pub fn of(reference: f32, multiplier: u32) -> Result<Clock, Refusal>
    ensures { result ≡ clock_of reference multiplier }
{
    if !allowed(reference, multiplier) {
        return Err(Refusal::Bounds);
    }
    let system = system(reference, multiplier);
    Ok(Clock {
        system,
        vco: vco_high(system),
        ratio: 4294967296.0 / system,
    })
}
