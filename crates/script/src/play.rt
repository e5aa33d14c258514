// A script that is lent as a slice, played on a new serializer and fed to an image.
ghost use Rattle.std.specs.Prelude.{◌≡◌, take, OnOk, OnErr};
ghost use Rattle.script.specs.Meaning.{meaning};
ghost use Rattle.script.specs.Runs.{run};
ghost use Rattle.script.specs.Play.{play_judged};

use crate::Step;
use profile::ProfileSerializer;
use registers::refusal::Refusal;

// The serializer that the steps reach.
fn run(mut serializer: ProfileSerializer, steps: &[Step]) -> ProfileSerializer
    ensures { result ≡ run serializer steps.now }
{
    for &step in steps {
        serializer = crate::step_by(serializer, step).serializer;
    }
    serializer
}

/// Plays so many steps on a new serializer and feeds its bytes to an image.
// The count stays beside the slice: that a list shorter than it is refused is promised.
pub fn play(mode: u32, count: usize, steps: &[Step], image: &mut [u32]) -> Result<(), Refusal>
    ensures judged { result ≡ play_judged mode count steps.now image.old }
    ensures played { OnOk result (image.new ≡ meaning mode (take count steps.now) image.old) }
    ensures kept { OnErr result (image.new ≡ image.old) }
{
    let fresh = ProfileSerializer::new(mode)?;
    if steps.len() < count || image.len() < image::WORDS {
        return Err(Refusal::Room);
    }
    profile::feed(run(fresh, &steps[..count]), image)
}
