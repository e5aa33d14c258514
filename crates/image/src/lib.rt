// The chip's registers as 91 words, and a stream fed to them.
#![tactic(auto)]

ghost use Rattle.std.specs.Prelude.{◌≡◌, ◌<◌, ◌≤◌, length, OnErr};
ghost use Rattle.stream.specs.Decoder.{writes_of};
ghost use Rattle.image.specs.Image.{give, write, apply};
ghost use Rattle.image.specs.Feed.{feed_judged, feed_of};

use registers::address;
use registers::refusal::Refusal;
use registers::write::Write;
use stream::Writes;

// The image's words. An image is any slice of so many or more: C hands one in, and `past_stays` speaks of longer ones.
pub const WORDS: usize = 91;

// Register a of each channel that the mask selects is set to a value.
// By the channel's number: it is the mask's bit, and the image's stride goes by it.
fn give(image: &mut [u32], mask: u32, a: usize, value: u32)
    requires long { 91 ≤ length image.old }
    requires named { a < 25 }
    ensures { image.new ≡ give mask a value image.old }
{
    for channel in 0..4 {
        if (mask >> channel) % 2 == 1 {
            image[22 * channel + a] = value;
        }
    }
}

fn write(image: &mut [u32], next: Write)
    requires long { 91 ≤ length image.old }
    requires named { next.address < 25 }
    ensures { image.new ≡ write next image.old }
{
    let at = next.address as usize;
    if next.address < address::CFR {
        image[at] = next.value;
    } else {
        let csr = image[0];
        give(image, csr / 16, at, next.value);
    }
}

// Plays a stream's writes. Bytes and image are the caller's, and lent apart.
#[tactic(auto, using(stream::proofs::Steps::item_address))]
fn play(bytes: &[u8], image: &mut [u32])
    requires { 91 ≤ length image.old }
    ensures { image.new ≡ apply (writes_of bytes.now) image.old }
{
    for next in Writes::new(bytes) {
        let Ok(next) = next else {
            return;
        };
        write(image, next);
    }
}

// Feeds a stream to an image: the image shows what is active after an I/O update.
#[tactic(auto, using(stream::proofs::Steps::taken_all))]
pub fn feed(bytes: &[u8], image: &mut [u32]) -> Result<(), Refusal>
    ensures judged { result ≡ feed_judged bytes.now image.old }
    ensures fed { image.new ≡ feed_of bytes.now image.old }
    ensures kept { OnErr result (image.new ≡ image.old) }
{
    if image.len() < WORDS {
        return Err(Refusal::Room);
    }
    stream::scan(bytes)?;
    play(bytes, image);
    Ok(())
}
