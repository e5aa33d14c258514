// The profile serializer: register writes collected in 32 bytes, to be sent as words.
#![tactic(auto)]

ghost use Rattle.std.specs.Prelude.{◌≡◌, length, Ok, Err, MatchResult, OnOk, OnErr};
ghost use Rattle.rules.specs.Rules.{push_judged, finalize_judged};
ghost use Rattle.registers.specs.Refusals.{answer_of};
ghost use Rattle.stream.specs.Decoder.{writes_of, Filled};
ghost use Rattle.profile.specs.Serializer.{new_of, pushed, push_of, padded, handed, finalize_of, stream_of, meant_of, feed_judged_of, fed_of, decode_judged_of};

use registers::refusal::Refusal;
pub use rules::{Push, bits, signed};

mod lay;
pub mod lent;
mod words;

/// A profile so far: the bytes below the length are meant. An array and a length: the driver has no heap, and a record made by hand may have any length.
#[derive(Clone, Copy, Debug, PartialEq, Eq)]
pub struct ProfileSerializer {
    pub mode: u32,
    pub length: usize,
    pub bytes: [u8; 32],
}

/// A step's answer (finalising's is how many words it handed out), and the serializer: as it was, where the answer is a refusal.
#[derive(Clone, Copy)]
pub struct Stepped<T> {
    pub answer: Result<T, Refusal>,
    pub serializer: ProfileSerializer,
}

impl ProfileSerializer {
    /// An empty profile for a mode.
    // The test of a mode stays a line, as in `csr::of`: a call would say no more.
    pub fn new(mode: u32) -> Result<ProfileSerializer, Refusal>
        ensures { result ≡ new_of mode }
    {
        if 3 < mode {
            return Err(Refusal::Mode);
        }
        Ok(ProfileSerializer {
            mode,
            length: 0,
            bytes: [0; 32],
        })
    }

    /// Adds the writes that set a number of channels: CSR, then what is given.
    pub fn push(&mut self, push: Push) -> Result<(), Refusal>
        ensures judged { result ≡ answer_of (push_judged self.old.mode self.old.length push) }
        ensures pushed { OnOk result (self.new ≡ pushed self.old push) }
        ensures kept { OnErr result (self.new ≡ self.old) }
    {
        lent::push(self.mode, &mut self.length, &mut self.bytes, push)
    }

    /// Pads the profile and hands it out as words: how many. Pushing afterwards is allowed.
    pub fn finalize(&mut self, words: &mut [u32]) -> Result<usize, Refusal>
        ensures judged { result ≡ finalize_judged self.old.mode self.old.length (length words.old) }
        ensures padded { OnOk result (self.new ≡ padded self.old) }
        ensures handed { OnOk result (words.new ≡ handed self.old words.old) }
        ensures kept { OnErr result (self.new ≡ self.old) }
        ensures untouched { OnErr result (words.new ≡ words.old) }
    {
        lent::finalize(self.mode, &mut self.length, &mut self.bytes, words)
    }

    // The bytes below the length: more than there are is Room.
    fn meant(&self) -> Result<&[u8], Refusal>
        ensures { MatchResult result (λ x. meant_of self.now ≡ Ok x.now) (λ e. meant_of self.now ≡ Err e) }
    {
        self.bytes.get(..self.length).ok_or(Refusal::Room)
    }
}

/// A push by value, a form that the project promises beside the method: the work is `lent`'s in both.
#[tactic(auto, unfolding(crate::specs::Serializer::push_of))]
pub fn push(mut serializer: ProfileSerializer, push: Push) -> Stepped<()>
    ensures { result ≡ push_of serializer push }
{
    let answer = serializer.push(push);
    Stepped { answer, serializer }
}

/// Finalising by value likewise.
#[tactic(auto, unfolding(crate::specs::Serializer::finalized_of))]
pub fn finalize(mut serializer: ProfileSerializer, words: &mut [u32]) -> Stepped<usize>
    ensures finalized { result ≡ finalize_of serializer (length words.old) }
    ensures handed { OnOk result.answer (words.new ≡ handed serializer words.old) }
    ensures untouched { OnErr result.answer (words.new ≡ words.old) }
{
    let answer = serializer.finalize(words);
    Stepped { answer, serializer }
}

/// Feeds the profile's bytes to an image of the chip's registers.
pub fn feed(serializer: ProfileSerializer, image: &mut [u32]) -> Result<(), Refusal>
    ensures judged { result ≡ feed_judged_of serializer image.old }
    ensures fed { image.new ≡ fed_of serializer image.old }
    ensures kept { OnErr result (image.new ≡ image.old) }
{
    image::feed(serializer.meant()?, image)
}

/// Decodes the profile's bytes into two buffers, as `stream::decode` does a stream: how many writes there are.
pub fn decode(
    serializer: ProfileSerializer,
    addresses: &mut [u32],
    values: &mut [u32],
) -> Result<usize, Refusal>
    ensures judged { result ≡ decode_judged_of serializer (length addresses.old) (length values.old) }
    ensures taken { OnOk result (Filled (writes_of (stream_of serializer)) addresses.old values.old addresses.new values.new) }
    ensures addresses_kept { OnErr result (addresses.new ≡ addresses.old) }
    ensures values_kept { OnErr result (values.new ≡ values.old) }
{
    stream::decode(serializer.meant()?, addresses, values)
}
