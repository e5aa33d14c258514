// Register writes to bytes and back.
#![tactic(auto)]

ghost use Rattle.std.specs.Prelude.{◌≡◌, ◌<◌, ◌≤◌, length, Ok, Err, MatchResult, IfOk, OnOk, OnErr};
ghost use Rattle.registers.specs.Bytes.{laid};
ghost use Rattle.stream.specs.Streams.{write_bytes, encode};
ghost use Rattle.stream.specs.Decoder.{first_of, items_of, decode_of, writes_of, count_of, decode_judged, Filled};
ghost use Rattle.stream.specs.Left.{items_left};
ghost use Rattle.stream.specs.Encoder.{size_of, lay_judged, pairs, sizes_of, encode_judged};

use registers::refusal::Refusal;
use registers::write::Write;
use registers::{address, big_endian};

// The first write of a stream, and the bytes behind it.
#[tactic(auto, using(registers::proofs::Widths::width_most), unfolding(crate::specs::Decoder::first_of))]
pub fn first(bytes: &[u8]) -> Result<(Write, &[u8]), Refusal>
    ensures { MatchResult result (λ x. first_of bytes.now ≡ Ok (x.0, x.1.now)) (λ e. first_of bytes.now ≡ Err e) }
{
    let Some((&address, rest)) = bytes.split_first() else {
        return Err(Refusal::Short);
    };
    let address = address as u32;
    if address::CW15 < address {
        return Err(Refusal::Address);
    }
    let width = address::width(address);
    let value = big_endian::read(rest, 0, width)?;
    Ok((Write { address, value }, &rest[width..]))
}

/// A stream's writes, one by one: a refusal is the last item.
#[derive(Clone, Copy)]
pub struct Writes<'a> {
    bytes: &'a [u8],
}

impl<'a> Writes<'a> {
    pub fn new(bytes: &'a [u8]) -> Self
        ensures { items_left result ≡ items_of bytes.now }
    {
        Writes { bytes }
    }
}

impl<'a> Iterator for Writes<'a> {
    ghost use Rattle.std.specs.Iterator.{YieldsFirst, item_count};
    ghost use Rattle.stream.specs.Left.{items_left};

    type Item = Result<Write, Refusal>;

    ghost next_gives = { YieldsFirst items_left };

    ghost remaining = { item_count items_left };

    #[tactic(auto, using(crate::proofs::Steps::items_nil, crate::proofs::Steps::items_ok, crate::proofs::Steps::items_err))]
    fn next(&mut self) -> Option<Result<Write, Refusal>> {
        if self.bytes.is_empty() {
            return None;
        }
        match first(self.bytes) {
            Ok((write, rest)) => {
                self.bytes = rest;
                Some(Ok(write))
            }
            Err(refusal) => {
                self.bytes = &[];
                Some(Err(refusal))
            }
        }
    }
}

// How many writes a stream has, or its first refusal.
#[tactic(auto, using(crate::proofs::Rest::more_none, crate::proofs::Steps::items_most, crate::proofs::Steps::item_next, crate::proofs::Steps::item_bad, crate::proofs::Steps::item_end))]
pub fn scan(bytes: &[u8]) -> Result<usize, Refusal>
    ensures { result ≡ count_of (decode_of bytes.now) }
{
    let mut seen: usize = 0;
    for write in Writes::new(bytes) {
        write?;
        seen += 1;
    }
    Ok(seen)
}

// Writes the addresses and the values to the fronts of two buffers: two, as `decode` gets them.
#[tactic(auto, using(registers::proofs::Laid::laid_nil, registers::proofs::Laid::laid_cons))]
fn fill(bytes: &[u8], addresses: &mut [u32], values: &mut [u32])
    requires addresses { length (items_of bytes.now) ≤ length addresses.old }
    requires values { length (items_of bytes.now) ≤ length values.old }
    ensures { Filled (writes_of bytes.now) addresses.old values.old addresses.new values.new }
{
    for (place, write) in Writes::new(bytes).enumerate() {
        let Ok(write) = write else {
            return;
        };
        addresses[place] = write.address;
        values[place] = write.value;
    }
}

// Decodes a stream into two buffers, as the C interface has them: how many writes there are.
#[tactic(auto, using(crate::proofs::Steps::counted))]
pub fn decode(bytes: &[u8], addresses: &mut [u32], values: &mut [u32]) -> Result<usize, Refusal>
    ensures judged { result ≡ decode_judged bytes.now (length addresses.old) (length values.old) }
    ensures taken { OnOk result (Filled (writes_of bytes.now) addresses.old values.old addresses.new values.new) }
    ensures addresses_kept { OnErr result (addresses.new ≡ addresses.old) }
    ensures values_kept { OnErr result (values.new ≡ values.old) }
{
    let found = scan(bytes)?;
    if addresses.len() < found || values.len() < found {
        return Err(Refusal::Room);
    }
    fill(bytes, addresses, values);
    Ok(found)
}

// How many bytes a write takes. A bad one is Address, then Word.
// The address is tested in a line, as in `first`: one judges bytes, the other a write.
#[tactic(auto, using(registers::proofs::Widths::width_most))]
fn size(write: Write) -> Result<usize, Refusal>
    ensures judged { result ≡ size_of write }
    ensures named { OnOk result (write.address < 25) }
    ensures small { IfOk result (λ n. n ≤ 5) }
{
    if address::CW15 < write.address {
        return Err(Refusal::Address);
    }
    if !address::holds(write.address, write.value) {
        return Err(Refusal::Word);
    }
    Ok(1 + address::width(write.address))
}

// Lays one write over the bytes from a place on: the place behind it. The place is a number, since `lay` answers any.
#[tactic(auto, using(crate::proofs::Lays::lay_refused, crate::proofs::Lays::lay_fits, crate::proofs::Lays::lay_full, crate::proofs::Lays::stored))]
pub fn lay(bytes: &mut [u8], at: usize, write: Write) -> Result<usize, Refusal>
    ensures judged { result ≡ lay_judged (length bytes.old) at write }
    ensures laid { OnOk result (bytes.new ≡ laid bytes.old at (write_bytes write)) }
    ensures kept { OnErr result (bytes.new ≡ bytes.old) }
{
    let size = size(write)?;
    if bytes.len() <= at {
        return Err(Refusal::Room);
    }
    big_endian::write(bytes, at + 1, size - 1, write.value)?;
    bytes[at] = write.address as u8;
    Ok(at + size)
}

// How many bytes the writes take, or the refusal of the first bad one. Both lists are cut to the count: with one cut, each turn would test two ends.
fn measure(addresses: &[u32], values: &[u32], count: usize) -> Result<usize, Refusal>
    requires addresses { count ≤ length addresses.now }
    requires values { count ≤ length values.now }
    ensures { result ≡ sizes_of (pairs count addresses.now values.now) }
{
    let mut bytes = 0;
    for (&address, &value) in addresses[..count].iter().zip(&values[..count]) {
        bytes += size(Write { address, value })?;
    }
    Ok(bytes)
}

// Lays the writes over the front of the bytes.
fn lay_each(addresses: &[u32], values: &[u32], count: usize, bytes: &mut [u8])
    requires addresses { count ≤ length addresses.now }
    requires values { count ≤ length values.now }
    requires good { sizes_of (pairs count addresses.now values.now) ≡ Ok (length (encode (pairs count addresses.now values.now))) }
    requires room { length (encode (pairs count addresses.now values.now)) ≤ length bytes.old }
    ensures { bytes.new ≡ laid bytes.old 0 (encode (pairs count addresses.now values.now)) }
{
    let mut at = 0;
    for (&address, &value) in addresses[..count].iter().zip(&values[..count]) {
        at = lay(bytes, at, Write { address, value }).unwrap();
    }
}

// Encodes writes, in two lists as the C interface has them, into a buffer: how many bytes they take.
#[tactic(auto, using(crate::proofs::Rest::sizes_length))]
pub fn encode(
    addresses: &[u32],
    values: &[u32],
    count: usize,
    bytes: &mut [u8],
) -> Result<usize, Refusal>
    ensures judged { result ≡ encode_judged count addresses.now values.now (length bytes.old) }
    ensures encoded { OnOk result (bytes.new ≡ laid bytes.old 0 (encode (pairs count addresses.now values.now))) }
    ensures kept { OnErr result (bytes.new ≡ bytes.old) }
{
    if addresses.len() < count || values.len() < count {
        return Err(Refusal::Room);
    }
    let size = measure(addresses, values, count)?;
    if bytes.len() < size {
        return Err(Refusal::Room);
    }
    lay_each(addresses, values, count, bytes);
    Ok(size)
}
