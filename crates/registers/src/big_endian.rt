// Values in bytes, high byte first. `read` and `write` answer any place and any width, so that these stay numbers beside the bytes.
ghost use Rattle.std.specs.Prelude.{◌≡◌, ◌+◌, ◌≤◌, length, OnOk, OnErr};
ghost use Rattle.registers.specs.Bytes.{big_endian, value_of, laid, read_of, write_of};

use crate::refusal::Refusal;

#[tactic(auto, using(crate::proofs::Bytes::value_from_next, crate::proofs::Bytes::value_from_all, crate::proofs::Bytes::value_lt_next), unfolding(crate::specs::Bytes::value_from))]
fn value_of(bytes: &[u8]) -> u32
    requires narrow { length bytes.now ≤ 4 }
    ensures { result ≡ value_of bytes.now }
{
    let mut value: u32 = 0;
    for &byte in bytes {
        value = value * 256 + byte as u32;
    }
    value
}

// The value of so many bytes from a place on.
pub fn read(bytes: &[u8], at: usize, width: usize) -> Result<u32, Refusal>
    ensures { result ≡ read_of bytes.now at width }
{
    if 4 < width {
        return Err(Refusal::Word);
    }
    let tail = bytes.get(at..).ok_or(Refusal::Short)?;
    let bytes = tail.get(..width).ok_or(Refusal::Short)?;
    Ok(value_of(bytes))
}

// By places, from the last on: of a slice's `iter_mut().rev()` a proof is told nothing.
fn lay(bytes: &mut [u8], at: usize, width: usize, value: u32)
    requires { at + width ≤ length bytes.old }
    ensures { bytes.new ≡ laid bytes.old at (big_endian width value) }
{
    let mut rest = value;
    for i in (0..width).rev() {
        bytes[at + i] = (rest % 256) as u8;
        rest /= 256;
    }
}

#[tactic(auto, using(crate::proofs::Widths::bytes_bits))]
fn judge(size: usize, at: usize, width: usize, value: u32) -> Result<(), Refusal>
    ensures judged { result ≡ write_of size at width value }
    ensures fits { OnOk result (at + width ≤ size) }
{
    if 4 < width || crate::power((8 * width) as u32) <= value as u64 {
        return Err(Refusal::Word);
    }
    if size < at || size - at < width {
        return Err(Refusal::Room);
    }
    Ok(())
}

// Writes a value in so many bytes from a place on.
pub fn write(bytes: &mut [u8], at: usize, width: usize, value: u32) -> Result<(), Refusal>
    ensures judged { result ≡ write_of (length bytes.old) at width value }
    ensures written { OnOk result (bytes.new ≡ laid bytes.old at (big_endian width value)) }
    ensures kept { OnErr result (bytes.new ≡ bytes.old) }
{
    judge(bytes.len(), at, width, value)?;
    lay(bytes, at, width, value);
    Ok(())
}
