// Streams and the register image. As C has it, and as in `boundary`: a number for a refusal, two lists for the writes, and counts beside buffers.
ghost use Rattle.std.specs.Prelude.{◌≡◌, ◌≢◌, length};
ghost use Rattle.std.specs.Result.{result_unwrap_or};
ghost use Rattle.registers.specs.Bytes.{laid};
ghost use Rattle.registers.specs.Refusals.{number_of};
ghost use Rattle.image.specs.Feed.{feed_judged, feed_of};
ghost use Rattle.stream.specs.Streams.{encode};
ghost use Rattle.stream.specs.Decoder.{writes_of, decode_judged, Filled};
ghost use Rattle.stream.specs.Encoder.{pairs, encode_judged};

use boundary::streams;

#[unsafe(no_mangle)]
pub extern "C" fn ad9959_decode(
    bytes: &[u8],
    addresses: &mut [u32],
    values: &mut [u32],
    count: &mut usize,
) -> u32
    ensures number { result ≡ number_of (decode_judged bytes.now (length addresses.old) (length values.old)) }
    ensures count { count.new ≡ result_unwrap_or (decode_judged bytes.now (length addresses.old) (length values.old)) 0 }
    ensures taken { result ≡ 0 → Filled (writes_of bytes.now) addresses.old values.old addresses.new values.new }
    ensures addresses_kept { result ≢ 0 → addresses.new ≡ addresses.old }
    ensures values_kept { result ≢ 0 → values.new ≡ values.old }
{
    streams::ad9959_decode(bytes, addresses, values, count)
}

#[unsafe(no_mangle)]
pub extern "C" fn ad9959_encode(
    addresses: &[u32],
    values: &[u32],
    count: usize,
    bytes: &mut [u8],
    len: &mut usize,
) -> u32
    ensures number { result ≡ number_of (encode_judged count addresses.now values.now (length bytes.old)) }
    ensures count { len.new ≡ result_unwrap_or (encode_judged count addresses.now values.now (length bytes.old)) 0 }
    ensures encoded { result ≡ 0 → bytes.new ≡ laid bytes.old 0 (encode (pairs count addresses.now values.now)) }
    ensures kept { result ≢ 0 → bytes.new ≡ bytes.old }
{
    streams::ad9959_encode(addresses, values, count, bytes, len)
}

#[unsafe(no_mangle)]
pub extern "C" fn ad9959_feed(bytes: &[u8], image: &mut [u32]) -> u32
    ensures number { result ≡ number_of (feed_judged bytes.now image.old) }
    ensures image { image.new ≡ feed_of bytes.now image.old }
{
    streams::ad9959_feed(bytes, image)
}
