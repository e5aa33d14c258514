// A stranger's text.
use std::io;

// A terminal obeys control characters.
fn shown(b: u8) -> u8 {
    match b {
        b'\t' | b'\r' => b' ',
        0..=31 | 127 => b'?',
        _ => b,
    }
}

/// A stranger's text, of at most 4,096 bytes. It is bytes and not `str`: any are shown as they are.
pub fn plain(out: &impl Print, text: &[u8]) -> io::Result<()> {
    // A buffer, written at once: a String holds text, and these are bytes.
    let mut safe = [0u8; 4096];
    for (to, &from) in safe.iter_mut().zip(text) {
        *to = shown(from);
    }
    out.write_all(&safe[..text.len().min(4096)])
}

/// What a call that has failed was about, and why it failed.
pub fn fail(err: &impl Print, what: &[u8], why: io::Error) -> io::Result<()> {
    print!(err; "pulse: ")?;
    plain(err, what)?;
    println!(err; ": {why}")
}
