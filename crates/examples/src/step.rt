// A line for each step of a profile: what was asked, the answer, and the length.
use arrayvec::ArrayString;
use profile::{ProfileSerializer, Push};
use registers::refusal::{self, Refusal};
use std::fmt::Write;
use std::io;

/// What was asked, as text.
// Of a fixed size, longer than any example's: with no heap the program can't run out of memory.
pub type Asked = ArrayString<72>;

// What was asked, in 54 columns, and the answer; a refusal too has a length, the one that stays.
fn line<T>(
    rt: &impl Print,
    asked: &str,
    answer: &Result<T, Refusal>,
    length: usize,
) -> io::Result<()> {
    let number = refusal::number(answer);
    let name = refusal::name(answer);
    println!(rt; "{asked:<54}{number} {name:<6}length {length:>2}")
}

/// A serializer for a mode, with its example's number in front.
pub fn begin(rt: &impl Print, head: &str, mode: u32) -> io::Result<ProfileSerializer> {
    let new = ProfileSerializer::new(mode);
    let mut asked = Asked::new();
    write!(asked, "{head}mode {mode}")?;
    line(rt, asked.as_str(), &new, 0)?;
    new.map_err(|_| io::Error::from(io::ErrorKind::InvalidInput))
}

fn asked(push: Push) -> io::Result<Asked> {
    let mut asked = Asked::new();
    write!(asked, "    push {}", push.mask)?;
    match push.word {
        Some(word) if word < 0 => write!(asked, " word {word}")?,
        Some(word) => write!(asked, " word 0x{word:08X}")?,
        None => {}
    }
    if let Some(phase) = push.phase {
        write!(asked, " phase 0x{phase:04X}")?;
    }
    if let Some(acr) = push.acr {
        write!(asked, " acr 0x{acr:06X}")?;
    }
    Ok(asked)
}

pub fn push(rt: &impl Print, serializer: &mut ProfileSerializer, push: Push) -> io::Result<()> {
    let answer = serializer.push(push);
    line(rt, asked(push)?.as_str(), &answer, serializer.length)
}

/// A profile is padded and handed out: its bytes and words.
pub fn finalize(rt: &impl Print, serializer: &mut ProfileSerializer) -> io::Result<()> {
    // `finalize` fills what it is lent, and no profile takes more than eight words.
    let mut words = [0u32; 8];
    let answer = serializer.finalize(&mut words);
    let length = serializer.length;
    line(rt, "    finalize", &answer, length)?;
    let Ok(count) = answer else { return Ok(()) };
    let none = if count == 0 { " none" } else { "" };
    print!(rt; "    bytes {none}")?;
    for byte in serializer.bytes.iter().take(length) {
        print!(rt; " {byte:02X}")?;
    }
    print!(rt; "\n    words {none}")?;
    for word in words.iter().take(count) {
        print!(rt; " 0x{word:08X}")?;
    }
    println!(rt)
}
