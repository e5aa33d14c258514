// Why a step was refused, and why a line could not be read: a plain sentence each.
use crate::say;
use notation::Fault;
use profile::Push;
use registers::refusal::Refusal;
use std::io;

// A push finds no room behind so many bytes.
fn room(rt: &impl Print, length: usize, push: Push) -> io::Result<()> {
    let more = push.size();
    let whole = length.saturating_add(more);
    print!(rt; "      {length} + {more} = {whole} bytes")?;
    if whole == 31 {
        print!(rt; ": padding them to words takes 5 more")?;
    }
    println!(rt; ", and there are only 32")
}

// A phase or an ACR is too large: the phase, where it is, and else the ACR.
fn word(rt: &impl Print, push: Push) -> io::Result<()> {
    match (push.phase, push.acr) {
        (Some(phase @ 16384..), _) => println!(rt;
            "      phase {phase} is too large: a phase is at most 16383 (0x3FFF)"
        ),
        (_, Some(acr)) => println!(rt;
            "      acr {acr} is too large: an acr is at most 16777215 (0xFFFFFF)"
        ),
        _ => Ok(()),
    }
}

/// Why a push behind so many bytes was refused.
pub fn push(rt: &impl Print, refusal: Refusal, length: usize, push: Push) -> io::Result<()> {
    match refusal {
        Refusal::Mask => {
            let mask = push.mask;
            println!(rt;
                "      {mask} is no mask: add up 1 for channel 0, 2 for channel 1, 4 for channel 2, 8 for channel 3"
            )
        }
        Refusal::Word => word(rt, push),
        Refusal::Room => room(rt, length, push),
        _ => Ok(()),
    }
}

/// What is wrong with a line, and with which part of it.
pub fn unread(rt: &impl Print, line: &[u8], fault: Fault) -> io::Result<()> {
    let part = fault.part;
    if let Some(text) = line.get(part.start..part.end)
        && !text.is_empty()
    {
        print!(rt; "\"")?;
        say::plain(rt, text)?;
        print!(rt; "\" ")?;
    }
    let reason = fault.reason;
    println!(rt; "{reason}")
}
