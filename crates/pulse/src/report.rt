// What a profile holds: its bytes, its words, its writes, and what the channels' registers end as.
use bitfields::{acr, csr};
use profile::ProfileSerializer;
use registers::address;
use registers::write::Write;
use std::io;
use stream::Writes;

// The channels that a CSR selects: a channel's digit where its bit is one, and a dot where not.
fn channels(rt: &impl Print, csr: u32) -> io::Result<()> {
    let mask = csr::CHANNEL.get(csr);
    for channel in 0..4u32 {
        if (mask >> channel) % 2 == 1 {
            print!(rt; "{channel} ")?;
        } else {
            print!(rt; ". ")?;
        }
    }
    print!(rt; " ")
}

// A write's place, register and value. A serializer writes no other registers.
// A line of each register's own, as its columns differ.
fn head(rt: &impl Print, at: usize, write: Write) -> io::Result<()> {
    let Write { address, value } = write;
    match address {
        address::CSR => print!(rt; "{at:>4}  CSR    0x{value:02X}        =  channels "),
        address::CFTW0 => print!(rt; "{at:>4}  CFTW0  0x{value:08X}  -> channels "),
        address::CPOW0 => print!(rt; "{at:>4}  CPOW0  0x{value:04X}      -> channels "),
        address::ACR => print!(rt; "{at:>4}  ACR    0x{value:06X}    -> channels "),
        _ => print!(rt; "{at:>4}  LSRR   0x{value:04X}      -> channels "),
    }
}

fn amplitude(rt: &impl Print, acr: u32) -> io::Result<()> {
    if acr::MULTIPLIER.get(acr) == 0 {
        return print!(rt; "full amplitude, multiplier off");
    }
    let asf = acr::ASF.get(acr);
    let share = (asf as u64 * 10000 + 512) / 1024;
    print!(rt; "amplitude 0.{share:04}, {asf} of 1024")
}

// What a register's value means, to the nearest last digit.
fn meaning(rt: &impl Print, write: Write) -> io::Result<()> {
    let value = write.value;
    match write.address {
        address::CSR => {
            let mask = csr::CHANNEL.get(value);
            let mode = csr::MODE.get(value);
            print!(rt; "mask {mask}, mode {mode}")
        }
        address::CFTW0 => {
            let share = (value as u128 * 10_000_000_000 + 0x8000_0000) / 0x1_0000_0000;
            print!(rt; "0.{share:010} of the system clock")
        }
        address::CPOW0 => {
            let degrees = (value as u64 % 16384 * 36000 + 8192) / 16384;
            print!(rt; "{}.{:02} degrees", degrees / 100, degrees % 100)
        }
        address::ACR => amplitude(rt, value),
        _ => print!(rt; "ramp rate 0, to the last push's channels alone"),
    }
}

// Each write, with the channels that it lands on.
fn writes(rt: &impl Print, bytes: &[u8], padding: &[bool; 32]) -> io::Result<()> {
    println!(rt; "\n\n  at  write")?;
    let mut at: usize = 0;
    let mut csr: u32 = 0;
    for write in Writes::new(bytes) {
        let Ok(write) = write else { break };
        if write.address == address::CSR {
            csr = write.value;
        }
        head(rt, at, write)?;
        channels(rt, csr)?;
        if padding.get(at) == Some(&true) {
            print!(rt; "padding: ")?;
        }
        meaning(rt, write)?;
        println!(rt)?;
        let width = address::width(write.address);
        at = at.saturating_add(1).saturating_add(width);
    }
    Ok(())
}

// A register in so many digits, or a dash where nothing wrote it, in a column.
fn cell(rt: &impl Print, value: Option<u32>, digits: usize) -> io::Result<()> {
    match value {
        Some(value) => print!(rt; "0x{value:0digits$X}  "),
        None => print!(rt; "-{:digits$}   ", ""),
    }
}

// What the registers end as. Fed to zeros and to ones alike, only what is written ends the same.
fn ends(rt: &impl Print, serializer: ProfileSerializer) -> io::Result<()> {
    // Two images: `feed` fills what it is lent.
    let mut zeros = [0u32; 91];
    let mut ones = [0xffff_ffffu32; 91];
    let _ = profile::feed(serializer, &mut zeros);
    let _ = profile::feed(serializer, &mut ones);
    let written = |at: usize| zeros
        .get(at)
        .copied()
        .filter(|zero| ones.get(at) == Some(zero));
    println!(rt;
        "\nchannel  CFTW0       CPOW0   ACR       LSRR      (-: not written, stays as it was)"
    )?;
    // By number: it is shown, and the image's stride goes by it.
    for channel in 0..4usize {
        // a channel's registers, CFR first
        let cfr = 3 + channel * 22;
        print!(rt; "   {channel:>4}  ")?;
        cell(rt, written(cfr + 1), 8)?;
        cell(rt, written(cfr + 2), 4)?;
        cell(rt, written(cfr + 3), 6)?;
        match written(cfr + 4) {
            Some(lsrr) => println!(rt; "0x{lsrr:04X}")?,
            None => println!(rt; "-")?,
        }
    }
    match written(0) {
        Some(csr) => println!(rt; "CSR ends as 0x{csr:02X}\n"),
        None => println!(rt),
    }
}

// The words, where the length is a multiple of 4: finalizing adds nothing then.
fn words(rt: &impl Print, serializer: ProfileSerializer) -> io::Result<()> {
    let length = serializer.length;
    if length % 4 != 0 {
        return print!(rt; " none yet: {length} is no multiple of 4, and finalize pads it");
    }
    // `finalize` fills what it is lent, and no profile takes more than eight words.
    let mut words = [0u32; 8];
    let finalized = profile::finalize(serializer, &mut words);
    for word in words.iter().take(finalized.answer.unwrap_or(0)) {
        print!(rt; " 0x{word:08X}")?;
    }
    Ok(())
}

/// All that a profile holds, and which of its bytes finalizing added.
pub fn report(
    rt: &impl Print,
    serializer: ProfileSerializer,
    padding: &[bool; 32],
) -> io::Result<()> {
    let bytes = match serializer.bytes.get(..serializer.length) {
        Some(bytes) if !bytes.is_empty() => bytes,
        _ => return println!(rt; "\nno bytes and no words\n"),
    };
    print!(rt; "\nbytes ")?;
    for byte in bytes {
        print!(rt; " {byte:02X}")?;
    }
    print!(rt; "\nwords ")?;
    words(rt, serializer)?;
    writes(rt, bytes, padding)?;
    ends(rt, serializer)
}
