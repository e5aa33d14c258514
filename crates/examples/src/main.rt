// Document 01's numbered examples: what was asked and what the libraries answer.
#![tactic(auto)]

mod step;
mod value;

use profile::Push;
use std::io;

// A push of a mask alone: it sets nothing.
fn bare(mask: u32) -> Push {
    Push {
        mask,
        word: None,
        phase: None,
        acr: None,
    }
}

fn single(rt: &impl Print, head: &str, mode: u32, push: Push) -> io::Result<()> {
    let mut serializer = step::begin(rt, head, mode)?;
    step::push(rt, &mut serializer, push)?;
    step::finalize(rt, &mut serializer)
}

// Lengths 14, 24, then 31; and the other ending, from the profile of before the third push.
fn six(rt: &impl Print) -> io::Result<()> {
    let mut serializer = step::begin(rt, " 6  ", 3)?;
    let first = Push {
        word: Some(0x1111_1111),
        phase: Some(0x1234),
        acr: Some(0x00_1200),
        ..bare(1)
    };
    step::push(rt, &mut serializer, first)?;
    let second = Push {
        word: Some(0x2222_2222),
        phase: Some(0x2345),
        ..bare(2)
    };
    step::push(rt, &mut serializer, second)?;
    let mut other = serializer;
    let third = Push {
        word: Some(0x3333_3333),
        ..bare(4)
    };
    step::push(rt, &mut serializer, third)?;
    step::finalize(rt, &mut serializer)?;
    println!(rt; "    or instead, from length {}", other.length)?;
    step::push(rt, &mut other, bare(4))?;
    step::finalize(rt, &mut other)
}

fn profiles(rt: &impl Print) -> io::Result<()> {
    let word = Some(0x0102_0304);
    single(rt, " 1  ", 3, Push { word, ..bare(1) })?;
    single(rt, " 2  ", 0, bare(0))?;
    let phase = Some(0x3fff);
    single(rt, " 3  ", 0, Push { phase, ..bare(15) })?;
    let acr = Some(0x00_1200);
    single(rt, " 4  ", 3, Push { acr, ..bare(2) })?;
    step::finalize(rt, &mut step::begin(rt, " 5  ", 3)?)?;
    six(rt)?;
    let word = Some(-1);
    single(rt, " 7  ", 3, Push { word, ..bare(1) })
}

fn values(rt: &impl Print) -> io::Result<()> {
    value::phase(rt, " 8  ", 0.25)?;
    value::phase(rt, "    ", 3.75)?;
    value::phase(rt, "    ", 1.0)?;
    value::phase(rt, "    ", 4.0)?;
    value::amplitude(rt, " 9  ", 0.5)?;
    value::amplitude(rt, "    ", 1.0)?;
    let fr1 = 0;
    println!(rt; "10  FR1 was 0x{fr1:06X}")?;
    value::clock(rt, fr1, 125e6, 4)?;
    value::clock(rt, fr1, 10e6, 20)?;
    value::clock(rt, fr1, 10e6, 19)?;
    value::clock(rt, fr1, 10e6, 4)?;
    value::driver(rt, "11  ", 268435456.0, 1)
}

fn main(rt: HostRuntime) -> io::Result<()> {
    profiles(&rt)?;
    values(&rt)
}
