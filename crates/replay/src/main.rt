// The original's answers played again on the port: lines of numbers, each what was asked and what came back.
#![tactic(auto)]

ghost use Rattle.std.specs.Prelude.{◌≤◌, length, IfOk};

mod line;
mod profiles;
mod sequences;

use line::{Line, Numbers};
use std::io;
use std::io::Read;

// The lines so far, and how many differ.
#[derive(Drop)]
struct Count {
    lines: u32,
    differ: u32,
}

// Whether the port gives what a line says. Its first number is its kind.
// The kind is matched once, on the line's number: an enum would be made of it here and taken apart at once.
fn same(mut numbers: Numbers) -> bool {
    match numbers.next() {
        1 => sequences::started(numbers),
        2 => sequences::transferred(numbers),
        3 => sequences::tested(numbers),
        4 => sequences::read(numbers),
        5 => profiles::played(numbers),
        _ => false,
    }
}

impl Count {
    // One line more.
    fn play(&mut self, rt: &impl Print, numbers: Numbers) -> io::Result<()> {
        let good = same(numbers);
        self.lines = self.lines % 0x1000_0000 + 1;
        self.differ = self.differ % 0x1000_0000 + !good as u32;
        if good {
            return Ok(());
        }
        println!(rt; "line {} differs", self.lines)
    }
}

// Reads until the buffer is full or the input ends: how much was read.
fn fill<I: Read>(input: &mut I, buffer: &mut [u8]) -> io::Result<usize>
    ensures { IfOk result (λ n. n ≤ length buffer.new) }
{
    let mut n = 0;
    for _ in 0..buffer.len() {
        let got = input.read(&mut buffer[n..])?;
        if got == 0 {
            break;
        }
        n += got;
    }
    Ok(n)
}

fn main(rt: HostRuntime) -> io::Result<()> {
    let mut input = rt.stdin();
    // Of a fixed size: `Read::read` fills what it is lent.
    let mut buffer = [0u8; 4096];
    let mut line = Line::new();
    let mut count = Count {
        lines: 0,
        differ: 0,
    };
    // it stops after so much input, as it always did
    for _ in 0..1000000 {
        let n = fill(&mut input, &mut buffer)?;
        if n == 0 {
            return println!(rt; "{} lines, {} differ", count.lines, count.differ);
        }
        for &c in &buffer[..n] {
            if line.ends_at(c) {
                count.play(&rt, line.numbers())?;
                line.clear();
            }
        }
    }
    Ok(())
}
