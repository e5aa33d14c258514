// Plays pulse scripts: from the files that its arguments name, or from standard input as it is typed.
#![tactic(auto)]

mod report;
mod say;
mod script;
mod why;

use arrayvec::ArrayVec;
use script::Script;
use std::env::{Env, FillError};
use std::io::{IsTerminal, Read};
use std::process::ExitCode;
use std::rt::Files;
use std::{fs, io};

// What has been read: each line that has ended is played. Of a line, the bytes past 201 are dropped.
fn chunk(
    rt: &impl Print,
    script: &mut Script,
    line: &mut ArrayVec<u8, 201>,
    bytes: &[u8],
) -> io::Result<()> {
    for &b in bytes {
        if b == b'\n' {
            script.line(rt, line.as_slice())?;
            line.clear();
        } else {
            let _ = line.try_push(b);
        }
    }
    Ok(())
}

// A script from its first byte to its last, each line answered as soon as it is there. Whether all of it could be read.
fn run<I: Read>(rt: &impl Print, err: &impl Print, input: &mut I, name: &[u8]) -> io::Result<bool> {
    let mut script = Script::new();
    let mut line = ArrayVec::new();
    // Of a fixed size: `Read::read` fills what it is lent.
    let mut buffer = [0u8; 4096];
    let mut whole = true;
    // a loop that reads has a bound, since a reader may never end
    for _ in 0..u64::MAX {
        let n = match input.read(&mut buffer) {
            Ok(n) => n,
            Err(e) => {
                let _ = say::fail(err, name, e);
                whole = false;
                0
            }
        };
        if n == 0 {
            break;
        }
        chunk(rt, &mut script, &mut line, &buffer[..n])?;
    }
    // the last line may have no end
    if !line.is_empty() {
        script.line(rt, line.as_slice())?;
    }
    script.close(rt)?;
    Ok(whole)
}

// A file by its name: std's is text, and one of other bytes can't be opened.
fn opened<R: Files>(rt: &R, path: &[u8]) -> io::Result<R::File> {
    match str::from_utf8(path) {
        Ok(name) => fs::open(rt, name),
        Err(_) => Err(io::Error::from(io::ErrorKind::InvalidData)),
    }
}

// What is typed.
fn typed(rt: &HostRuntime) -> io::Result<bool> {
    let mut input = rt.stdin();
    if input.is_terminal() {
        println!(rt; "a step a line: mode 3, push 1 word 0x01020304, finalize; Ctrl-D ends")?;
    }
    run(rt, &rt.stderr(), &mut input, b"standard input")
}

// Every script that is named, or else what is typed. Whether all could be read.
fn played(rt: &HostRuntime) -> io::Result<bool> {
    let err = rt.stderr();
    // Of a fixed size: `arg` fills what it is lent.
    let mut path = [0u8; 4096];
    let mut some = false;
    let mut all = true;
    // by their places, since std's list of them takes text alone
    for i in 1..usize::MAX {
        let path = match rt.arg(i, &mut path) {
            Ok(n) => &path[..n],
            Err(FillError::NotPresent) if i == 1 => return typed(rt),
            Err(FillError::NotPresent) => break,
            Err(FillError::TooLong) => {
                // ENAMETOOLONG
                let _ = say::fail(&err, b"an argument", io::Error::from_raw_os_error(36));
                all = false;
                continue;
            }
        };
        match opened(rt, path) {
            Ok(mut file) => {
                if some {
                    println!(rt)?;
                }
                some = true;
                say::plain(rt, path)?;
                println!(rt)?;
                all = run(rt, &err, &mut file, path)? && all;
            }
            Err(e) => {
                let _ = say::fail(&err, path, e);
                all = false;
            }
        }
    }
    Ok(all)
}

fn main(rt: HostRuntime) -> ExitCode {
    match played(&rt) {
        Ok(true) => ExitCode::SUCCESS,
        Ok(false) => ExitCode::from(2),
        Err(e) => {
            let _ = say::fail(&rt.stderr(), b"standard output", e);
            ExitCode::FAILURE
        }
    }
}
