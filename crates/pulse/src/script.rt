// A script's lines played one by one.
use crate::{report, say, why};
use notation::Line;
use profile::{ProfileSerializer, Push};
use registers::refusal::{self, Refusal};
use std::io;

// The profile that a script has begun.
#[derive(Clone, Copy)]
struct Profile {
    serializer: ProfileSerializer,
    // the bytes that finalizing added
    padding: [bool; 32],
    // it has pushes that no finalize has followed
    loose: bool,
}

/// A script so far: its lines, and what went wrong with them; its profile, once there is one.
// What prints is lent to each method and is no field: that would put a lifetime and a type parameter on the struct.
#[derive(Drop)]
pub struct Script {
    lines: u64,
    unread: u64,
    refused: u64,
    profile: Option<Profile>,
}

impl Script {
    pub fn new() -> Script {
        Script {
            lines: 0,
            unread: 0,
            refused: 0,
            profile: None,
        }
    }

    // A line without an answer.
    fn echo(&self, rt: &impl Print, line: &[u8]) -> io::Result<()> {
        print!(rt; "{:>4}                     ", self.lines)?;
        say::plain(rt, line)?;
        println!(rt)
    }

    // A step's answer, the length so far, and its line.
    fn told<T>(
        &self,
        rt: &impl Print,
        line: &[u8],
        answer: &Result<T, Refusal>,
        length: usize,
    ) -> io::Result<()> {
        let number = refusal::number(answer);
        let name = refusal::name(answer);
        print!(rt;
            "{:>4}  {number} {name:<5} length {length:>2}  ",
            self.lines
        )?;
        say::plain(rt, line)?;
        println!(rt)
    }

    // A line that is left out, before the reason.
    fn left_out(&mut self, rt: &impl Print, line: &[u8]) -> io::Result<()> {
        self.unread = self.unread.wrapping_add(1);
        print!(rt; "{:>4}  left out           ", self.lines)?;
        say::plain(rt, line)?;
        print!(rt; "\n      ")
    }

    fn mode(&mut self, rt: &impl Print, line: &[u8], mode: u32) -> io::Result<()> {
        let before = self.profile;
        let new = ProfileSerializer::new(mode);
        match new {
            Ok(serializer) => {
                self.told(rt, line, &new, 0)?;
                if before.is_some_and(|profile| profile.loose) {
                    println!(rt; "      the profile before it was not finalized, and is dropped")?;
                }
                self.profile = Some(Profile {
                    serializer,
                    padding: [false; 32],
                    loose: false,
                });
                Ok(())
            }
            Err(_) => {
                self.refused = self.refused.wrapping_add(1);
                let length = before.map_or(0, |profile| profile.serializer.length);
                self.told(rt, line, &new, length)?;
                println!(rt; "      {mode} is no mode: a mode is 0 to 3; nothing changed")
            }
        }
    }

    fn push(
        &mut self,
        rt: &impl Print,
        line: &[u8],
        profile: Profile,
        push: Push,
    ) -> io::Result<()> {
        let mut serializer = profile.serializer;
        let answer = serializer.push(push);
        self.told(rt, line, &answer, serializer.length)?;
        match answer {
            Ok(()) => {
                self.profile = Some(Profile {
                    serializer,
                    loose: true,
                    ..profile
                });
                Ok(())
            }
            Err(refusal) => {
                self.refused = self.refused.wrapping_add(1);
                why::push(rt, refusal, serializer.length, push)
            }
        }
    }

    fn finalize(&mut self, rt: &impl Print, line: &[u8], profile: Profile) -> io::Result<()> {
        let mut serializer = profile.serializer;
        let mut padding = profile.padding;
        let from = serializer.length;
        let answer = serializer.finalize(&mut [0; 8]);
        for added in padding.iter_mut().take(serializer.length).skip(from) {
            *added = true;
        }
        self.told(rt, line, &answer, serializer.length)?;
        report::report(rt, serializer, &padding)?;
        self.profile = Some(Profile {
            serializer,
            padding,
            loose: false,
        });
        Ok(())
    }

    // A blank line or a comment; an empty line is not shown.
    fn comment(&self, rt: &impl Print, line: &[u8]) -> io::Result<()> {
        match line {
            [] | [b'\r', ..] => Ok(()),
            _ => self.echo(rt, line),
        }
    }

    // A step of the profile that is there.
    fn step(
        &mut self,
        rt: &impl Print,
        line: &[u8],
        profile: Profile,
        step: Line,
    ) -> io::Result<()> {
        match step {
            Line::Push(push) => self.push(rt, line, profile, push),
            Line::Finalize => self.finalize(rt, line, profile),
            _ => {
                self.echo(rt, line)?;
                report::report(rt, profile.serializer, &profile.padding)
            }
        }
    }

    // One line of a script.
    fn play(&mut self, rt: &impl Print, line: &[u8]) -> io::Result<()> {
        match notation::read(line) {
            Ok(Line::Blank) => self.comment(rt, line),
            Ok(Line::Mode(mode)) => self.mode(rt, line, mode),
            Ok(step) => match self.profile {
                Some(profile) => self.step(rt, line, profile, step),
                None => {
                    self.left_out(rt, line)?;
                    println!(rt; "there is no profile yet: start with a line such as mode 3")
                }
            },
            Err(fault) => {
                self.left_out(rt, line)?;
                why::unread(rt, line, fault)
            }
        }
    }

    /// The next line. Some editors put a mark before a text.
    pub fn line(&mut self, rt: &impl Print, line: &[u8]) -> io::Result<()> {
        let first = self.lines == 0;
        self.lines = self.lines.wrapping_add(1);
        if 200 < line.len() {
            let (front, _) = line.split_at(40);
            self.left_out(rt, front)?;
            return println!(rt; "it has more than 200 bytes");
        }
        match line {
            [0xef, 0xbb, 0xbf, text @ ..] if first => self.play(rt, text),
            _ => self.play(rt, line),
        }
    }

    /// The end of a script.
    pub fn close(&self, rt: &impl Print) -> io::Result<()> {
        if let Some(profile) = self.profile
            && profile.loose
        {
            println!(rt; "\nthe last profile was not finalized; as it stands:")?;
            report::report(rt, profile.serializer, &profile.padding)?;
        }
        println!(rt;
            "lines left out: {}\nsteps refused: {}",
            self.unread, self.refused
        )
    }
}
