// A sequence played to its end against a chip.
use crate::chip::{Chip, Fault};
use crate::show::{Answer, Turn};
use bus::{Reply, Sequence};
use host::{Kind, Outcome};
use std::io;

/// How a sequence is tried: what goes wrong, and the one turn that is shown, or else all with their answers.
#[derive(Clone, Copy)]
pub struct Trial {
    fault: Option<Fault>,
    only: Option<usize>,
}

impl Trial {
    pub fn new() -> Trial {
        Trial {
            fault: None,
            only: None,
        }
    }

    pub fn with(self, fault: Fault) -> Trial {
        Trial {
            fault: Some(fault),
            ..self
        }
    }

    pub fn showing(self, turn: usize) -> Trial {
        Trial {
            only: Some(turn),
            ..self
        }
    }

    /// What goes wrong, if anything does.
    pub fn title(self, rt: &impl Print) -> io::Result<()> {
        match self.fault {
            Some(fault) => print!(rt; "{fault}"),
            None => Ok(()),
        }
    }
}

/// Twenty turns: no sequence has more than 17 actions. What the last reply brought.
// Not by `bus::run`: a turn shows the answer to its reply, which a `Bus` isn't told.
pub fn play(rt: &impl Print, mut sequence: Kind, trial: Trial) -> io::Result<Option<Outcome>> {
    let mut chip = Chip::new(trial.fault);
    let mut count = 0;
    let mut last = Ok(None);
    for n in 1..21usize {
        let Some(action) = sequence.action() else {
            break;
        };
        let reply = chip.play(n, action);
        last = sequence.reply(reply);
        count = n;
        match trial.only {
            None => print!(rt; "\n{n:>4}  {}{}", Turn { action, reply }, Answer(last))?,
            Some(turn) if turn == n => print!(rt; "\n{n:>4}  {}", Turn { action, reply })?,
            Some(_) => {}
        }
    }
    if count == 0 {
        print!(rt; ": hands out nothing")?;
    } else {
        let line = if trial.only.is_none() { "\n      " } else { "" };
        print!(rt; "{line}handed out {count}, ended with {}", Answer(last))?;
    }
    more(rt, sequence)?;
    Ok(last.unwrap_or(None))
}

// What one more reply gives: it must not wake the sequence.
fn more(rt: &impl Print, mut sequence: Kind) -> io::Result<()> {
    let good = Reply {
        failed: false,
        value: 0,
    };
    let answer = sequence.reply(good);
    print!(rt; "; one more reply: {}", Answer(answer))?;
    if sequence.action().is_some() {
        print!(rt; ", AN ACTION")?;
    }
    Ok(())
}

pub fn titled(rt: &impl Print, title: &str, sequence: Kind, trial: Trial) -> io::Result<()> {
    print!(rt; "{title}")?;
    trial.title(rt)?;
    play(rt, sequence, trial)?;
    Ok(())
}

/// A run for each of so many actions, in which that one fails.
pub fn each(rt: &impl Print, title: &str, sequence: Kind, count: usize) -> io::Result<()> {
    print!(rt; "{title}")?;
    for n in 1..=count {
        let trial = Trial::new().with(Fault::Fails(n)).showing(n);
        play(rt, sequence, trial)?;
    }
    Ok(())
}
