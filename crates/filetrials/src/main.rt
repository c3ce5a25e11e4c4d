// Pay files that another program made, and files that it refuses: written, opened and read in parts, each answer compared with its.
#![tactic(auto)]

use anyhow::anyhow;
use std::{fmt, fs};

mod answers;
mod case;
mod opens;
mod parts;
mod writes;

use case::Case;

// How many cases of a kind there were, and how many of their answers were refusals.
#[derive(Default, Drop)]
struct Tally {
    cases: u32,
    refused: u32,
}

impl Tally {
    fn note(&mut self, answer: &str) {
        self.cases = self.cases.saturating_add(1);
        if answer.starts_with("R ") {
            self.refused = self.refused.saturating_add(1);
        }
    }
}

impl fmt::Display for Tally {
    fn fmt<W: fmt::Write>(&self, f: &mut fmt::Formatter<W>) -> fmt::Result {
        write!(f, "{} cases, {} of them refused", self.cases, self.refused)
    }
}

#[derive(Default, Drop)]
struct Tallies {
    writes: Tally,
    opens: Tally,
    reads: Tally,
    wrong: u32,
}

impl Tallies {
    fn of(&mut self, case: &Case) -> &mut Tally {
        match case {
            Case::Write(_) => &mut self.writes,
            Case::Open(_) => &mut self.opens,
            Case::Parts(_) => &mut self.reads,
        }
    }

    fn try_line(&mut self, rt: &HostRuntime, line: usize, text: &str) -> anyhow::Result<()> {
        let Some((mut case, expected)) = Case::read(rt.alloc(), text)? else {
            return Ok(());
        };
        let answer = case.answer(rt.alloc())?;
        self.of(&case).note(answer.as_str());
        if answer.as_str() != expected {
            self.wrong = self.wrong.saturating_add(1);
            println!(rt; "line {line}: {answer} in place of {expected}")?;
        }
        Ok(())
    }

    fn print(&self, rt: &HostRuntime) -> anyhow::Result<()> {
        println!(rt; "written: {}", self.writes)?;
        println!(rt; "opened: {}", self.opens)?;
        println!(rt; "read in parts: {}", self.reads)?;
        println!(rt; "answers that differ: {}", self.wrong)?;
        Ok(())
    }
}

fn run(rt: &HostRuntime) -> anyhow::Result<()> {
    let text = fs::read_to_string(rt, "cases.txt")?;
    let mut tallies = Tallies::default();
    for (i, line) in text.lines().enumerate() {
        tallies.try_line(rt, i.saturating_add(1), line)?;
    }
    tallies.print(rt)?;
    if tallies.wrong > 0 {
        return Err(anyhow!("an answer differs"));
    }
    Ok(())
}

fn main(rt: HostRuntime) -> anyhow::Result<()> {
    run(&rt)
}
