// Runs the answers of another program: each NAME.in, whose answers must be NAME.out byte for byte.
#![tactic(auto)]

ghost use Rattle.std.specs.Prelude.{◌≡◌, MatchOption, ◌≢◌};

use console::answers;
use std::fs;

// The first line, counted from 0, at which two texts differ; none where they are equal.
fn first_difference(a: &[u8], b: &[u8]) -> Option<usize>
    ensures { MatchOption result (a.now ≡ b.now) (λ _. a.now ≢ b.now) }
{
    if a == b {
        return None;
    }
    let same = a.iter().zip(b).take_while(|(x, y)| x == y);
    Some(same.filter(|(c, _)| **c == b'\n').count())
}

fn count_lines(text: &[u8]) -> usize {
    text.iter().filter(|c| **c == b'\n').count()
}

fn compare(rt: &HostRuntime, name: &str) -> anyhow::Result<()> {
    let text = fs::read(rt, format!(in rt.alloc(); "{name}.in")?)?;
    let expected = fs::read(rt, format!(in rt.alloc(); "{name}.out")?)?;
    let written = answers(rt.alloc(), text.as_slice())?;
    let count = count_lines(expected.as_slice());
    match first_difference(written.as_slice(), expected.as_slice()) {
        None => println!(rt; "{name}: {count} answers, equal")?,
        Some(line) => println!(rt; "{name}: differs at line {line}")?,
    }
    Ok(())
}

fn main(rt: HostRuntime) -> anyhow::Result<()> {
    for name in ["published", "refusals", "aes", "speck", "long"] {
        compare(&rt, name)?;
    }
    Ok(())
}
