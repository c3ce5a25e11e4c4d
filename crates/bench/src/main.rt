// Reads lines from standard input, and writes an answer to each.
#![tactic(auto)]

use console::answers;
use std::io;
use std::io::{Read, Write};

// Input past this is not read.
const INPUT_MOST: u64 = 65_536;

fn main(rt: HostRuntime) -> io::Result<()> {
    let mut text = Vec::new(rt.alloc());
    rt.stdin().take(INPUT_MOST).read_to_end(&mut text)?;
    let written = answers(rt.alloc(), text.as_slice())?;
    rt.stdout().write_all(written.as_slice())
}
