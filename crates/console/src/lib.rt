// The bench: lines of text in, an answer to each out.
#![tactic(auto)]

ghost use Rattle.std.specs.Prelude.{◌≡◌, IfOk};
ghost use Rattle.console.specs.Lines.{lines_of, without_newline};
ghost use Rattle.console.specs.Known.{nothing};
ghost use Rattle.console.specs.Replies.{Replies};

mod answer;
mod fault;
mod given;
pub mod hex;
pub mod line;
pub mod reading;
mod reply;

use given::Given;
use std::alloc::{AllocError, Global};

// The last line of a text may lack its newline.
fn without_newline(part: &[u8]) -> &[u8]
    ensures { result.now ≡ without_newline part.now }
{
    part.strip_suffix(b"\n").unwrap_or(part)
}

// The answers to the lines of a text.
pub fn answers(heap: Global, text: &[u8]) -> Result<Vec<u8>, AllocError>
    ensures { IfOk result (λ v. Replies nothing (lines_of text.now) v.items) }
{
    let mut out = Vec::new(heap);
    let mut given = Given::default();
    for part in text.split_inclusive(|c| *c == b'\n') {
        given.answer(without_newline(part), heap, &mut out)?;
    }
    Ok(out)
}
