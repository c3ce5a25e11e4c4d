// Reads what a line says.
ghost use Rattle.std.specs.Prelude.{◌≡◌, IfOk, vec_items, option_map, ok_or};
ghost use Rattle.console.specs.Commands.{bytes_in, field, sized, stream_command, read_line, command_read};
ghost use Rattle.console.specs.declared.line.LineFault.TheVariants.{Malformed};

use crate::hex::from_hex;
use crate::line::{Line, LineFault};
use elmd::refusal::Mark;
use std::alloc::{AllocError, Global};

const MESSAGE_MOST: usize = 4096;

// Digits, or a dash for no bytes.
fn bytes_in(heap: Global, digits: &[u8]) -> Result<Option<Vec<u8>>, AllocError>
    ensures { IfOk result (λ o. option_map vec_items o ≡ bytes_in digits.now) }
{
    match digits {
        [] => Ok(None),
        [b'-'] => Ok(Some(Vec::new(heap))),
        _ => from_hex(heap, digits),
    }
}

// One space, and digits or a dash.
fn field(heap: Global, rest: &[u8]) -> Result<Option<Vec<u8>>, AllocError>
    ensures { IfOk result (λ o. option_map vec_items o ≡ field rest.now) }
{
    match rest {
        [b' ', digits @ ..] => bytes_in(heap, digits),
        _ => Ok(None),
    }
}

fn array<const N: usize>(bytes: Option<Vec<u8>>) -> Option<[u8; N]>
    ensures { result ≡ sized N N (option_map vec_items bytes) }
{
    bytes?.as_slice().as_array().copied()
}

fn message(bytes: Option<Vec<u8>>) -> Option<Vec<u8>>
    ensures { option_map vec_items result ≡ sized 1 4096 (option_map vec_items bytes) }
{
    bytes.filter(|m| !m.is_empty() && m.len() <= MESSAGE_MOST)
}

// One space, the mark, and the stream as a field.
fn stream(heap: Global, rest: &[u8]) -> Result<Option<Line>, AllocError>
    ensures { IfOk result (λ o. command_read (ok_or o Malformed) ≡ stream_command rest.now) }
{
    // Both digits are spelled out, as the letters are: the bench matches literals.
    let (mark, digits) = match rest {
        [b' ', b'0', digits @ ..] => (Mark::Filled, digits),
        [b' ', b'1', digits @ ..] => (Mark::Whole, digits),
        _ => return Ok(None),
    };
    Ok(field(heap, digits)?.map(|stream| Line::Stream(mark, stream)))
}

// What a line says.
pub fn read_line(heap: Global, line: &[u8]) -> Result<Result<Line, LineFault>, AllocError>
    ensures { IfOk result (λ r. command_read r ≡ read_line line.now) }
{
    let Some((letter, rest)) = line.split_first() else {
        return Ok(Err(LineFault::UnknownLetter));
    };
    let line = match *letter {
        b'K' => array(field(heap, rest)?).map(Line::Key),
        b'N' => array(field(heap, rest)?).map(Line::Nonce),
        b'P' => array(field(heap, rest)?).map(Line::Settings),
        b'H' => field(heap, rest)?.map(Line::Heading),
        b'M' => message(field(heap, rest)?).map(Line::Message),
        b'B' => array(field(heap, rest)?).map(Line::Block),
        b'S' => stream(heap, rest)?,
        _ => return Ok(Err(LineFault::UnknownLetter)),
    };
    Ok(line.ok_or(LineFault::Malformed))
}
