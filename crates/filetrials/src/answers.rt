// Our answers, in the words of the cases; and the bytes that a call must not touch.
use console::hex::put_hex;
use elmd::refusal::Refusal;
use payfile::refusal::FileRefusal;
use std::alloc::{AllocError, Global};

// What stands in an output before a call.
pub(crate) const UNTOUCHED: u8 = 0xa5;

pub(crate) fn refusal(heap: Global, why: FileRefusal) -> Result<String, AllocError> {
    format!(in heap; "R {}", u8::from(why))
}

// With the layer, and with the check that is bad.
pub(crate) fn layered(heap: Global, why: FileRefusal) -> Result<String, AllocError> {
    let number = u8::from(why);
    match why {
        FileRefusal::File(_) => format!(in heap; "R {number} file"),
        FileRefusal::Seal(Refusal::BadCheck(j)) => format!(in heap; "R {number} seal {j}"),
        FileRefusal::Seal(_) => format!(in heap; "R {number} seal"),
    }
}

// A letter, and bytes as digits. Tried: a type that prints itself, by `write!` of each byte and by `write_char` of each digit. Both
// took half as long again for a long file.
pub(crate) fn bytes(heap: Global, letter: &str, bytes: &[u8]) -> Result<String, AllocError> {
    let mut digits = Vec::new(heap);
    put_hex(&mut digits, bytes)?;
    let mut text = String::from_str(heap, letter)?;
    for d in &digits {
        text.push(char::from(*d))?;
    }
    Ok(text)
}

// As in `trials`: it is one line, and the two programs share no crate.
pub(crate) fn all(bytes: &[u8], value: u8) -> bool {
    bytes.iter().all(|b| *b == value)
}

// Whether a place holds zeros from `from` to `to`, and behind them what was there before.
pub(crate) fn zeros_then_untouched(out: &[u8], from: usize, to: usize) -> bool {
    match (out.get(from..to), out.get(to..)) {
        (Some(place), Some(rest)) => all(place, 0) && all(rest, UNTOUCHED),
        _ => false,
    }
}
