// A case, read from its line: a letter, what the call is given, and the answer that is expected.
use crate::opens::OpenCase;
use crate::parts::PartsCase;
use crate::writes::WriteCase;
use anyhow::Context;
use console::hex::from_hex;
use labelled::LabelledCipher;
use std::alloc::Global;

// An enum, since a function may not hand out a boxed `dyn`.
#[derive(Drop)]
pub(crate) enum Case {
    Write(WriteCase),
    Open(OpenCase),
    Parts(PartsCase),
}

impl Case {
    // The case of a line with the answer that is expected; none where the line is a remark.
    pub(crate) fn read(heap: Global, line: &str) -> anyhow::Result<Option<(Case, &str)>> {
        let (letter, rest) = line.split_once(' ').unwrap_or((line, ""));
        // Each arm by `?`: `map` with a closure for the pair would take as many lines.
        match letter {
            "W" => {
                let (case, answer) = WriteCase::read(heap, rest)?;
                Ok(Some((Case::Write(case), answer)))
            }
            "O" => {
                let (case, answer) = OpenCase::read(heap, rest)?;
                Ok(Some((Case::Open(case), answer)))
            }
            "P" => {
                let (case, answer) = PartsCase::read(heap, rest)?;
                Ok(Some((Case::Parts(case), answer)))
            }
            _ => Ok(None),
        }
    }

    // Our answer, or what is wrong with the output.
    pub(crate) fn answer(&mut self, heap: Global) -> anyhow::Result<String> {
        match self {
            Case::Write(case) => case.answer(heap),
            Case::Open(case) => case.answer(heap),
            Case::Parts(case) => case.answer(heap),
        }
    }
}

// A line that is cut short has empty words, and is judged like any other.
pub(crate) fn word<'a>(words: &[&'a str], i: usize) -> &'a str {
    words.get(i).copied().unwrap_or("")
}

// Bytes as digits; a dash stands for none.
pub(crate) fn bytes(heap: Global, digits: &str) -> anyhow::Result<Vec<u8>> {
    if digits == "-" {
        return Ok(Vec::new(heap));
    }
    from_hex(heap, digits.as_bytes())?.context("a field that is not hexadecimal")
}

pub(crate) fn array<const N: usize>(
    heap: Global,
    digits: &str,
    fault: &'static str,
) -> anyhow::Result<[u8; N]> {
    bytes(heap, digits)?
        .as_slice()
        .as_array()
        .copied()
        .context(fault)
}

// A label of a case may be above a byte: no cipher has it, and the key is judged first.
pub(crate) fn cipher(heap: Global, label: &str, key: &str) -> anyhow::Result<LabelledCipher> {
    let key = array(heap, key, "a key that has not sixteen bytes")?;
    let named = match u8::try_from(label.parse::<u32>()?) {
        Ok(label) => LabelledCipher::for_label(label, &key),
        Err(_) => None,
    };
    named.context("a cipher that is not there")
}

// The room that a call gets.
pub(crate) fn room(digits: &str) -> anyhow::Result<usize> {
    Ok(digits.parse::<u32>()? as usize)
}
