// Files read in parts.
use crate::answers::refusal;
use crate::case::{bytes, word};
use fileparts::part::Part;
use fileparts::reader::Reader;
use std::alloc::{AllocError, Global};

#[derive(Drop)]
pub(crate) struct PartsCase {
    file: Vec<u8>,
}

impl PartsCase {
    pub(crate) fn read(heap: Global, line: &str) -> anyhow::Result<(PartsCase, &str)> {
        let words: Vec<&str> = line.splitn(2, ' ').collect(heap)?;
        let words = words.as_slice();
        let case = PartsCase {
            file: bytes(heap, word(words, 0))?,
        };
        Ok((case, word(words, 1)))
    }

    pub(crate) fn answer(&self, heap: Global) -> anyhow::Result<String> {
        let reader = match Reader::new(self.file.as_slice()) {
            Ok(reader) => reader,
            Err(why) => return Ok(refusal(heap, why)?),
        };
        let mut text = String::new(heap);
        for part in reader {
            if !text.is_empty() {
                text.push_str(",")?;
            }
            text.push_str(shown(heap, part)?.as_str())?;
        }
        Ok(text)
    }
}

fn shown(heap: Global, part: Part<'_>) -> Result<String, AllocError> {
    let place = part.place();
    let n = part.bytes().len();
    match part {
        Part::Front { .. } => format!(in heap; "front:{place}:{n}"),
        Part::Heading { .. } => format!(in heap; "heading:{place}:{n}"),
        Part::Block { index, .. } => format!(in heap; "block{index}:{place}:{n}"),
        Part::Check { index, .. } => format!(in heap; "check{index}:{place}:{n}"),
        Part::Tag { .. } => format!(in heap; "tag:{place}:{n}"),
    }
}
