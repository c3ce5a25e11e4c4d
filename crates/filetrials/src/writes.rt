// Files written.
use crate::answers::{self, UNTOUCHED, all, refusal};
use crate::case::{array, bytes, cipher, room, word};
use anyhow::anyhow;
use labelled::LabelledCipher;
use payfile::write::write_file;
use std::alloc::Global;

#[derive(Drop)]
pub(crate) struct WriteCase {
    cipher: LabelledCipher,
    shed: u32,
    week: u32,
    settings: [u8; 8],
    nonce: [u8; 8],
    message: Vec<u8>,
    room: usize,
}

impl WriteCase {
    pub(crate) fn read(heap: Global, line: &str) -> anyhow::Result<(WriteCase, &str)> {
        let words: Vec<&str> = line.splitn(9, ' ').collect(heap)?;
        let words = words.as_slice();
        let fault = "a field that has not eight bytes";
        let case = WriteCase {
            cipher: cipher(heap, word(words, 0), word(words, 1))?,
            shed: word(words, 2).parse()?,
            week: word(words, 3).parse()?,
            settings: array(heap, word(words, 4), fault)?,
            nonce: array(heap, word(words, 5), fault)?,
            message: bytes(heap, word(words, 6))?,
            room: room(word(words, 7))?,
        };
        Ok((case, word(words, 8)))
    }

    pub(crate) fn answer(&mut self, heap: Global) -> anyhow::Result<String> {
        let mut out = vec![in heap; UNTOUCHED; self.room]?;
        let written = write_file(
            &mut self.cipher,
            self.shed,
            self.week,
            &self.settings,
            &self.nonce,
            self.message.as_slice(),
            out.as_mut_slice(),
        );
        let left = out.as_slice();
        match written {
            Ok(n) if n <= left.len() && all(&left[n..], UNTOUCHED) => {
                Ok(answers::bytes(heap, "F ", &left[..n])?)
            }
            Ok(_) => Err(anyhow!("bytes behind a file are not as they were")),
            Err(why) if all(left, UNTOUCHED) => Ok(refusal(heap, why)?),
            Err(_) => Err(anyhow!("a refused write changed the output")),
        }
    }
}
