// Files opened.
use crate::answers::{self, UNTOUCHED, all, layered, zeros_then_untouched};
use crate::case::{bytes, cipher, room, word};
use anyhow::anyhow;
use elmd::refusal::Refusal;
use elmd::settings::Settings;
use labelled::LabelledCipher;
use payfile::open::open_file;
use payfile::read::read_front;
use payfile::refusal::FileRefusal;
use std::alloc::Global;

#[derive(Drop)]
pub(crate) struct OpenCase {
    cipher: LabelledCipher,
    file: Vec<u8>,
    room: usize,
}

impl OpenCase {
    pub(crate) fn read(heap: Global, line: &str) -> anyhow::Result<(OpenCase, &str)> {
        let words: Vec<&str> = line.splitn(5, ' ').collect(heap)?;
        let words = words.as_slice();
        let case = OpenCase {
            cipher: cipher(heap, word(words, 0), word(words, 1))?,
            file: bytes(heap, word(words, 2))?,
            room: room(word(words, 3))?,
        };
        Ok((case, word(words, 4)))
    }

    pub(crate) fn answer(&mut self, heap: Global) -> anyhow::Result<String> {
        let file = self.file.as_slice();
        let mut out = vec![in heap; UNTOUCHED; self.room]?;
        let opened = open_file(&mut self.cipher, file, out.as_mut_slice());
        let left = out.as_slice();
        match opened {
            Ok(n) if n <= left.len() && zeros_then_untouched(left, n, message_place(file)) => {
                Ok(answers::bytes(heap, "M ", &left[..n])?)
            }
            Ok(_) => Err(anyhow!("bytes behind a message are not as they should be")),
            Err(why) if left_rightly(why, file, left) => Ok(layered(heap, why)?),
            Err(_) => Err(anyhow!("a refused opening left other bytes than it should")),
        }
    }
}

// Sixteen times the blocks of the stream in a file.
fn laid_out(file: &[u8]) -> Result<usize, FileRefusal> {
    let front = read_front(file)?;
    let settings = Settings::read(&front.settings, front.settings[0])?;
    let shape = settings.shape(front.stream, front.mark)?;
    Ok(shape.blocks.saturating_mul(16))
}

// How much of the output is the message's, nothing where the file has no layout.
fn message_place(file: &[u8]) -> usize {
    laid_out(file).unwrap_or(0)
}

// What a refusal must leave: zeros in the message's place behind 38 and 40, all else as it was.
fn left_rightly(why: FileRefusal, file: &[u8], out: &[u8]) -> bool {
    match why {
        FileRefusal::Seal(Refusal::BadCheck(_) | Refusal::BadTag) => {
            zeros_then_untouched(out, 0, message_place(file))
        }
        _ => all(out, UNTOUCHED),
    }
}
