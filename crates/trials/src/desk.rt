// Sealing and opening under trial: more room than is needed, and a byte less.
use crate::common::{BLANK, all_are, stream_of};
use anyhow::ensure;
use cipher::Cipher;
use elmd::envelope::Envelope;
use elmd::refusal::{Mark, Refusal};
use elmd::settings::Settings;
use opening::open;
use sealing::seal;
use std::alloc::Global;

const NONCE: [u8; 8] = [1, 2, 3, 4, 5, 6, 7, 8];

// What a call is tried with: a cipher, settings and a heading.
#[derive(Drop)]
pub(crate) struct Desk<'a, C> {
    pub(crate) heap: Global,
    pub(crate) cipher: &'a mut C,
    pub(crate) settings: Settings,
    pub(crate) heading: &'a [u8],
}

impl<'a, C: Cipher> Desk<'a, C> {
    fn envelope(&self) -> Envelope<'a> {
        Envelope {
            settings: self.settings.to_bytes(),
            nonce: NONCE,
            heading: self.heading,
        }
    }

    // The stream and mark of a message, sealed into more room than it needs; and a byte less than it needs is refused.
    pub(crate) fn sealed(&mut self, message: &[u8]) -> anyhow::Result<(Vec<u8>, Mark)> {
        let size = stream_of(message.len(), self.settings);
        let (refused, short) = self.seal(message, size.saturating_sub(1))?;
        ensure!(
            refused == Err(Refusal::OutputShort),
            "a stream in too little room"
        );
        ensure!(all_are(short.as_slice(), BLANK), "a refused seal wrote");
        let (answer, mut out) = self.seal(message, size.saturating_add(5))?;
        let mark = Mark::of_length(message.len());
        ensure!(answer == Ok((size, mark)), "another length or mark");
        ensure!(
            out.get(size..).is_some_and(|rest| all_are(rest, BLANK)),
            "a seal wrote behind its stream"
        );
        out.truncate(size);
        Ok((out, mark))
    }

    // Seals into `room` bytes, and answers what came and what the output holds.
    // Apart from `opened`: the calls differ, in what they are given and in what they answer.
    fn seal(
        &mut self,
        message: &[u8],
        room: usize,
    ) -> anyhow::Result<(Result<(usize, Mark), Refusal>, Vec<u8>)> {
        let mut out = vec![in self.heap; BLANK; room]?;
        let envelope = self.envelope();
        let answer = seal(self.cipher, &envelope, message, out.as_mut_slice());
        Ok((answer, out))
    }

    // Opens into `room` bytes, and answers what came and what the output holds.
    pub(crate) fn opened(
        &mut self,
        stream: &[u8],
        mark: Mark,
        room: usize,
    ) -> anyhow::Result<(Result<usize, Refusal>, Vec<u8>)> {
        let mut out = vec![in self.heap; BLANK; room]?;
        let envelope = self.envelope();
        let answer = open(self.cipher, &envelope, stream, mark, out.as_mut_slice());
        Ok((answer, out))
    }
}
