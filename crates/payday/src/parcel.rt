// A sealed file on its way, and where its parts stand.
use elmd::envelope::Envelope;
use elmd::refusal::Mark;
use elmd::shape::Shape;
use elmd::sizes::checks_in;

// All that an opening is given besides the cipher.
#[derive(Clone, Drop)]
pub(crate) struct Parcel<'a> {
    pub(crate) envelope: Envelope<'a>,
    pub(crate) stream: Vec<u8>,
    pub(crate) mark: Mark,
}

impl Parcel<'_> {
    // Turns the lowest bit of a byte of the stream.
    pub(crate) fn turn(&mut self, at: usize) {
        if let Some(byte) = self.stream.get_mut(at) {
            *byte ^= 1;
        }
    }

    // Puts the blocks that begin at these two bytes in each other's place.
    pub(crate) fn swap_blocks(&mut self, a: usize, b: usize) {
        let (blocks, _) = self.stream.as_chunks_mut::<16>();
        if a / 16 < blocks.len() && b / 16 < blocks.len() {
            blocks.swap(a / 16, b / 16);
        }
    }

    pub(crate) fn cut(&mut self, bytes: usize) {
        let n = self.stream.len();
        self.stream.truncate(n.saturating_sub(bytes));
    }
}

// At which bytes the parts of a stream begin. Blocks and checks are counted from 1.
#[derive(Clone, Copy)]
pub(crate) struct Plan {
    pub(crate) interval: usize,
    pub(crate) shape: Shape,
}

impl Plan {
    pub(crate) fn block(self, i: usize) -> usize {
        let before = i
            .saturating_sub(1)
            .saturating_add(checks_in(i, self.interval));
        before.saturating_mul(16)
    }

    pub(crate) fn check(self, j: usize) -> usize {
        let before = j.saturating_mul(self.interval).saturating_add(j);
        before.saturating_sub(1).saturating_mul(16)
    }

    pub(crate) fn tag(self) -> usize {
        let before = self.shape.blocks.saturating_add(self.shape.checks);
        before.saturating_mul(16)
    }
}
