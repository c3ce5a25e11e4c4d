// Every proper prefix and every change of one byte of a stream is refused, and leaves zeros in place of its blocks.
use crate::common::{BLANK, all_are, blocks_of, bytes, checks_of, holds, settings_of};
use crate::desk::Desk;
use anyhow::{Context, ensure};
use block::Block;
use elmd::refusal::{Mark, Refusal};
use elmd::settings::Settings;
use speck::Speck;
use std::alloc::Global;

const SIZES: [usize; 3] = [1, 16, 33];

// A stream under trial, and where it is tried.
#[derive(Drop)]
struct Sample<'a> {
    desk: Desk<'a, Speck>,
    blocks: usize,
    stream: Vec<u8>,
    mark: Mark,
}

impl Sample<'_> {
    // The first check that a change of the byte at `at` spoils, or else last block and tag.
    fn foretold(&self, at: usize) -> Refusal {
        let t = usize::from(self.desk.settings.interval);
        let j = (at / 16) / t.saturating_add(1) + 1;
        if j <= checks_of(self.blocks, t) {
            Refusal::BadCheck(j)
        } else {
            Refusal::BadTag
        }
    }

    fn turn(&mut self, at: usize, x: u8) {
        if let Some(b) = self.stream.get_mut(at) {
            *b ^= x;
        }
    }

    // Tries the stream with one byte changed to another value.
    fn change(&mut self, at: usize, x: u8) -> anyhow::Result<()> {
        let end = self.blocks.saturating_mul(16);
        self.turn(at, x);
        let (answer, out) = self
            .desk
            .opened(self.stream.as_slice(), self.mark, end.saturating_add(2))?;
        self.turn(at, x);
        ensure!(
            answer == Err(self.foretold(at)),
            "a changed stream judged otherwise"
        );
        ensure!(
            holds(out.as_slice(), b"", end),
            "a changed stream left something"
        );
        Ok(())
    }

    // Tries each of the 255 other values of a byte, and answers how many it tried.
    fn changes(&mut self, at: usize) -> anyhow::Result<usize> {
        for x in 1..=u8::MAX {
            self.change(at, x)?;
        }
        Ok(usize::from(u8::MAX))
    }

    // A front of the stream has the checks in their places, so that it is only its end that is bad.
    fn front(&mut self, size: usize) -> anyhow::Result<()> {
        let part = self
            .stream
            .get(..size)
            .context("a stream of another length")?;
        let room = self.blocks.saturating_mul(16).saturating_add(2);
        let (answer, out) = self.desk.opened(part, self.mark, room)?;
        match self.desk.settings.shape(size, self.mark) {
            Ok(shape) => {
                ensure!(answer == Err(Refusal::BadTag), "a front judged otherwise");
                ensure!(
                    holds(out.as_slice(), b"", shape.blocks.saturating_mul(16)),
                    "a front left something"
                );
            }
            Err(_) => {
                ensure!(
                    answer == Err(Refusal::StreamLength),
                    "a length judged otherwise"
                );
                ensure!(all_are(out.as_slice(), BLANK), "a refused length wrote");
            }
        }
        Ok(())
    }
}

// How many fronts and changes of the stream of `n` bytes were tried.
fn tried(heap: Global, settings: Settings, n: usize) -> anyhow::Result<(usize, usize)> {
    let mut cipher = Speck::new(Block::new(0x0011223344556677, 0x8899aabbccddeeff));
    let mut desk = Desk {
        heap,
        cipher: &mut cipher,
        settings,
        heading: b"123",
    };
    let message = bytes(heap, n)?;
    let (stream, mark) = desk.sealed(message.as_slice())?;
    let size = stream.len();
    let mut sample = Sample {
        desk,
        blocks: blocks_of(n),
        stream,
        mark,
    };
    // A loop: a `sum` must be proved to fit, and a `try_fold` would carry the `?` and the saturating sum in its closure.
    let mut changes = 0usize;
    // The place is what is tried, no index into a walk.
    for at in 0..size {
        sample.front(at)?;
        changes = changes.saturating_add(sample.changes(at)?);
    }
    Ok((size, changes))
}

fn tried_under(rt: &HostRuntime, settings: Settings) -> anyhow::Result<()> {
    // A loop, for the same reason as in `tried`.
    let (mut fronts, mut changes) = (0usize, 0usize);
    for n in &SIZES {
        let (more, changed) = tried(rt.alloc(), settings, *n)?;
        fronts = fronts.saturating_add(more);
        changes = changes.saturating_add(changed);
    }
    let t = settings.interval;
    let f = u8::from(settings.short_tag);
    println!(rt; "  t {t}, f {f}: {fronts} fronts, {changes} changes")?;
    Ok(())
}

pub(crate) fn run(rt: &HostRuntime) -> anyhow::Result<()> {
    println!(rt; "Fronts and changes of one byte, Speck128/128: all refused, zeros left")?;
    let all = settings_of(rt.alloc(), 32, &[0, 1, 2])?;
    for settings in &all {
        tried_under(rt, *settings)?;
    }
    Ok(())
}
