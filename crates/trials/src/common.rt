// What the trials share.
use block::Block;
use cipher::PaperCipher;
use elmd::settings::Settings;
use std::alloc::{AllocError, Global};
use std::iter::successors;

// What an output holds before a call, so that it is seen what the call wrote.
pub(crate) const BLANK: u8 = 0x2e;

// The paper cipher under the key of these two halves.
pub(crate) fn paper(hi: u64, lo: u64) -> PaperCipher {
    PaperCipher {
        key: Block::new(hi, lo),
    }
}

// `n` bytes that differ from their neighbours.
pub(crate) fn bytes(heap: Global, n: usize) -> Result<Vec<u8>, AllocError> {
    successors(Some(1u8), |x| Some(x.wrapping_mul(5).wrapping_add(7)))
        .take(n)
        .collect(heap)
}

// Settings with each of the intervals, first for the whole tag and then for the short one.
pub(crate) fn settings_of(
    heap: Global,
    label: u8,
    intervals: &[u8],
) -> anyhow::Result<Vec<Settings>> {
    let mut all = Vec::new(heap);
    for t in intervals {
        all.push(Settings::new(label, *t, false)?)?;
        all.push(Settings::new(label, *t, true)?)?;
    }
    Ok(all)
}

// How many blocks a message of `n` bytes has.
pub(crate) fn blocks_of(n: usize) -> usize {
    n.div_ceil(16)
}

// How many checks stand in a stream of `l` blocks: one behind each `t`, and none behind the last block.
pub(crate) fn checks_of(l: usize, t: usize) -> usize {
    if t == 0 { 0 } else { l.wrapping_sub(1) / t }
}

// The length of the stream of `n` message bytes, by the two formulas of the format.
pub(crate) fn stream_of(n: usize, settings: Settings) -> usize {
    let l = blocks_of(n);
    let h = checks_of(l, usize::from(settings.interval));
    if settings.short_tag {
        n.wrapping_add(16).wrapping_add(h.wrapping_mul(16))
    } else {
        l.wrapping_add(1).wrapping_add(h).wrapping_mul(16)
    }
}

// Whether every byte is the given one.
pub(crate) fn all_are(s: &[u8], b: u8) -> bool {
    s.iter().all(|x| *x == b)
}

// Whether an output begins with the given bytes, then has zeros up to `end`, and is blank from there on.
pub(crate) fn holds(out: &[u8], front: &[u8], end: usize) -> bool {
    let (Some(written), Some(rest)) = (out.get(..end), out.get(end..)) else {
        return false;
    };
    written
        .strip_prefix(front)
        .is_some_and(|zeros| all_are(zeros, 0) && all_are(rest, BLANK))
}
