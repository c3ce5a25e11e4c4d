ghost use Rattle.opening.specs.Reading.{Unread};

use block::Block;
use elmd::refusal::Mark;
use elmd::settings::Settings;
use elmd::shape::Shape;

// What is known of a stream before it is read.
#[derive(Clone, Copy)]
pub(crate) struct Outline {
    pub(crate) settings: Settings,
    pub(crate) shape: Shape,
    pub(crate) mark: Mark,
}

// The mode run back over some blocks: the mixing state, the mask of the next input and of the next output, the sum of
// the blocks, and how many checks there were.
// Sealing keeps the same blocks, but counts those since a check, and steps the other way: one type for both would have to
// be public in elmd, for four fields and one `new`.
#[derive(Clone, Copy)]
pub(crate) struct Reading {
    pub(crate) w: Block,
    pub(crate) mask: Block,
    pub(crate) out_mask: Block,
    pub(crate) sum: Block,
    pub(crate) checks: usize,
}

impl Reading {
    // Before the first block: the masks come from the cipher's base, the mixing state from the heading.
    pub(crate) fn new(base: Block, iv: Block) -> Reading
        ensures { Unread base iv result }
    {
        Reading {
            w: iv,
            mask: base,
            out_mask: base.times5(),
            sum: Block::new(0, 0),
            checks: 0,
        }
    }
}
