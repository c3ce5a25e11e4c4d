use block::Block;

// The mode after some blocks: the mixing state, the mask of the next input and of the next output, the sum of the
// blocks, and how many of them there were since the last check.
// Opening keeps the same blocks, but counts the checks, and steps the other way: one type for both would have to be
// public in elmd, for four fields and one `new`.
#[derive(Clone, Copy)]
pub(crate) struct Running {
    pub(crate) w: Block,
    pub(crate) mask: Block,
    pub(crate) out_mask: Block,
    pub(crate) sum: Block,
    pub(crate) since: usize,
}
