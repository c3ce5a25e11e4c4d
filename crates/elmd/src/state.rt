ghost use Rattle.std.specs.Prelude.{◌≤◌};

use crate::settings::Settings;
use block::Block;

// A heading that still takes pieces: the chain over its whole blocks, and the bytes of the block that is not whole yet.
// These lie in an array beside `len`, and in no Vec: the library takes no allocator, since a terminal's memory is fixed.
#[derive(Drop)]
pub struct OpenHeading {
    pub(crate) settings: Settings,
    pub(crate) base: Block,
    pub(crate) chain: Block,
    pub(crate) mask: Block,
    pub(crate) pending: [u8; 16],
    pub(crate) len: usize,
    ghost ok: { len ≤ 65536 },
}

// A heading that takes no more bytes: all that a seal needs of it.
#[derive(Drop)]
pub struct ClosedHeading {
    pub(crate) settings: Settings,
    pub(crate) base: Block,
    pub(crate) iv: Block,
}
