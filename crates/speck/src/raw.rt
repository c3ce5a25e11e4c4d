ghost use Rattle.std.specs.Prelude.{◌≡◌, ℕ, ◌<◌, slice_index_or};
ghost use Rattle.speck.specs.Speck.{round_key};

use block::Block;

// Speck128/128 under one key, with the round keys worked out once. The key stays, since the meaning is told by it.
#[derive(Drop)]
pub struct Speck {
    pub(super) key: Block,
    pub(super) round_keys: [u64; 32],
    ghost scheduled: { (i : ℕ) → i < 32 → slice_index_or round_keys i 0 ≡ round_key (key.hi, key.lo) i },
}
