ghost use Rattle.std.specs.Prelude.{◌^◌, ◌<◌};

// Sixteen bytes as two halves of 64 bits, the first byte highest.
#[derive(Clone, Copy)]
pub struct Block {
    pub hi: u64,
    pub lo: u64,
    ghost ok: { (hi < 2 ^ 64) × (lo < 2 ^ 64) },
}
