ghost use Rattle.std.specs.Prelude.{◌<◌};

// What a seal is made with: the cipher's label, the interval t of its checks (none at 0), and f, by which
// the tag is cut to the length of the last block.
#[derive(Clone, Copy)]
pub struct Settings {
    pub label: u8,
    pub interval: u8,
    pub short_tag: bool,
    ghost ok: { interval < 128 },
}
