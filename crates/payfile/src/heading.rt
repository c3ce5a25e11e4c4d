ghost use Rattle.std.specs.Prelude.{◌≤◌};

// The heading of a pay file: at most four digits of the shed's number, and then two of the week's.
// The terminals have no heap, so the digits stand in a fixed place with their number beside it.
#[derive(Clone, Copy)]
pub struct FileHeading {
    pub(crate) digits: [u8; 6],
    pub(crate) len: usize,
    ghost ok: { len ≤ 6 },
}
