ghost use Rattle.std.specs.Prelude.{◌≡◌, ◌+◌, ◌*◌, ◌/◌, ◌≤◌};
ghost use Rattle.sealing.specs.Handing.{sealed_blocks};

use crate::state::Running;
use elmd::settings::Settings;

// A begun seal of `n` bytes, `k` of which are in; `pending` holds those that are not sealed yet. It is not `Drop`: what is
// begun is finished or abandoned.
// A terminal has no heap: the block begun has a fixed place, and how much of it is filled follows from `k`.
pub struct Sealer {
    pub(crate) settings: Settings,
    pub(crate) n: usize,
    pub(crate) k: usize,
    pub(crate) running: Running,
    pub(crate) pending: [u8; 16],
    ghost some: { 1 ≤ n },
    ghost most: { n ≤ 16777216 },
    ghost within: { k ≤ n },
    ghost counts: { sealed_blocks n k ≡ sealed_blocks n k / settings.interval * settings.interval + running.since },
}
