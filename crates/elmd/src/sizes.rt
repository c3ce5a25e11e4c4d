// Lengths and marks.
ghost use Rattle.std.specs.Prelude.{◌≡◌, ℕ, pred, ◌/◌, ◌%◌, List, length, IfOk, if◌then◌else◌, nat_eq};
ghost use Rattle.block.specs.Value.{value};
ghost use Rattle.elmd.specs.Stream.{Frame, stream};
ghost use Rattle.elmd.specs.Refusals.{mark_of};
ghost use Rattle.elmd.specs.Settings.{settings_bytes};
ghost use Rattle.elmd.specs.Sizes.{length_answer, last_mask};

use crate::refusal::{Mark, Refusal};
use crate::settings::Settings;
use block::Block;

pub const MESSAGE_MOST: usize = 16_777_216;

impl Mark {
    // The mark of a message of `n` bytes.
    pub fn of_length(n: usize) -> Mark
        ensures { result ≡ mark_of (if nat_eq (n % 16) 0 then 1 else 0) }
    {
        if n % 16 == 0 {
            Mark::Whole
        } else {
            Mark::Filled
        }
    }

    // The mask of the last two inputs, from the one that a block in their place would have.
    pub fn last_mask(self, mask: Block) -> Block
        ensures { value result ≡ last_mask self (value mask) }
    {
        match self {
            Mark::Whole => mask,
            Mark::Filled => mask.halve().times7(),
        }
    }
}

impl Settings {
    // How long the stream of a message of `n` bytes is.
    pub fn stream_length(self, n: usize) -> Result<usize, Refusal>
        ensures answer { result ≡ length_answer self n }
        ensures exact { (u : Frame) (m : List ℕ) → settings_bytes self ≡ u.settings → length m ≡ n → IfOk result (λ k. length (stream u m) ≡ k) }
    {
        if n == 0 || n > MESSAGE_MOST {
            return Err(Refusal::MessageLength);
        }
        let l = (n + 15) / 16;
        let h = checks_in(l, usize::from(self.interval));
        Ok(16 * (l + h) + tag_length(self.short_tag, n - 16 * (l - 1)))
    }
}

// How many checks stand in a stream of `l` blocks.
pub fn checks_in(l: usize, t: usize) -> usize
    ensures { result ≡ pred l / t }
{
    if t == 0 { 0 } else { l.saturating_sub(1) / t }
}

// How many bytes of the tag stand in a stream whose last block has `last` bytes.
pub fn tag_length(short: bool, last: usize) -> usize
    ensures { result ≡ (if short then last else 16) }
{
    if short { last } else { 16 }
}
