// The last block of a message and the tag, judged.
ghost use Rattle.std.specs.Prelude.{◌≡◌, ℕ, ◌+◌, ◌-◌, ◌<◌, ◌≤◌, ◌++◌, length, take, drop, replicate, if◌then◌else◌, Some, None, Decides, MatchOption, nat_eq};
ghost use Rattle.block.specs.Value.{value};
ghost use Rattle.block.specs.Bytes.{bytes_of, padded};
ghost use Rattle.elmd.specs.Refusals.{mark_number};
ghost use Rattle.opening.specs.Last.{Begins80, Ending};

use crate::state::Outline;
use block::Block;
use elmd::refusal::Mark;
use elmd::sizes::tag_length;

// How many message bytes stand before the filling, 80 and zeros, where there are 1 to 15.
fn filling_start(v: &[u8; 16]) -> Option<usize>
    ensures { MatchOption result ((k : ℕ) → Begins80 v.now k → ⊥) (Begins80 v.now) }
{
    let k = v.iter().rposition(|&x| x != 0)?;
    (k > 0 && v[k] == 0x80).then_some(k)
}

// How many message bytes the last block has, where block, mark and length of the tag go together.
pub(crate) fn message_bytes(last: Block, outline: Outline) -> Option<usize>
    ensures { MatchOption result ((k : ℕ) → Ending (bytes_of (value last)) (mark_number outline.mark) outline.settings.short_tag outline.shape.tag k → ⊥) (Ending (bytes_of (value last)) (mark_number outline.mark) outline.settings.short_tag outline.shape.tag) }
{
    match outline.mark {
        Mark::Whole => fitting(16, outline),
        Mark::Filled => {
            let v = last.to_bytes();
            let k = filling_start(&v)?;
            fitting(k, outline)
        }
    }
}

fn fitting(k: usize, outline: Outline) -> Option<usize>
    ensures { result ≡ (if nat_eq (if outline.settings.short_tag then k else 16) outline.shape.tag then Some k else None) }
{
    (tag_length(outline.settings.short_tag, k) == outline.shape.tag).then_some(k)
}

// Whether `end` are the first bytes of the tag; in the same time wherever they differ.
pub(crate) fn tag_matches(tag: Block, end: &[u8]) -> bool
    requires { length end.now ≤ 16 }
    ensures { Decides result (take (length end.now) (bytes_of (value tag)) ≡ end.now) }
{
    let bytes = tag.to_bytes();
    let mut diff = 0;
    for (a, b) in bytes.iter().zip(end) {
        diff |= a ^ b;
    }
    diff == 0
}

// Writes the message bytes of the last block, and zeros in the place of its filling.
pub(crate) fn put_last(out: &mut [u8], at: usize, last: Block, k: usize)
    requires { (at + 16 ≡ length out.old) × ((k ≤ 16) × (padded (take k (bytes_of (value last))) ≡ bytes_of (value last))) }
    ensures { out.new ≡ take at out.old ++ (take k (bytes_of (value last)) ++ replicate (16 - k) 0) }
{
    last.store(out, at);
    if k < 16 {
        out[at + k] = 0;
    }
}
