// The blocks that an opener holds back, opened in their place and judged. Letting them go wipes them.
ghost use Rattle.std.specs.Prelude.{◌≡◌, ℕ, ◌+◌, ◌*◌, ◌<◌, ◌≤◌, length, take, replicate, MatchResult};
ghost use Rattle.elmd.specs.declared.refusal.Refusal.TheVariants.{BadCheck};
ghost use Rattle.opening.specs.Segment.{Runs, Segments, LetOut, Rests, WroteRest};

use crate::guard::Wipe;
use crate::judge_end;
use crate::state::{Outline, Reading};
use block::Block;
use cipher::Cipher;
use elmd::refusal::Refusal;

// Opens the blocks in their place.
fn open_run<C: Cipher>(c: &mut C, first: Reading, held: &mut [u8]) -> Reading
    ensures counts { result.checks ≡ first.checks }
    ensures runs { Runs (C.Cipher.meaning c.old) first held.old result held.new }
    ensures same { C.Cipher.meaning c.new ≡ C.Cipher.meaning c.old }
{
    let mut s = first;
    // By index: the proof over `chunks_exact_mut` doesn't close, since behind such a loop nothing is known of `held`.
    for i in 0..held.len() / 16 {
        let (next, b) = s.open_block(c, Block::load(held, 16 * i));
        b.store(held, 16 * i);
        s = next;
    }
    s
}

// Opens the `t` blocks before a check: where it is good they are let out.
pub(crate) fn judge_segment<C: Cipher>(
    c: &mut C,
    first: Reading,
    t: usize,
    held: &mut [u8],
    out: &mut [u8],
) -> Result<Reading, Refusal>
    requires { (first.checks < 1048577) × ((1 ≤ t) × ((16 * t + 16 ≤ length held.old) × (16 * t ≤ length out.old))) }
    ensures counts { MatchResult result (λ s. s.checks ≡ first.checks + 1) (λ why. why ≡ BadCheck (first.checks + 1)) }
    ensures wiped { held.new ≡ replicate (length held.old) 0 }
    ensures wrote { LetOut (16 * t) result out.old out.new }
    ensures judged { Segments (C.Cipher.meaning c.old) first t held.old result out.new }
    ensures same { C.Cipher.meaning c.new ≡ C.Cipher.meaning c.old }
{
    let n = 16 * t;
    let guard = Wipe { out: held };
    let held = &mut *guard.out;
    let s = open_run(c, first, &mut held[..n]);
    let check = Block::load(held, n);
    let s = s.pass_check(c, check)?;
    out[..n].copy_from_slice(&held[..n]);
    Ok(s)
}

// Opens the last `n` + 1 blocks, behind which the tag stands: where the end is right they are let out.
pub(crate) fn judge_rest<C: Cipher>(
    c: &mut C,
    first: Reading,
    outline: Outline,
    n: usize,
    held: &mut [u8],
    out: &mut [u8],
) -> Option<usize>
    requires { (n < outline.settings.interval) × ((outline.shape.tag ≤ 16) × ((16 * n + 16 + outline.shape.tag ≤ length held.old) × (16 * n + 16 ≤ length out.old))) }
    ensures wiped { held.new ≡ replicate (length held.old) 0 }
    ensures wrote { WroteRest result n out.old out.new }
    ensures judged { Rests (C.Cipher.meaning c.old) outline first n (take (16 * n + 16 + outline.shape.tag) held.old) result out.new }
    ensures same { C.Cipher.meaning c.new ≡ C.Cipher.meaning c.old }
{
    let at = 16 * n;
    let guard = Wipe { out: held };
    let held = &mut *guard.out;
    let s = open_run(c, first, &mut held[..at]);
    let end = &held[at..at + 16 + outline.shape.tag];
    let (last, k) = judge_end(c, s, outline, end)?;
    last.store(held, at);
    out[..at + k].copy_from_slice(&held[..at + k]);
    Some(at + k)
}
