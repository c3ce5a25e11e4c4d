// All blocks of a stream but the last.
ghost use Rattle.std.specs.Prelude.{◌≡◌, ℕ, ◌+◌, ◌*◌, ◌/◌, ◌<◌, ◌≤◌, length, take, IfOk};
ghost use Rattle.opening.specs.Judging.{Fronts};

use crate::state::Reading;
use block::Block;
use cipher::Cipher;
use elmd::refusal::Refusal;

impl Reading {
    // Opens the first `p` blocks into `out`, up to the first check that does not hold.
    // It takes no outline: of one it needs two numbers, and its clauses speak of these.
    pub(crate) fn open_front<C: Cipher>(
        self,
        c: &mut C,
        t: usize,
        stream: &[u8],
        p: usize,
        out: &mut [u8],
    ) -> Result<Reading, Refusal>
        requires { (self.checks ≡ 0) × ((p < 16777216) × ((16 * (p + p / t) ≤ length stream.now) × (16 * p ≤ length out.old))) }
        ensures counts { IfOk result (λ s. s.checks ≡ p / t) }
        ensures fronts { Fronts (C.Cipher.meaning c.old) self t stream.now p result (take (16 * p) out.new) }
        ensures same { C.Cipher.meaning c.new ≡ C.Cipher.meaning c.old }
    {
        let mut s = self;
        // The mode's own count, as sealing keeps it: a remainder by `t` would need a case for no checks.
        let mut since = 0;
        // The index gives the block's place in the output and, with the checks before it, another in the stream: an
        // iterator over either would leave the other to count.
        for i in 0..p {
            let at = 16 * (i + s.checks);
            let (next, b) = s.open_block(c, Block::load(stream, at));
            b.store(out, 16 * i);
            s = next;
            since += 1;
            if since == t {
                let check = Block::load(stream, at + 16);
                s = s.pass_check(c, check)?;
                since = 0;
            }
        }
        Ok(s)
    }
}
