// One block of a stream, one check, and the end.
ghost use Rattle.std.specs.Prelude.{◌≡◌, ℕ, ◌+◌, ◌<◌, MatchResult};
ghost use Rattle.block.specs.Value.{value};
ghost use Rattle.elmd.specs.declared.refusal.Refusal.TheVariants.{BadCheck};
ghost use Rattle.opening.specs.Reading.{Steps, Passes, last_pair};

use crate::state::Reading;
use block::{Block, mixed, unmixed};
use cipher::Cipher;
use elmd::refusal::{Mark, Refusal};

impl Reading {
    // Opens a block that is not the last.
    pub(crate) fn open_block<C: Cipher>(self, c: &mut C, block: Block) -> (Reading, Block)
        ensures counts { result.0.checks ≡ self.checks }
        ensures steps { Steps (C.Cipher.meaning c.old) self (value block) result.0 (value result.1) }
        ensures same { C.Cipher.meaning c.new ≡ C.Cipher.meaning c.old }
    {
        let y = c.encrypt(block.xor(self.out_mask));
        let (x, w) = unmixed(y, self.w);
        let b = c.decrypt(x).xor(self.mask);
        let next = Reading {
            w,
            mask: self.mask.double(),
            out_mask: self.out_mask.double(),
            sum: self.sum.xor(b),
            ..self
        };
        (next, b)
    }

    // Judges the check that stands behind the blocks.
    pub(crate) fn pass_check<C: Cipher>(self, c: &mut C, check: Block) -> Result<Reading, Refusal>
        requires { self.checks < 16777216 }
        ensures counts { MatchResult result (λ next. next.checks ≡ self.checks + 1) (λ why. why ≡ BadCheck (self.checks + 1)) }
        ensures passes { Passes (C.Cipher.meaning c.old) self (value check) result }
        ensures same { C.Cipher.meaning c.new ≡ C.Cipher.meaning c.old }
    {
        let checks = self.checks + 1;
        if c.decrypt(self.w).xor(self.out_mask) != check {
            return Err(Refusal::BadCheck(checks));
        }
        Ok(Reading {
            out_mask: self.out_mask.double(),
            checks,
            ..self
        })
    }

    // The last block with its filling, and the tag that belongs to it.
    pub(crate) fn open_last<C: Cipher>(self, c: &mut C, mark: Mark, block: Block) -> (Block, Block)
        ensures value { (value result.0, value result.1) ≡ last_pair (C.Cipher.meaning c.old) mark (value self.w) (value self.mask) (value self.out_mask) (value self.sum) (value block) }
        ensures same { C.Cipher.meaning c.new ≡ C.Cipher.meaning c.old }
    {
        let y = c.encrypt(block.xor(self.out_mask));
        let (x, w) = unmixed(y, self.w);
        let sum = c.decrypt(x).xor(mark.last_mask(self.mask));
        let (z, _) = mixed(c.encrypt(sum.xor(mark.last_mask(self.mask.double()))), w);
        let tag = c
            .decrypt(z.xor(Block::new(0, 1)))
            .xor(self.out_mask.double());
        (self.sum.xor(sum), tag)
    }
}
