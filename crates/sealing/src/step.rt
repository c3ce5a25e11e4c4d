// Blocks of a message, and its end.
ghost use Rattle.std.specs.Prelude.{◌≡◌, ◌+◌, ◌*◌, ◌/◌, ◌<◌, ◌≤◌, ◌++◌, length, take, drop, if◌then◌else◌, nat_eq};
ghost use Rattle.block.specs.Value.{value};
ghost use Rattle.block.specs.Bytes.{bytes_of};
ghost use Rattle.elmd.specs.Sizes.{stride};
ghost use Rattle.sealing.specs.Running.{Starts, Steps, Fronts, end_blocks, Ends};

use crate::state::Running;
use block::{Block, mixed};
use cipher::Cipher;
use elmd::refusal::Mark;

// Each call writes at the start of `out`, and `back` says that the rest stays: a name for this would be no shorter.
impl Running {
    // Before the first block, from L and the IV of a heading.
    pub(crate) fn new(base: Block, iv: Block) -> Running
        ensures starts { Starts (value base) (value iv) result }
        ensures fresh { result.since ≡ 0 }
    {
        Running {
            w: iv,
            mask: base,
            out_mask: base.times5(),
            sum: Block::new(0, 0),
            since: 0,
        }
    }

    // Seals a block that is not the last: writes it at the start of `out`, and the check behind it where one is due, and
    // answers how many bytes these are. The interval `t` is the settings', and no part of the running state.
    pub(crate) fn seal_block<C: Cipher>(
        &mut self,
        c: &mut C,
        t: usize,
        b: Block,
        out: &mut [u8],
    ) -> usize
        requires count { self.old.since < 16777216 }
        requires room { stride t self.old.since ≤ length out.old }
        ensures size { result ≡ stride t self.old.since }
        ensures since { self.new.since ≡ (if nat_eq (self.old.since + 1) t then 0 else self.old.since + 1) }
        ensures back { drop result out.new ≡ drop result out.old }
        ensures steps { Steps (C.Cipher.meaning c.old) self.old t (value b) self.new (take result out.new) }
        ensures same { C.Cipher.meaning c.new ≡ C.Cipher.meaning c.old }
    {
        let (y, w) = mixed(c.encrypt(b.xor(self.mask)), self.w);
        c.decrypt(y).xor(self.out_mask).store(out, 0);
        let next = Running {
            w,
            mask: self.mask.double(),
            out_mask: self.out_mask.double(),
            sum: self.sum.xor(b),
            since: self.since + 1,
        };
        if next.since != t {
            *self = next;
            return 16;
        }
        c.decrypt(w).xor(next.out_mask).store(out, 16);
        *self = Running {
            out_mask: next.out_mask.double(),
            since: 0,
            ..next
        };
        32
    }

    // Seals the blocks of `front`, none of which is the last, and answers how many bytes it wrote.
    pub(crate) fn seal_front<C: Cipher>(
        &mut self,
        c: &mut C,
        t: usize,
        front: &[u8],
        out: &mut [u8],
    ) -> usize
        requires fresh { self.old.since ≡ 0 }
        requires most { length front.now ≤ 16777216 }
        requires room { 16 * (length front.now / 16 + length front.now / 16 / t) ≤ length out.old }
        ensures size { result ≡ 16 * (length front.now / 16 + length front.now / 16 / t) }
        ensures within { result ≤ length out.old }
        ensures back { drop result out.new ≡ drop result out.old }
        ensures runs { Fronts (C.Cipher.meaning c.old) self.old t front.now (length front.now / 16) self.new (take result out.new) }
        ensures same { C.Cipher.meaning c.new ≡ C.Cipher.meaning c.old }
    {
        let mut at = 0;
        for part in front.chunks_exact(16) {
            at += self.seal_block(c, t, Block::load(part, 0), &mut out[at..]);
        }
        at
    }

    // The last block's place in the stream, and the tag.
    fn end_blocks<C: Cipher>(self, c: &mut C, mark: Mark, sum: Block) -> (Block, Block)
        ensures value { (value result.0, value result.1) ≡ end_blocks (C.Cipher.meaning c.old) mark (value self.w) (value self.mask) (value self.out_mask) (value sum) }
        ensures same { C.Cipher.meaning c.new ≡ C.Cipher.meaning c.old }
    {
        let (y, w) = mixed(c.encrypt(sum.xor(mark.last_mask(self.mask))), self.w);
        let last = c.decrypt(y).xor(self.out_mask);
        let (z, _) = mixed(c.encrypt(sum.xor(mark.last_mask(self.mask.double()))), w);
        let tag = c
            .decrypt(z.xor(Block::new(0, 1)))
            .xor(self.out_mask.double());
        (last, tag)
    }

    // Ends a stream at the start of `out`, from its last block with its filling, with `size` bytes of the tag.
    pub(crate) fn write_end<C: Cipher>(
        self,
        c: &mut C,
        mark: Mark,
        b: Block,
        size: usize,
        out: &mut [u8],
    )
        requires size { size ≤ 16 }
        requires room { 16 + size ≤ length out.old }
        ensures back { drop (16 + size) out.new ≡ drop (16 + size) out.old }
        ensures ends { Ends (C.Cipher.meaning c.old) self mark (value b) size (take (16 + size) out.new) }
        ensures same { C.Cipher.meaning c.new ≡ C.Cipher.meaning c.old }
    {
        let (last, tag) = self.end_blocks(c, mark, self.sum.xor(b));
        last.store(out, 0);
        out[16..16 + size].copy_from_slice(&tag.to_bytes()[..size]);
    }
}
