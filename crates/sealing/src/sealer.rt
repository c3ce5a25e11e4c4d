// A seal in parts: the message comes in pieces, and the stream goes out as its blocks become whole.
ghost use Rattle.std.specs.Prelude.{◌≡◌, ◌+◌, ◌-◌, ◌*◌, ◌≤◌, length, take, drop};
ghost use Rattle.elmd.specs.Refusals.{told};
ghost use Rattle.sealing.specs.Handing.{begin_answer, sealed_blocks, put_answer, finish_answer};
ghost use Rattle.sealing.specs.Sealer.{bare, Begun, handed, gained, unsealed, Carried, Put, Handed, Grows, Finished, Ended};

use crate::begun::Sealer;
use crate::state::Running;
use block::Block;
use cipher::Cipher;
use elmd::refusal::{Mark, Refusal};
use elmd::sizes::{MESSAGE_MOST, checks_in, tag_length};
use elmd::state::ClosedHeading;

impl Sealer {
    // Begins the seal of `n` bytes, or hands the heading back.
    pub fn begin(h: ClosedHeading, n: usize) -> Result<Sealer, (Refusal, ClosedHeading)>
        ensures answer { told (bare result) ≡ begin_answer n }
        ensures begun { Begun h n result }
    {
        if n == 0 || n > MESSAGE_MOST {
            return Err((Refusal::MessageLength, h));
        }
        let (settings, base, iv) = h.into_parts();
        Ok(Sealer {
            settings,
            n,
            k: 0,
            running: Running::new(base, iv),
            pending: [0; 16],
        })
    }

    // Takes a piece whole and writes what it makes ready, or refuses it and changes nothing.
    pub fn put<C: Cipher>(
        &mut self,
        c: &mut C,
        piece: &[u8],
        out: &mut [u8],
    ) -> Result<usize, Refusal>
        ensures answer { result ≡ put_answer self.old.settings.interval self.old.n self.old.k (length piece.now) (length out.old) }
        ensures effect { Put self.old (length piece.now) out.old result self.new out.new }
        ensures bytes { Handed (C.Cipher.meaning c.old) self.old piece.now result self.new out.new }
        ensures same { C.Cipher.meaning c.new ≡ C.Cipher.meaning c.old }
    {
        if piece.len() > self.n - self.k {
            return Err(Refusal::PieceTooLong);
        }
        let size = self.handed_over(self.k + piece.len()) - self.handed_over(self.k);
        if out.len() < size {
            return Err(Refusal::OutputShort);
        }
        self.push_all(c, piece, out);
        Ok(size)
    }

    // Writes the rest of the stream once all bytes are in, or hands the seal back.
    pub fn finish<C: Cipher>(
        self,
        c: &mut C,
        out: &mut [u8],
    ) -> Result<(usize, Mark), (Refusal, Sealer)>
        ensures answer { bare result ≡ finish_answer self.settings.interval self.settings.short_tag self.n self.k (length out.old) }
        ensures effect { Finished self out.old result out.new }
        ensures bytes { Ended (C.Cipher.meaning c.old) self result out.new }
        ensures same { C.Cipher.meaning c.new ≡ C.Cipher.meaning c.old }
    {
        if self.k < self.n {
            return Err((Refusal::BytesMissing, self));
        }
        let held = self.unsealed();
        let tag = tag_length(self.settings.short_tag, held);
        if out.len() < 16 + tag {
            return Err((Refusal::OutputShort, self));
        }
        let Sealer {
            settings: _,
            n,
            k: _,
            running,
            pending,
        } = self;
        let mark = Mark::of_length(n);
        running.write_end(c, mark, Block::load(&pending[..held], 0), tag, out);
        Ok((16 + tag, mark))
    }

    // Gives the seal up: answers how many bytes were in.
    pub fn abandon(self) -> usize
        ensures { result ≡ self.k }
    {
        let accepted = self.k;
        let Sealer {
            settings: _,
            n: _,
            k: _,
            running: _,
            pending: _,
        } = self;
        accepted
    }

    // How many blocks are sealed when `k` bytes are in; the last waits for the end.
    fn sealed_blocks(&self, k: usize) -> usize
        ensures { result ≡ sealed_blocks self.now.n k }
    {
        (k / 16).min((self.n - 1) / 16)
    }

    // How many bytes of the stream are handed over then.
    fn handed_over(&self, k: usize) -> usize
        ensures { result ≡ handed self.now k }
    {
        let q = self.sealed_blocks(k);
        16 * (q + checks_in(q + 1, usize::from(self.settings.interval)))
    }

    // How many bytes are in that are not sealed.
    fn unsealed(&self) -> usize
        ensures { result ≡ unsealed self.now }
    {
        self.k - 16 * self.sealed_blocks(self.k)
    }

    // Takes bytes that stay within the block begun, and seals it where it is whole and not the last. Answers how many
    // bytes it wrote.
    fn push<C: Cipher>(&mut self, c: &mut C, part: &[u8], out: &mut [u8]) -> usize
        requires stated { self.old.k + length part.now ≤ self.old.n }
        requires within { unsealed self.old + length part.now ≤ 16 }
        requires room { gained self.old (length part.now) ≤ length out.old }
        ensures carried { Carried self.old self.new (length part.now) }
        ensures size { result ≡ gained self.old (length part.now) }
        ensures back { drop result out.new ≡ drop result out.old }
        ensures grows { Grows (C.Cipher.meaning c.old) self.old part.now self.new (take result out.new) }
        ensures same { C.Cipher.meaning c.new ≡ C.Cipher.meaning c.old }
    {
        let fill = self.unsealed();
        let k = self.k + part.len();
        let whole = self.sealed_blocks(k) > self.sealed_blocks(self.k);
        self.pending[fill..fill + part.len()].copy_from_slice(part);
        self.k = k;
        if !whole {
            return 0;
        }
        let b = Block::from_bytes(&self.pending);
        self.running
            .seal_block(c, usize::from(self.settings.interval), b, out)
    }

    // Takes a piece block by block, and writes what it makes ready at the start of `out`.
    fn push_all<C: Cipher>(&mut self, c: &mut C, piece: &[u8], out: &mut [u8])
        requires stated { self.old.k + length piece.now ≤ self.old.n }
        requires room { gained self.old (length piece.now) ≤ length out.old }
        ensures carried { Carried self.old self.new (length piece.now) }
        ensures back { drop (gained self.old (length piece.now)) out.new ≡ drop (gained self.old (length piece.now)) out.old }
        ensures grows { Grows (C.Cipher.meaning c.old) self.old piece.now self.new (take (gained self.old (length piece.now)) out.new) }
        ensures same { C.Cipher.meaning c.new ≡ C.Cipher.meaning c.old }
    {
        let (first, rest) = piece.split_at((16 - self.unsealed()).min(piece.len()));
        let mut at = self.push(c, first, out);
        for part in rest.chunks(16) {
            at += self.push(c, part, &mut out[at..]);
        }
    }
}
