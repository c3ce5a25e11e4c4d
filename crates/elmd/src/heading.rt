// The heading: associated data in any pieces, bound into the value that a seal starts from.
ghost use Rattle.std.specs.Prelude.{◌≡◌, ℕ, ◌+◌, ◌<◌, ◌≤◌, [], ◌∷◌, ◌++◌, length, IfOk};
ghost use Rattle.block.specs.Value.{value};
ghost use Rattle.block.specs.Bytes.{of_bytes};
ghost use Rattle.elmd.specs.Stream.{Frame};
ghost use Rattle.elmd.specs.Refusals.{told};
ghost use Rattle.elmd.specs.Settings.{settings_answer};
ghost use Rattle.elmd.specs.Heading.{frame_of, more, Opens, Closes, add_answer, Added, Carried, Grows, Joined, last_link};

use crate::refusal::Refusal;
use crate::settings::Settings;
use crate::state::{ClosedHeading, OpenHeading};
use block::Block;
use cipher::{Cipher, base_block};

pub const HEADING_MOST: usize = 65536;

// The settings and the nonce are the chain's first block. They come alone: the heading comes in pieces, so there is no
// `Envelope` yet.
pub fn open_heading<C: Cipher>(
    c: &mut C,
    settings: &[u8; 8],
    nonce: &[u8; 8],
) -> Result<OpenHeading, Refusal>
    ensures answer { told result ≡ settings_answer (C.Cipher.meaning c.old).label settings.now }
    ensures stands { IfOk result (Opens (frame_of (C.Cipher.meaning c.old) settings.now nonce.now [])) }
    ensures same { C.Cipher.meaning c.new ≡ C.Cipher.meaning c.old }
{
    let label = c.label();
    let chosen = Settings::read(settings, label)?;
    let base = base_block(c);
    let first = first_block(nonce, settings);
    let chain = c.encrypt(first.xor(base.times3()));
    Ok(OpenHeading {
        settings: chosen,
        base,
        chain,
        mask: base,
        pending: [0; 16],
        len: 0,
    })
}

fn first_block(n: &[u8; 8], s: &[u8; 8]) -> Block
    ensures { value result ≡ of_bytes (n.now ++ s.now) }
{
    Block::new(u64::from_be_bytes(*n), u64::from_be_bytes(*s))
}

impl OpenHeading {
    // Takes a piece whole, or refuses it and changes nothing.
    pub fn add<C: Cipher>(&mut self, c: &mut C, piece: &[u8]) -> Result<(), Refusal>
        ensures answer { result ≡ add_answer self.old.len (length piece.now) }
        ensures effect { Added self.old (length piece.now) result self.new }
        ensures joined { Joined (C.Cipher.meaning c.old) self.old piece.now result self.new }
        ensures same { C.Cipher.meaning c.new ≡ C.Cipher.meaning c.old }
    {
        if piece.len() > HEADING_MOST - self.len {
            return Err(Refusal::HeadingLength);
        }
        self.push_all(c, piece);
        Ok(())
    }

    fn push<C: Cipher>(&mut self, c: &mut C, b: u8)
        requires { self.old.len < 65536 }
        ensures carried { Carried self.old self.new 1 }
        ensures grows { Grows (C.Cipher.meaning c.old) self.old (b ∷ []) self.new }
        ensures same { C.Cipher.meaning c.new ≡ C.Cipher.meaning c.old }
    {
        let fill = self.len % 16;
        let mut pending = self.pending;
        pending[fill] = b;
        self.pending = pending;
        self.len += 1;
        if fill == 15 {
            let mask = self.mask.double();
            let e = c.encrypt(Block::from_bytes(&pending).xor(mask.times3()));
            self.chain = e.xor(self.chain.double());
            self.mask = mask;
        }
    }

    fn push_all<C: Cipher>(&mut self, c: &mut C, piece: &[u8])
        requires { self.old.len + length piece.now ≤ 65536 }
        ensures carried { Carried self.old self.new (length piece.now) }
        ensures grows { Grows (C.Cipher.meaning c.old) self.old piece.now self.new }
        ensures same { C.Cipher.meaning c.new ≡ C.Cipher.meaning c.old }
    {
        for b in piece {
            self.push(c, *b);
        }
    }

    // No byte follows: a last block that is not whole is filled, and has a mask of its own.
    pub fn close<C: Cipher>(self, c: &mut C) -> ClosedHeading
        ensures kept { (result.settings ≡ self.settings) × (result.base ≡ self.base) }
        ensures stands { (u : Frame) → u.cipher ≡ C.Cipher.meaning c.old → Opens u self → Closes u result }
        ensures same { C.Cipher.meaning c.new ≡ C.Cipher.meaning c.old }
    {
        let OpenHeading {
            settings,
            base,
            chain,
            mask,
            pending,
            len,
        } = self;
        let fill = len % 16;
        if fill == 0 {
            return ClosedHeading {
                settings,
                base,
                iv: chain,
            };
        }
        let iv = last_link(c, chain, mask, &pending[0..fill]);
        ClosedHeading { settings, base, iv }
    }
}

fn last_link<C: Cipher>(c: &mut C, chain: Block, mask: Block, tail: &[u8]) -> Block
    ensures value { value result ≡ last_link (C.Cipher.meaning c.old) (value chain) (value mask) tail.now }
    ensures same { C.Cipher.meaning c.new ≡ C.Cipher.meaning c.old }
{
    let last = Block::load(tail, 0);
    let e = c.encrypt(last.xor(mask.times7().times3()));
    e.xor(chain.double())
}

impl ClosedHeading {
    pub fn settings(&self) -> Settings
        ensures { result ≡ self.now.settings }
    {
        self.settings
    }

    pub fn into_parts(self) -> (Settings, Block, Block)
        ensures { result ≡ (self.settings, self.base, self.iv) }
    {
        let ClosedHeading { settings, base, iv } = self;
        (settings, base, iv)
    }
}
