// AES with a key of 128 bits by tables of column products: the plain ciphers' meaning, and many times their speed.
// Which entries are read depends on secret bytes, so that what a cache shows of them may tell of the key.
#![tactic(auto)]

ghost use Rattle.std.specs.Prelude.{◌≡◌};
ghost use Rattle.block.specs.Bytes.{of_bytes};
ghost use Rattle.aes.specs.Fips197.{aes10, aes6};

use aes::{Aes, Six, Ten};
use cipher::Cipher;

mod columns;
mod direction;
mod rounds;
mod schedule;
mod td;
mod te;

pub use schedule::Schedule;

pub type FastAes10 = Aes<Schedule, Ten>;

pub type FastAes6 = Aes<Schedule, Six>;

// Both ciphers under one key, which mean what the plain ones mean.
pub fn both(key: &[u8; 16]) -> (FastAes10, FastAes6)
    ensures ten { ⟦<FastAes10 as Cipher>⟧.meaning result.0 ≡ aes10 (of_bytes key.now) }
    ensures six { ⟦<FastAes6 as Cipher>⟧.meaning result.1 ≡ aes6 (of_bytes key.now) }
{
    (FastAes10::new(key), FastAes6::new(key))
}

#[cfg(test)]
mod tests {
    use super::*;
    use aes::{Aes6, Aes10};
    use block::Block;
    use cipher::Cipher;

    fn does<C: Cipher>(c: &mut C, plain: Block, enciphered: Block) -> bool {
        c.encrypt(plain) == enciphered && c.decrypt(enciphered) == plain
    }

    // FIPS 197, appendices B and C.1: the ciphertext, and the state at the start of round 7.
    #[test]
    fn fips_197(rt: HostRuntime) {
        let key = Block::new(0x2b7e151628aed2a6, 0xabf7158809cf4f3c).to_bytes();
        let plain = Block::new(0x3243f6a8885a308d, 0x313198a2e0370734);
        let ten = Block::new(0x3925841d02dc09fb, 0xdc118597196a0b32);
        let six = Block::new(0x260e2e173d41b77d, 0xe86472a9fdd28b25);
        assert!(rt; does(&mut FastAes10::new(&key), plain, ten));
        assert!(rt; does(&mut FastAes6::new(&key), plain, six));
        let key = Block::new(0x0001020304050607, 0x08090a0b0c0d0e0f).to_bytes();
        let plain = Block::new(0x0011223344556677, 0x8899aabbccddeeff);
        let ten = Block::new(0x69c4e0d86a7b0430, 0xd8cdb78070b4c55a);
        let six = Block::new(0xc62fe109f75eedc3, 0xcc79395d84f9cf5d);
        assert!(rt; does(&mut FastAes10::new(&key), plain, ten));
        assert!(rt; does(&mut FastAes6::new(&key), plain, six));
    }

    // Three hundred blocks, each what the one before was enciphered to, both ways by either cipher.
    fn agrees<C: Cipher, D: Cipher>(fast: &mut C, plain: &mut D) -> bool {
        let mut b = Block::new(0, 0);
        let mut same = true;
        for _ in 0..300 {
            let e = fast.encrypt(b);
            same = same && e == plain.encrypt(b) && fast.decrypt(b) == plain.decrypt(b);
            b = e;
        }
        same
    }

    #[test]
    fn as_plain(rt: HostRuntime) {
        let key = Block::new(0x0f1e2d3c4b5a6978, 0x8796a5b4c3d2e1f0).to_bytes();
        assert!(rt; agrees(&mut FastAes10::new(&key), &mut Aes10::new(&key)));
        assert!(rt; agrees(&mut FastAes6::new(&key), &mut Aes6::new(&key)));
    }
}
