// AES with a key of 128 bits: the ten rounds of FIPS 197, and a variant of six full rounds.
#![tactic(auto)]

ghost use Rattle.std.specs.Prelude.{◌≡◌};
ghost use Rattle.block.specs.Bytes.{of_bytes};
ghost use Rattle.aes.specs.Fips197.{aes10, aes6};
ghost use Rattle.aes.specs.Vectors.{Meets, vectors10, vectors6};

use cipher::Cipher;

mod ciphers;
mod expansion;
mod key_schedule;
mod steps;
mod variant;

pub use ciphers::{Aes, KeySchedule};
pub use expansion::{Expansion, expand};
pub use key_schedule::Schedule;
pub use variant::{Six, Ten, Variant};

pub type Aes10 = Aes<Schedule, Ten>;

pub type Aes6 = Aes<Schedule, Six>;

// Both ciphers under one key, by their definitions.
pub fn both(key: &[u8; 16]) -> (Aes10, Aes6)
    ensures ten { ⟦<Aes10 as Cipher>⟧.meaning result.0 ≡ aes10 (of_bytes key.now) }
    ensures six { ⟦<Aes6 as Cipher>⟧.meaning result.1 ≡ aes6 (of_bytes key.now) }
{
    (Aes10::new(key), Aes6::new(key))
}

// The definitions give what FIPS 197 prints.
pub fn fips_vectors()
    ensures ten { Meets aes10 vectors10 }
    ensures six { Meets aes6 vectors6 }
{}

#[cfg(test)]
mod tests {
    use super::*;
    use block::Block;
    use cipher::Cipher;

    fn does<C: Cipher>(c: &mut C, plain: Block, enciphered: Block) -> bool {
        c.encrypt(plain) == enciphered && c.decrypt(enciphered) == plain
    }

    // FIPS 197, appendices B and C.1: the ciphertext, and the state at the start of round 7.
    #[test]
    fn fips_197(rt: HostRuntime) {
        let key = Block::new(0x2b7e151628aed2a6, 0xabf7158809cf4f3c).to_bytes();
        let plain = Block::new(0x3243f6a8885a308d, 0x313198a2e0370734);
        let ten = Block::new(0x3925841d02dc09fb, 0xdc118597196a0b32);
        let six = Block::new(0x260e2e173d41b77d, 0xe86472a9fdd28b25);
        assert!(rt; does(&mut Aes10::new(&key), plain, ten));
        assert!(rt; does(&mut Aes6::new(&key), plain, six));
        let key = Block::new(0x0001020304050607, 0x08090a0b0c0d0e0f).to_bytes();
        let plain = Block::new(0x0011223344556677, 0x8899aabbccddeeff);
        let ten = Block::new(0x69c4e0d86a7b0430, 0xd8cdb78070b4c55a);
        let six = Block::new(0xc62fe109f75eedc3, 0xcc79395d84f9cf5d);
        assert!(rt; does(&mut Aes10::new(&key), plain, ten));
        assert!(rt; does(&mut Aes6::new(&key), plain, six));
    }
}
