// The block cipher Speck128/128. Its time depends on neither the key nor the block.
#![tactic(auto)]

ghost use Rattle.std.specs.Prelude.{◌≡◌, true, reverse};
ghost use Rattle.std.specs.List.{fold};
ghost use Rattle.block.specs.Value.{value, value_lt};
ghost use Rattle.speck.specs.Speck.{round, unround, speck, vector_key, vector_plaintext, vector_ciphertext, Published};
ghost use Rattle.speck.specs.Held.{meaning_of};
ghost use Rattle.speck.specs.Rounds.{speck_lawful};

use block::Block;
use cipher::Cipher;

mod raw;

pub use raw::Speck;

impl Speck {
    pub fn new(key: Block) -> Speck
        ensures { meaning_of result ≡ speck (value key) }
    {
        let mut round_keys = [0u64; 32];
        let mut words = (key.hi, key.lo);
        for (i, round_key) in round_keys.iter_mut().enumerate() {
            *round_key = words.1;
            words = rounded(i as u64, words);
        }
        Speck { key, round_keys }
    }
}

impl Cipher for Speck {
    ghost meaning = { meaning_of };

    ghost lawful = { λ s. speck_lawful (value s.key) (value_lt s.key) };

    fn encrypt(&mut self, b: Block) -> Block {
        let (x, y) = encrypted_words(&self.round_keys, (b.hi, b.lo));
        Block::new(x, y)
    }

    fn decrypt(&mut self, b: Block) -> Block {
        let (x, y) = decrypted_words(&self.round_keys, (b.hi, b.lo));
        Block::new(x, y)
    }

    fn label(&mut self) -> u8 {
        32
    }

    fn is_double(&mut self) -> bool {
        false
    }
}

// Whether the designers' test vector comes out right, both ways.
pub fn self_test() -> bool
    ensures published { Published }
    ensures passes { result ≡ true }
{
    let (key, plaintext, ciphertext) = test_vector();
    let mut speck = Speck::new(key);
    let forth = speck.encrypt(plaintext);
    let back = speck.decrypt(ciphertext);
    (forth == ciphertext) & (back == plaintext)
}

fn test_vector() -> (Block, Block, Block)
    ensures key { value result.0 ≡ vector_key }
    ensures plaintext { value result.1 ≡ vector_plaintext }
    ensures ciphertext { value result.2 ≡ vector_ciphertext }
{
    (
        Block::new(0x0f0e0d0c0b0a0908, 0x0706050403020100),
        Block::new(0x6c61766975716520, 0x7469206564616d20),
        Block::new(0xa65d985179783265, 0x7860fedf5c570d18),
    )
}

fn encrypted_words(keys: &[u64; 32], words: (u64, u64)) -> (u64, u64)
    ensures { result ≡ fold (λ s k. round k s) words keys.now }
{
    keys.iter().fold(words, |s, k| rounded(*k, s))
}

// The inverse undoes the rounds from the last on, so it folds the other way, by another step.
fn decrypted_words(keys: &[u64; 32], words: (u64, u64)) -> (u64, u64)
    ensures { result ≡ fold (λ s k. unround k s) words (reverse keys.now) }
{
    keys.iter().rev().fold(words, |s, k| unrounded(*k, s))
}

fn rounded(k: u64, s: (u64, u64)) -> (u64, u64)
    ensures { result ≡ round k s }
{
    let x = s.0.rotate_right(8).wrapping_add(s.1) ^ k;
    (x, s.1.rotate_left(3) ^ x)
}

fn unrounded(k: u64, s: (u64, u64)) -> (u64, u64)
    ensures { result ≡ unround k s }
{
    let y = (s.1 ^ s.0).rotate_right(3);
    ((s.0 ^ k).wrapping_sub(y).rotate_left(8), y)
}

#[cfg(test)]
mod tests {
    use super::*;

    #[test]
    fn published_vector(rt: HostRuntime) {
        assert!(rt; self_test());
    }
}
