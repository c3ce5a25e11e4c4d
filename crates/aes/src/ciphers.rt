// One cipher for each key schedule and variant: the schedule keeps the key, and the variant says the rest.
ghost use Rattle.std.specs.Prelude.{◌≡◌, ℕ};
ghost use Rattle.block.specs.Bytes.{of_bytes};
ghost use Rattle.block.specs.Value.{value};

use crate::variant::Variant;
use block::Block;
use cipher::Cipher;
use std::marker::PhantomData;

// The round keys of a key, however they are kept, and the rounds under them.
pub trait KeySchedule {
    ghost key: { Self → ℕ };

    fn new(bytes: &[u8; 16]) -> Self
        ensures { key result ≡ of_bytes bytes.now };

    fn encrypt<V: Variant>(&self, b: Block) -> Block
        ensures { value result ≡ (V.meaning (key self.now)).enc (value b) };

    fn decrypt<V: Variant>(&self, b: Block) -> Block
        ensures { value result ≡ (V.meaning (key self.now)).dec (value b) };
}

#[derive(Drop)]
pub struct Aes<S, V> {
    schedule: S,
    variant: PhantomData<V>,
}

impl<S: KeySchedule, V: Variant> Aes<S, V> {
    pub fn new(key: &[u8; 16]) -> Aes<S, V>
        ensures { ⟦<Aes<S, V> as Cipher>⟧.meaning result ≡ V.meaning (of_bytes key.now) }
    {
        Aes {
            schedule: S::new(key),
            variant: PhantomData,
        }
    }
}

impl<S: KeySchedule, V: Variant> Cipher for Aes<S, V> {
    ghost meaning = { λ s. V.meaning (S.key s.schedule) };

    ghost lawful = { λ s. V.lawful (S.key s.schedule) };

    fn encrypt(&mut self, b: Block) -> Block {
        self.schedule.encrypt::<V>(b)
    }

    fn decrypt(&mut self, b: Block) -> Block {
        self.schedule.decrypt::<V>(b)
    }

    fn label(&mut self) -> u8 {
        V::LABEL
    }

    fn is_double(&mut self) -> bool {
        V::DOUBLE
    }
}
