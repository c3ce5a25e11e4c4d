// A block cipher by its meaning, and the paper cipher.
#![tactic(auto)]

ghost use Rattle.std.specs.Prelude.{◌≡◌, ◌+◌, ◌%◌, ◌^◌};
ghost use Rattle.block.specs.Value.{value, value_lt};
ghost use Rattle.cipher.specs.Meaning.{Meaning, Lawful, base, paper};
ghost use Rattle.cipher.specs.Paper.{paper_lawful};

use block::Block;

// Every call answers and keeps the meaning; an implementation may count, cache or drive a device. So the calls take `&mut`,
// and each function of the crates above that calls a cipher promises that its meaning stays: the clause `same`.
pub trait Cipher {
    ghost meaning: { Self → Meaning };

    fn encrypt(&mut self, b: Block) -> Block
        ensures value { value result ≡ (meaning self.old).enc (value b) }
        ensures same { meaning self.new ≡ meaning self.old };

    fn decrypt(&mut self, b: Block) -> Block
        ensures value { value result ≡ (meaning self.old).dec (value b) }
        ensures same { meaning self.new ≡ meaning self.old };

    // A byte, and no enum: a label is a byte of the settings, any byte may stand there, and `for_label` makes the kind of it.
    fn label(&mut self) -> u8
        ensures value { result ≡ (meaning self.old).label }
        ensures same { meaning self.new ≡ meaning self.old };

    fn is_double(&mut self) -> bool
        ensures value { result ≡ (meaning self.old).double }
        ensures same { meaning self.new ≡ meaning self.old };

    ghost lawful: { (s : Self) → Lawful (meaning s) };
}

// L, from which every mask is made.
#[tactic(auto, unfolding(crate::specs::Meaning::base, block::specs::Value::value))]
pub fn base_block<C: Cipher>(c: &mut C) -> Block
    ensures value { value result ≡ base (C.Cipher.meaning c.old) }
    ensures same { C.Cipher.meaning c.new ≡ C.Cipher.meaning c.old }
{
    let once = c.encrypt(Block::new(0, 0));
    if c.is_double() { c.encrypt(once) } else { once }
}

// A cipher to work by hand with: xor with the key. It keeps nothing secret.
#[derive(Drop)]
pub struct PaperCipher {
    pub key: Block,
}

impl Cipher for PaperCipher {
    ghost meaning = { λ s. paper (value s.key) };

    ghost lawful = { λ s. paper_lawful (value s.key) (value_lt s.key) };

    fn encrypt(&mut self, b: Block) -> Block {
        b.xor(self.key)
    }

    fn decrypt(&mut self, b: Block) -> Block {
        b.xor(self.key)
    }

    fn label(&mut self) -> u8 {
        255
    }

    fn is_double(&mut self) -> bool {
        false
    }
}

// Any cipher, with a count of its calls of E and D.
#[derive(Drop)]
pub struct Counting<C: Cipher> {
    pub inner: C,
    pub calls: u64,
}

impl<C: Cipher> Cipher for Counting<C> {
    ghost meaning = { λ s. C.Cipher.meaning s.inner };

    ghost lawful = { λ s. C.Cipher.lawful s.inner };

    // One text for this and `decrypt` would take the inner call as a closure, and be longer.
    fn encrypt(&mut self, b: Block) -> Block
        ensures value { value result ≡ (C.Cipher.meaning self.old.inner).enc (value b) }
        ensures same { C.Cipher.meaning self.new.inner ≡ C.Cipher.meaning self.old.inner }
        ensures counted { self.new.calls ≡ (self.old.calls + 1) % 2 ^ 64 }
    {
        self.calls = self.calls.wrapping_add(1);
        self.inner.encrypt(b)
    }

    fn decrypt(&mut self, b: Block) -> Block
        ensures value { value result ≡ (C.Cipher.meaning self.old.inner).dec (value b) }
        ensures same { C.Cipher.meaning self.new.inner ≡ C.Cipher.meaning self.old.inner }
        ensures counted { self.new.calls ≡ (self.old.calls + 1) % 2 ^ 64 }
    {
        self.calls = self.calls.wrapping_add(1);
        self.inner.decrypt(b)
    }

    fn label(&mut self) -> u8 {
        self.inner.label()
    }

    fn is_double(&mut self) -> bool {
        self.inner.is_double()
    }
}
