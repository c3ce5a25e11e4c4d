// The round keys, worked out once per key, and the rounds under them.
ghost use Rattle.std.specs.Prelude.{◌≡◌, fold, reverse};
ghost use Rattle.block.specs.Bytes.{bytes_of, of_bytes};
ghost use Rattle.block.specs.Value.{value};
ghost use Rattle.aes.specs.Fips197.{dec, enc, inv_round, key_of, key_schedule, round, turned, xor_word};

use super::steps::{
    State, Word, add_round_key, full_round, inv_full_round, inv_last_round, join, last_round,
    word_at,
};
use super::{Expansion, KeySchedule, Variant, expand};
use block::Block;

#[derive(Drop)]
pub struct Schedule {
    keys: [State; 11],
    ghost ok: { keys ≡ key_schedule (bytes_of (key_of keys)) },
}

fn xor_word(a: Word, b: Word) -> Word
    ensures { result ≡ xor_word a b }
{
    [a[0] ^ b[0], a[1] ^ b[1], a[2] ^ b[2], a[3] ^ b[3]]
}

// The last word of a round key, rotated and substituted.
fn turn(rc: u8, k: State) -> Word
    ensures { result ≡ turned rc k }
{
    [
        gf256::sub(k[13]) ^ rc,
        gf256::sub(k[14]),
        gf256::sub(k[15]),
        gf256::sub(k[12]),
    ]
}

impl Expansion for Schedule {
    type Key = State;

    ghost bytes = { λ k. k };

    fn next_key(rc: u8, k: State) -> State {
        let a = xor_word(word_at(k, 0), turn(rc, k));
        let b = xor_word(word_at(k, 4), a);
        let c = xor_word(word_at(k, 8), b);
        let d = xor_word(word_at(k, 12), c);
        join(a, b, c, d)
    }
}

// A full round under each of the keys.
// Tried and not proved: a `fold`, as Speck has it. The check does not find what the closure answers where keys and state are arrays.
// The result goes through `t`, since the check covers no call that lays its result in an array that is already there.
fn run_rounds(keys: &[State], start: State) -> State
    ensures { result ≡ fold (λ s k. round k s) start keys.now }
{
    let mut s = start;
    for k in keys {
        let t = full_round(k, s);
        s = t;
    }
    s
}

fn run_inv_rounds(keys: &[State], end: State) -> State
    ensures { result ≡ fold (λ s k. inv_round k s) end (reverse keys.now) }
{
    let mut s = end;
    for k in keys.iter().rev() {
        let t = inv_full_round(k, s);
        s = t;
    }
    s
}

impl KeySchedule for Schedule {
    ghost key = { λ s. key_of s.keys };

    fn new(bytes: &[u8; 16]) -> Schedule {
        Schedule {
            keys: expand::<Schedule>(*bytes),
        }
    }

    // Only the order of the calls is that of the schedule by tables: its states differ, and its decryption takes other keys.
    fn encrypt<V: Variant>(&self, b: Block) -> Block {
        let start = add_round_key(&self.keys[0], b.to_bytes());
        let s = run_rounds(&self.keys[1..=V::ROUNDS], start);
        let out = if V::LAST {
            last_round(&self.keys[V::ROUNDS + 1], s)
        } else {
            s
        };
        Block::from_bytes(&out)
    }

    fn decrypt<V: Variant>(&self, b: Block) -> Block {
        let s = b.to_bytes();
        let t = if V::LAST {
            inv_last_round(&self.keys[V::ROUNDS + 1], s)
        } else {
            s
        };
        let end = run_inv_rounds(&self.keys[1..=V::ROUNDS], t);
        Block::from_bytes(&add_round_key(&self.keys[0], end))
    }
}
