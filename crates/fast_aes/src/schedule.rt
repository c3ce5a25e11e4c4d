// The round keys, worked out once per key: those of encryption, and InvMixColumns of each for decryption.
ghost use Rattle.std.specs.Prelude.{◌≡◌, ◌<◌};
ghost use Rattle.block.specs.Bytes.{bytes_of, of_bytes};
ghost use Rattle.block.specs.Value.{value};
ghost use Rattle.aes.specs.Fips197.{inv_rounds, inv_shift_rows, inv_sub_bytes, key_schedule};
ghost use Rattle.fast_aes.specs.Words.{key_in, spread, spreads, unmixes};

use super::columns::turn;
use super::rounds::{
    State, add_key, inv_last_round, join, last_round, run_inv_rounds, run_rounds, split, unmix,
};
use aes::{Expansion, KeySchedule, Variant, expand};
use block::Block;

// Two arrays, and none of pairs: the rounds of each direction run over a slice of one of them.
#[derive(Drop)]
pub struct Schedule {
    keys: [State; 11],
    inv_keys: [State; 11],
    ghost expanded: { spreads keys ≡ key_schedule (bytes_of (key_in keys)) },
    ghost unmixed: { spreads inv_keys ≡ unmixes keys },
}

impl Expansion for Schedule {
    type Key = State;

    ghost bytes = { spread };

    fn next_key(rc: u8, k: State) -> State {
        let a = k[0] ^ turn(rc, k[3]);
        let b = k[1] ^ a;
        let c = k[2] ^ b;
        let d = k[3] ^ c;
        [a, b, c, d]
    }
}

fn unmix_all(keys: &[State; 11]) -> [State; 11]
    ensures { spreads result ≡ unmixes keys.now }
{
    // Tried: `map`. It moves each key more than once, and working out the keys took a seventh more instructions.
    let mut inv_keys = [[0; 4]; 11];
    for (i, inv_key) in inv_keys.iter_mut().enumerate() {
        *inv_key = unmix(keys[i]);
    }
    inv_keys
}

impl Schedule {
    // From the state before InvShiftRows and InvSubBytes on.
    fn finish(&self, n: usize, s: State) -> State
        requires { n < 11 }
        ensures { spread result ≡ inv_rounds (spreads self.now.keys) n (inv_sub_bytes (inv_shift_rows (spread s))) }
    {
        let end = run_inv_rounds(&self.inv_keys[1..=n], s);
        inv_last_round(&self.keys[0], end)
    }
}

impl KeySchedule for Schedule {
    ghost key = { λ s. key_in s.keys };

    fn new(bytes: &[u8; 16]) -> Schedule {
        let keys = expand::<Schedule>(split(Block::from_bytes(bytes)));
        let inv_keys = unmix_all(&keys);
        Schedule { keys, inv_keys }
    }

    // Only the order of the calls is the plain schedule's: the states differ, and decryption takes other keys.
    fn encrypt<V: Variant>(&self, b: Block) -> Block {
        let start = add_key(&self.keys[0], split(b));
        let s = run_rounds(&self.keys[1..=V::ROUNDS], start);
        let out = if V::LAST {
            last_round(&self.keys[V::ROUNDS + 1], s)
        } else {
            s
        };
        join(out)
    }

    fn decrypt<V: Variant>(&self, b: Block) -> Block {
        let s = split(b);
        let out = if V::LAST {
            self.finish(V::ROUNDS, add_key(&self.keys[V::ROUNDS + 1], s))
        } else {
            self.finish(V::ROUNDS - 1, unmix(add_key(&self.keys[V::ROUNDS], s)))
        };
        join(out)
    }
}
