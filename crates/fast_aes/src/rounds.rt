// Rounds on a state of four words, a column to a word.
ghost use Rattle.std.specs.Prelude.{◌≡◌, fold, reverse};
ghost use Rattle.block.specs.Bytes.{bytes_of, of_bytes};
ghost use Rattle.block.specs.Value.{value};
ghost use Rattle.aes.specs.Fips197.{add_round_key, inv_mix_columns, inv_shift_rows, inv_sub_bytes, last_round, round};
ghost use Rattle.fast_aes.specs.Words.{inv_turn, spread};

use super::columns::{mixed, substituted, unmixed};
use super::td::Back;
use super::te::Forth;
use block::Block;

pub(super) type State = [u32; 4];

// No `From` for this and `join`: neither type is this crate's own.
pub(super) fn split(b: Block) -> State
    ensures { spread result ≡ bytes_of (value b) }
{
    [
        (b.hi >> 32) as u32,
        (b.hi & 0xffff_ffff) as u32,
        (b.lo >> 32) as u32,
        (b.lo & 0xffff_ffff) as u32,
    ]
}

pub(super) fn join(s: State) -> Block
    ensures { value result ≡ of_bytes (spread s) }
{
    Block::new(
        (s[0] as u64) << 32 | s[1] as u64,
        (s[2] as u64) << 32 | s[3] as u64,
    )
}

pub(super) fn add_key(k: &State, s: State) -> State
    ensures { spread result ≡ add_round_key (spread k.now) (spread s) }
{
    [s[0] ^ k[0], s[1] ^ k[1], s[2] ^ k[2], s[3] ^ k[3]]
}

pub(super) fn unmix(s: State) -> State
    ensures { spread result ≡ inv_mix_columns (spread s) }
{
    s.map(unmixed)
}

// A full round under each of the keys.
// Four variables, and not an array, so that the compiler keeps the state in registers.
pub(super) fn run_rounds(keys: &[State], start: State) -> State
    ensures { spread result ≡ fold (λ s k. round (spread k) s) (spread start) keys.now }
{
    let [mut a, mut b, mut c, mut d] = start;
    for k in keys {
        let e = mixed::<Forth>(a, b, c, d, k[0]);
        let f = mixed::<Forth>(b, c, d, a, k[1]);
        let g = mixed::<Forth>(c, d, a, b, k[2]);
        let h = mixed::<Forth>(d, a, b, c, k[3]);
        a = e;
        b = f;
        c = g;
        d = h;
    }
    [a, b, c, d]
}

// The inverse rounds, from the state before InvShiftRows and InvSubBytes on, with the keys from the last on. InvShiftRows takes
// the words in another order: one text for both would have to change words of the state and of each key over, and be no plainer.
pub(super) fn run_inv_rounds(keys: &[State], end: State) -> State
    ensures { spread result ≡ fold (λ s k. inv_turn (spread k) s) (spread end) (reverse keys.now) }
{
    let [mut a, mut b, mut c, mut d] = end;
    for k in keys.iter().rev() {
        let e = mixed::<Back>(a, d, c, b, k[0]);
        let f = mixed::<Back>(b, a, d, c, k[1]);
        let g = mixed::<Back>(c, b, a, d, k[2]);
        let h = mixed::<Back>(d, c, b, a, k[3]);
        a = e;
        b = f;
        c = g;
        d = h;
    }
    [a, b, c, d]
}

pub(super) fn last_round(k: &State, s: State) -> State
    ensures { spread result ≡ last_round (spread k.now) (spread s) }
{
    let [a, b, c, d] = s;
    [
        substituted::<Forth>(a, b, c, d) ^ k[0],
        substituted::<Forth>(b, c, d, a) ^ k[1],
        substituted::<Forth>(c, d, a, b) ^ k[2],
        substituted::<Forth>(d, a, b, c) ^ k[3],
    ]
}

// The last of the inverse rounds; it adds the key itself. Beside `last_round` for the reason that `run_inv_rounds` gives.
pub(super) fn inv_last_round(k: &State, s: State) -> State
    ensures { spread result ≡ add_round_key (spread k.now) (inv_sub_bytes (inv_shift_rows (spread s))) }
{
    let [a, b, c, d] = s;
    [
        substituted::<Back>(a, d, c, b) ^ k[0],
        substituted::<Back>(b, a, d, c) ^ k[1],
        substituted::<Back>(c, b, a, d) ^ k[2],
        substituted::<Back>(d, c, b, a) ^ k[3],
    ]
}
