// The steps and rounds on a state of sixteen bytes, column by column.
ghost use Rattle.std.specs.Prelude.{◌≡◌, ◌<◌, ◌++◌};
ghost use Rattle.aes.specs.Fips197.{add_round_key, inv_last_round, inv_round, inv_shift_rows, inv_sub_bytes, last_round, mix_by, round, shift_by, shift_rows, sub_bytes, word};

use std::array;

pub(super) type State = [u8; 16];

pub(super) type Word = [u8; 4];

const MIX: [[u8; 4]; 4] = [[2, 3, 1, 1], [1, 2, 3, 1], [1, 1, 2, 3], [3, 1, 1, 2]];

const INV_MIX: [[u8; 4]; 4] = [
    [0x0e, 0x0b, 0x0d, 0x09],
    [0x09, 0x0e, 0x0b, 0x0d],
    [0x0d, 0x09, 0x0e, 0x0b],
    [0x0b, 0x0d, 0x09, 0x0e],
];

// Spelled out, as `join` is: a slice would have to be turned back into an array.
pub(super) fn word_at(s: State, i: usize) -> Word
    requires { i < 13 }
    ensures { result ≡ word i s }
{
    [s[i], s[i + 1], s[i + 2], s[i + 3]]
}

pub(super) fn join(a: Word, b: Word, c: Word, d: Word) -> State
    ensures { result ≡ word 0 a ++ word 0 b ++ word 0 c ++ word 0 d }
{
    [
        a[0], a[1], a[2], a[3], b[0], b[1], b[2], b[3], c[0], c[1], c[2], c[3], d[0], d[1], d[2],
        d[3],
    ]
}

// Each step has its inverse beside it. What the two share is in `shift_by` and `mix_by`; the rest is one line, with the steps in
// another order.
fn sub_bytes(s: State) -> State
    ensures { result ≡ sub_bytes s }
{
    s.map(gf256::sub)
}

fn inv_sub_bytes(s: State) -> State
    ensures { result ≡ inv_sub_bytes s }
{
    s.map(gf256::inv_sub)
}

// Row r, the places i with i % 4 == r, moves by r columns of `n` places.
fn shift_by(n: usize, s: State) -> State
    requires { n < 16 }
    ensures { result ≡ shift_by n s }
{
    array::from_fn(|i| s[(i + n * (i % 4)) % 16])
}

fn shift_rows(s: State) -> State
    ensures { result ≡ shift_rows s }
{
    shift_by(4, s)
}

fn inv_shift_rows(s: State) -> State
    ensures { result ≡ inv_shift_rows s }
{
    shift_by(12, s)
}

// Each column times the matrix `m`.
fn mix_by(m: &[[u8; 4]; 4], s: State) -> State
    ensures { result ≡ mix_by m.now s }
{
    join(
        gf256::times(m, word_at(s, 0)),
        gf256::times(m, word_at(s, 4)),
        gf256::times(m, word_at(s, 8)),
        gf256::times(m, word_at(s, 12)),
    )
}

pub(super) fn add_round_key(k: &State, s: State) -> State
    ensures { result ≡ add_round_key k.now s }
{
    array::from_fn(|i| s[i] ^ k[i])
}

pub(super) fn full_round(k: &State, s: State) -> State
    ensures { result ≡ round k.now s }
{
    add_round_key(k, mix_by(&MIX, shift_rows(sub_bytes(s))))
}

pub(super) fn inv_full_round(k: &State, s: State) -> State
    ensures { result ≡ inv_round k.now s }
{
    inv_sub_bytes(inv_shift_rows(mix_by(&INV_MIX, add_round_key(k, s))))
}

// Without MixColumns.
pub(super) fn last_round(k: &State, s: State) -> State
    ensures { result ≡ last_round k.now s }
{
    add_round_key(k, shift_rows(sub_bytes(s)))
}

pub(super) fn inv_last_round(k: &State, s: State) -> State
    ensures { result ≡ inv_last_round k.now s }
{
    inv_sub_bytes(inv_shift_rows(add_round_key(k, s)))
}
