// One column of a round, as a word.
ghost use Rattle.std.specs.Prelude.{◌≡◌, ◌<◌, [], ◌∷◌, bit_xor};
ghost use Rattle.aes.specs.Fips197.{xor_word};
ghost use Rattle.gf256.specs.Columns.{inv_mix_matrix, product};
ghost use Rattle.gf256.specs.Sbox.{sbox};
ghost use Rattle.fast_aes.specs.Words.{boxed, byte, bytes4};

use super::direction::Direction;
use super::td::Back;

fn byte_at(i: usize, w: u32) -> u8
    requires { i < 4 }
    ensures { result ≡ byte i w }
{
    w.to_be_bytes()[i]
}

fn joined(p: u8, q: u8, r: u8, s: u8) -> u32
    ensures { bytes4 result ≡ p ∷ q ∷ r ∷ s ∷ [] }
{
    u32::from_be_bytes([p, q, r, s])
}

fn column<D: Direction>(p: u8, q: u8, r: u8, s: u8, k: u32) -> u32
    ensures { bytes4 result ≡ xor_word (product D.matrix (D.boxed p ∷ D.boxed q ∷ D.boxed r ∷ D.boxed s ∷ [])) (bytes4 k) }
{
    (((k ^ D::at(3, s)) ^ D::at(2, r)) ^ D::at(1, q)) ^ D::at(0, p)
}

// SubBytes, MixColumns and the key, of the bytes that ShiftRows brings into one column.
pub(super) fn mixed<D: Direction>(a: u32, b: u32, c: u32, d: u32, k: u32) -> u32
    ensures { bytes4 result ≡ xor_word (product D.matrix (boxed D.boxed a b c d)) (bytes4 k) }
{
    column::<D>(
        byte_at(0, a),
        byte_at(1, b),
        byte_at(2, c),
        byte_at(3, d),
        k,
    )
}

// SubBytes alone, for the last round.
pub(super) fn substituted<D: Direction>(a: u32, b: u32, c: u32, d: u32) -> u32
    ensures { bytes4 result ≡ boxed D.boxed a b c d }
{
    joined(
        D::sub(byte_at(0, a)),
        D::sub(byte_at(1, b)),
        D::sub(byte_at(2, c)),
        D::sub(byte_at(3, d)),
    )
}

// InvMixColumns alone: the S-box cancels what the tables substitute.
pub(super) fn unmixed(w: u32) -> u32
    ensures { bytes4 result ≡ product inv_mix_matrix (bytes4 w) }
{
    column::<Back>(
        gf256::sub(byte_at(0, w)),
        gf256::sub(byte_at(1, w)),
        gf256::sub(byte_at(2, w)),
        gf256::sub(byte_at(3, w)),
        0,
    )
}

// The last word of a round key, rotated and substituted, with the round constant.
pub(super) fn turn(rc: u8, w: u32) -> u32
    ensures { bytes4 result ≡ bit_xor (sbox (byte 1 w)) rc ∷ sbox (byte 2 w) ∷ sbox (byte 3 w) ∷ sbox (byte 0 w) ∷ [] }
{
    joined(
        gf256::sub(byte_at(1, w)) ^ rc,
        gf256::sub(byte_at(2, w)),
        gf256::sub(byte_at(3, w)),
        gf256::sub(byte_at(0, w)),
    )
}
