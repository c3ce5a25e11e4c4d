// GF(2^8), the field of bytes, with the S-box of AES and matrices over it.
#![tactic(auto)]

ghost use Rattle.std.specs.Prelude.{◌≡◌, ℕ, ◌<◌};
ghost use Rattle.gf256.specs.Columns.{dotted, product};
ghost use Rattle.gf256.specs.Field.{gmul, inverse, xtime};
ghost use Rattle.gf256.specs.Sbox.{inv_sbox, sbox};

// Two tables, each proved by its own rule, and below a function for each: a trait with two types, as `fast_aes` has for its
// eight columns, would be longer than the two functions.
mod inv_sbox_table;
mod sbox_table;

pub fn sub(b: u8) -> u8
    ensures { result ≡ sbox b }
{
    sbox_table::table()[b as usize]
}

pub fn inv_sub(b: u8) -> u8
    ensures { result ≡ inv_sbox b }
{
    inv_sbox_table::table()[b as usize]
}

fn double(a: u8) -> u8
    ensures { result ≡ xtime a }
{
    (a << 1) ^ ((a >> 7) * 0x1b)
}

// Takes as many turns as `b` has bits, so the coefficient goes second. It halves and counts nothing, so a `for` has nothing to go over.
pub fn mul(a: u8, b: u8) -> u8
    ensures { result ≡ gmul a b }
{
    let mut sum = 0;
    let mut x = a;
    let mut m = b;
    while m > 0 {
        if m % 2 == 1 {
            sum ^= x;
        }
        x = double(x);
        m /= 2;
    }
    sum
}

fn dot(row: [u8; 4], v: [u8; 4]) -> u8
    ensures { result ≡ dotted row v }
{
    (mul(v[0], row[0]) ^ mul(v[1], row[1])) ^ (mul(v[2], row[2]) ^ mul(v[3], row[3]))
}

// The matrix `m` times the column `v`. The four rows are spelled out: a `map` over them would be no shorter.
pub fn times(m: &[[u8; 4]; 4], v: [u8; 4]) -> [u8; 4]
    ensures { result ≡ product m.now v }
{
    [dot(m[0], v), dot(m[1], v), dot(m[2], v), dot(m[3], v)]
}

// The inverse is one, and the two boxes undo each other.
pub fn field_laws()
    ensures inverse { (x : ℕ) → 0 < x → x < 256 → gmul x (inverse x) ≡ 1 }
    ensures sub { (x : ℕ) → x < 256 → inv_sbox (sbox x) ≡ x }
    ensures back { (x : ℕ) → x < 256 → sbox (inv_sbox x) ≡ x }
{}
