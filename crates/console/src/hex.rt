// Bytes as hexadecimal digits, both ways.
ghost use Rattle.std.specs.Prelude.{◌≡◌, ◌<◌, ◌++◌, IfOk, vec_items, OnOk};
ghost use Rattle.std.specs.Option.{option_map};
ghost use Rattle.console.specs.Hex.{digit_value, pair_value, from_hex, hex_digit, to_hex, HexBack};

use std::alloc::{AllocError, Global};

// The format has lower case alone, which `char::to_digit` does not tell apart.
fn digit(c: u8) -> Option<u8>
    ensures { result ≡ digit_value c }
{
    match c {
        b'0'..=b'9' => Some(c - b'0'),
        b'a'..=b'f' => Some(c - b'a' + 10),
        _ => None,
    }
}

fn pair(high: u8, low: u8) -> Option<u8>
    ensures { result ≡ pair_value (digit_value high) (digit_value low) }
{
    Some(16 * digit(high)? + digit(low)?)
}

// The bytes that lower-case digits stand for, two digits to a byte.
pub fn from_hex(heap: Global, text: &[u8]) -> Result<Option<Vec<u8>>, AllocError>
    ensures { IfOk result (λ o. option_map vec_items o ≡ from_hex text.now) }
{
    let (pairs, odd) = text.as_chunks::<2>();
    if !odd.is_empty() {
        return Ok(None);
    }
    let mut bytes = Vec::new(heap);
    for [high, low] in pairs {
        let Some(b) = pair(*high, *low) else {
            return Ok(None);
        };
        bytes.push(b)?;
    }
    Ok(Some(bytes))
}

// Bytes and no chars: `char::from_digit` gives an Option of a char, which would have to be turned back.
fn digit_of(n: u8) -> u8
    requires { n < 16 }
    ensures { result ≡ hex_digit n }
{
    match n {
        0..=9 => b'0' + n,
        _ => b'a' + (n - 10),
    }
}

// Adds the digits of `bytes` to the end of `out`.
pub fn put_hex(out: &mut Vec<u8>, bytes: &[u8]) -> Result<(), AllocError>
    ensures { OnOk result (out.new.items ≡ out.old.items ++ to_hex bytes.now) }
{
    for b in bytes {
        out.push(digit_of(*b / 16))?;
        out.push(digit_of(*b % 16))?;
    }
    Ok(())
}

// The digits of bytes, read again, are those bytes.
pub fn hex_laws()
    ensures { HexBack }
{}
