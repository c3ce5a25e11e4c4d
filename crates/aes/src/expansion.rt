// The eleven round keys, each made of the one before it.
ghost use Rattle.std.specs.Prelude.{◌≡◌, ℕ, List, map};
ghost use Rattle.aes.specs.Fips197.{key_schedule, next_key};

const RCON: [u8; 10] = [0x01, 0x02, 0x04, 0x08, 0x10, 0x20, 0x40, 0x80, 0x1b, 0x36];

// How a schedule makes a round key, in its own form.
pub trait Expansion {
    type Key: Copy;

    ghost bytes: { Self.Key → List ℕ };

    // The round key behind `k`, by its round constant.
    fn next_key(rc: u8, k: Self::Key) -> Self::Key
        ensures { bytes result ≡ next_key rc (bytes k) };
}

// The first round key is the key itself.
pub fn expand<E: Expansion>(key: E::Key) -> [E::Key; 11]
    ensures { map E.bytes result ≡ key_schedule (E.bytes key) }
{
    let mut keys = [key; 11];
    let mut k = key;
    let later = &mut keys[..];
    for (i, next) in later[1..].iter_mut().enumerate() {
        k = E::next_key(RCON[i], k);
        *next = k;
    }
    keys
}
