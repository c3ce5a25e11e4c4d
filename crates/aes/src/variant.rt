// What AES-128 and its variant differ in.
ghost use Rattle.std.specs.Prelude.{◌≡◌, ℕ, ◌<◌, Bool};
ghost use Rattle.cipher.specs.Meaning.{Lawful, Meaning};
ghost use Rattle.aes.specs.Fips197.{by_rounds};

pub trait Variant {
    // How many full rounds there are.
    const ROUNDS: usize;

    // Whether a last round without MixColumns follows them. A constant, and no closure for the last round, which would have to
    // name the state of each schedule.
    const LAST: bool;

    // A byte of the settings, as the cipher's `label` answers it.
    const LABEL: u8;

    const DOUBLE: bool;

    ghost ROUNDS: { ℕ };

    ghost LAST: { Bool };

    ghost LABEL: { ℕ };

    ghost DOUBLE: { Bool };

    // What the cipher means under a key.
    ghost meaning: { ℕ → Meaning };

    // There are round keys for that many.
    ghost few: { (0 < ROUNDS) × (ROUNDS < 10) };

    ghost runs: { (key : ℕ) → meaning key ≡ by_rounds LAST ROUNDS LABEL DOUBLE key };

    ghost lawful: { (key : ℕ) → Lawful (meaning key) };
}

// AES-128: nine full rounds, and a last one without MixColumns.
pub struct Ten;

impl Variant for Ten {
    ghost use Rattle.std.specs.Prelude.{false, refl, true};
    ghost use Rattle.std.proofs.Common.{lit<};
    ghost use Rattle.aes.specs.Fips197.{aes10};
    ghost use Rattle.aes.specs.Lawful.{aes10_lawful};

    const ROUNDS: usize = 9;

    const LAST: bool = true;

    const LABEL: u8 = 10;

    const DOUBLE: bool = false;

    ghost ROUNDS = { 9 };

    ghost LAST = { true };

    ghost LABEL = { 10 };

    ghost DOUBLE = { false };

    ghost meaning = { aes10 };

    ghost few = { (lit< tt, lit< tt) };

    ghost runs = { λ key. refl };

    ghost lawful = { aes10_lawful };
}

// Six full rounds, under the first seven round keys.
pub struct Six;

impl Variant for Six {
    ghost use Rattle.std.specs.Prelude.{false, refl, true};
    ghost use Rattle.std.proofs.Common.{lit<};
    ghost use Rattle.aes.specs.Fips197.{aes6};
    ghost use Rattle.aes.specs.Lawful.{aes6_lawful};

    const ROUNDS: usize = 6;

    const LAST: bool = false;

    const LABEL: u8 = 6;

    const DOUBLE: bool = true;

    ghost ROUNDS = { 6 };

    ghost LAST = { false };

    ghost LABEL = { 6 };

    ghost DOUBLE = { true };

    ghost meaning = { aes6 };

    ghost few = { (lit< tt, lit< tt) };

    ghost runs = { λ key. refl };

    ghost lawful = { aes6_lawful };
}
