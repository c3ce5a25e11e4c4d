// The cipher that a label of the settings names.
#![tactic(auto)]

ghost use Rattle.std.specs.Prelude.{◌≡◌};
ghost use Rattle.std.specs.Option.{option_map};
ghost use Rattle.block.specs.Bytes.{of_bytes};
ghost use Rattle.block.specs.Value.{value_lt};
ghost use Rattle.cipher.specs.Paper.{paper_lawful};
ghost use Rattle.speck.specs.Rounds.{speck_lawful};
ghost use Rattle.aes.specs.Lawful.{aes10_lawful, aes6_lawful};
ghost use Rattle.labelled.specs.Labels.{cipher_of};
ghost use Rattle.labelled.specs.declared.LabelledCipher.TheVariants.{Aes10, Aes6, Speck, Paper};

use block::Block;
use cipher::{Cipher, PaperCipher};
use fast_aes::{FastAes6, FastAes10};
use speck::Speck;

// One of the ciphers that a label may name.
#[derive(Drop)]
pub enum LabelledCipher {
    Aes10(FastAes10),
    Aes6(FastAes6),
    Speck(Speck),
    Paper(PaperCipher),
}

impl LabelledCipher {
    // The cipher that `label` names, under `key`; none where no cipher has that label.
    pub fn for_label(label: u8, key: &[u8; 16]) -> Option<LabelledCipher>
        ensures { option_map ⟦<LabelledCipher as Cipher>⟧.meaning result ≡ cipher_of label (of_bytes key.now) }
    {
        match label {
            10 => Some(LabelledCipher::Aes10(FastAes10::new(key))),
            6 => Some(LabelledCipher::Aes6(FastAes6::new(key))),
            32 => Some(LabelledCipher::Speck(Speck::new(Block::from_bytes(key)))),
            255 => Some(LabelledCipher::Paper(PaperCipher {
                key: Block::from_bytes(key),
            })),
            _ => None,
        }
    }
}

// Each call goes to the cipher that is there. Four matches: a function that handed out the cipher as a `dyn` is refused, and so is
// an impl written by a macro.
impl Cipher for LabelledCipher {
    ghost meaning = { elim [
      | Aes10 c ↦ ⟦<FastAes10 as Cipher>⟧.meaning c
      | Aes6 c ↦ ⟦<FastAes6 as Cipher>⟧.meaning c
      | Speck c ↦ ⟦<Speck as Cipher>⟧.meaning c
      | Paper c ↦ ⟦<PaperCipher as Cipher>⟧.meaning c
    ] };

    ghost lawful = { elim [
      | Aes10 c ↦ aes10_lawful _
      | Aes6 c ↦ aes6_lawful _
      | Speck c ↦ speck_lawful _ (value_lt c.key)
      | Paper c ↦ paper_lawful _ (value_lt c.key)
    ] };

    fn encrypt(&mut self, b: Block) -> Block {
        match self {
            LabelledCipher::Aes10(c) => c.encrypt(b),
            LabelledCipher::Aes6(c) => c.encrypt(b),
            LabelledCipher::Speck(c) => c.encrypt(b),
            LabelledCipher::Paper(c) => c.encrypt(b),
        }
    }

    fn decrypt(&mut self, b: Block) -> Block {
        match self {
            LabelledCipher::Aes10(c) => c.decrypt(b),
            LabelledCipher::Aes6(c) => c.decrypt(b),
            LabelledCipher::Speck(c) => c.decrypt(b),
            LabelledCipher::Paper(c) => c.decrypt(b),
        }
    }

    fn label(&mut self) -> u8 {
        match self {
            LabelledCipher::Aes10(c) => c.label(),
            LabelledCipher::Aes6(c) => c.label(),
            LabelledCipher::Speck(c) => c.label(),
            LabelledCipher::Paper(c) => c.label(),
        }
    }

    fn is_double(&mut self) -> bool {
        match self {
            LabelledCipher::Aes10(c) => c.is_double(),
            LabelledCipher::Aes6(c) => c.is_double(),
            LabelledCipher::Speck(c) => c.is_double(),
            LabelledCipher::Paper(c) => c.is_double(),
        }
    }
}
