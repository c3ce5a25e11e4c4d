// What earlier lines gave.
ghost use Rattle.std.specs.Prelude.{◌≡◌, MatchResult};
ghost use Rattle.std.specs.Result.{result_map_both};
ghost use Rattle.console.specs.Known.{known_of, cipher_given, Encloses, Lacks};
ghost use Rattle.console.specs.declared.fault.Fault.TheVariants.{NotGiven};

use crate::fault::Fault;
use cipher::Cipher;
use elmd::envelope::Envelope;
use elmd::refusal::Refusal;
use labelled::LabelledCipher;

#[derive(Default, Drop)]
pub(crate) struct Given {
    pub(crate) key: Option<[u8; 16]>,
    pub(crate) nonce: Option<[u8; 8]>,
    pub(crate) settings: Option<[u8; 8]>,
    pub(crate) heading: Option<Vec<u8>>,
}

impl Given {
    // The cipher that the settings name, under the key.
    pub(crate) fn cipher(&self) -> Result<LabelledCipher, Fault>
        ensures { result_map_both ⟦<LabelledCipher as Cipher>⟧.meaning (λ fault. fault) result ≡ cipher_given (known_of self.now) }
    {
        let key = self.key.ok_or(Fault::NotGiven)?;
        let settings = self.settings.ok_or(Fault::NotGiven)?;
        LabelledCipher::for_label(settings[0], &key).ok_or(Fault::Refused(Refusal::OtherLabel))
    }

    // What a message is sealed under, beside the cipher.
    pub(crate) fn envelope(&self) -> Result<Envelope<'_>, Fault>
        ensures { MatchResult result (λ e. Encloses (known_of self.now) e.settings e.nonce e.heading.now) (λ fault. (fault ≡ NotGiven) × Lacks (known_of self.now)) }
    {
        let settings = self.settings.ok_or(Fault::NotGiven)?;
        let nonce = self.nonce.ok_or(Fault::NotGiven)?;
        let heading = self.heading.as_ref().ok_or(Fault::NotGiven)?.as_slice();
        Ok(Envelope {
            settings,
            nonce,
            heading,
        })
    }
}
