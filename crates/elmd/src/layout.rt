// The eight bytes of the settings.
ghost use Rattle.std.specs.Prelude.{◌≡◌, ℕ, ◌<◌, length, IfOk, Ok, Err};
ghost use Rattle.elmd.specs.Refusals.{told};
ghost use Rattle.elmd.specs.Settings.{settings_bytes, settings_answer, interval_answer, Chosen};

use crate::refusal::Refusal;
use crate::settings::Settings;

impl Settings {
    pub fn new(label: u8, interval: u8, short_tag: bool) -> Result<Settings, Refusal>
        ensures answer { told result ≡ interval_answer interval }
        ensures value { IfOk result (Chosen label interval short_tag) }
    {
        if interval > 127 {
            return Err(Refusal::Interval);
        }
        Ok(Settings {
            label,
            interval,
            short_tag,
        })
    }

    // The settings that stand in eight bytes, for the cipher of this label. It takes two values, so it is no `TryFrom`.
    pub fn read(bytes: &[u8; 8], label: u8) -> Result<Settings, Refusal>
        ensures answer { told result ≡ settings_answer label bytes.now }
        ensures value { IfOk result (λ s. settings_bytes s ≡ bytes.now) }
    {
        if bytes[0] != label {
            return Err(Refusal::OtherLabel);
        }
        if bytes[1] != 0 || bytes[2] > 127 {
            return Err(Refusal::Interval);
        }
        if bytes[3] > 1 {
            return Err(Refusal::CheckLength);
        }
        if bytes[4] != 128 {
            return Err(Refusal::TagLength);
        }
        if bytes[5] != 0 || bytes[6] != 0 || bytes[7] != 0 {
            return Err(Refusal::SpareByte);
        }
        Ok(Settings {
            label,
            interval: bytes[2],
            short_tag: bytes[3] == 1,
        })
    }

    // Named like `read`, which it undoes: a `From` would not say which bytes these are.
    pub fn to_bytes(self) -> [u8; 8]
        ensures value { result ≡ settings_bytes self }
        ensures accepted { settings_answer self.label result ≡ Ok tt }
    {
        let f = u8::from(self.short_tag);
        [self.label, 0, self.interval, f, 128, 0, 0, 0]
    }
}
