// Reading the front of a file.
ghost use Rattle.std.specs.Prelude.{◌≡◌, ◌+◌, ◌<◌, ◌≤◌, length, take, drop, IfOk};
ghost use Rattle.block.specs.Bytes.{of_bytes};
ghost use Rattle.elmd.specs.Settings.{settings_bytes};
ghost use Rattle.payfile.specs.Refusals.{told};
ghost use Rattle.payfile.specs.Layout.{front_answer, Fronts, label_answer};

use crate::front::{FRONT, Front, VERSION};
use crate::refusal::{FileFault, FileRefusal};
use elmd::heading::HEADING_MOST;
use elmd::refusal::Mark;
use elmd::settings::Settings;

// The `N` bytes from `at` on.
fn field<const N: usize>(file: &[u8], at: usize) -> [u8; N]
    requires { at + N ≤ length file.now }
    ensures { result ≡ take N (drop at file.now) }
{
    file[at..at + N].try_into().unwrap()
}

// A number of four bytes, highest first.
fn number_at(file: &[u8], at: usize) -> usize
    requires { at + 4 ≤ length file.now }
    ensures value { result ≡ of_bytes (take 4 (drop at file.now)) }
    ensures small { result < 4294967296 }
{
    u32::from_be_bytes(field(file, at)) as usize
}

// Judges the front of a file, and that its lengths add up to the file.
pub fn read_front(file: &[u8]) -> Result<Front, FileRefusal>
    ensures answer { told result ≡ front_answer file.now }
    ensures front { IfOk result (Fronts file.now) }
{
    if file.len() < FRONT {
        return Err(FileFault::FileShort.into());
    }
    if file[0] != VERSION {
        return Err(FileFault::Version.into());
    }
    let mark = Mark::try_from(file[25]).map_err(|_| FileFault::MarkByte)?;
    let heading = number_at(file, 1);
    if heading > HEADING_MOST {
        return Err(FileFault::HeadingTooLong.into());
    }
    let stream = number_at(file, 5);
    if file.len() != FRONT + heading + stream {
        return Err(FileFault::Lengths.into());
    }
    Ok(Front {
        nonce: field(file, 9),
        settings: field(file, 17),
        mark,
        heading,
        stream,
    })
}

// The settings for a cipher, and not those of the paper cipher.
pub(crate) fn file_settings(settings: &[u8; 8], label: u8) -> Result<Settings, FileRefusal>
    ensures answer { told result ≡ label_answer label settings.now }
    ensures value { IfOk result (λ s. settings_bytes s ≡ settings.now) }
{
    let chosen = Settings::read(settings, label)?;
    // 255 is the format's number for the paper cipher.
    if settings[0] == 255 {
        return Err(FileFault::PracticeLabel.into());
    }
    Ok(chosen)
}
