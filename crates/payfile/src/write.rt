// Writing a pay file.
ghost use Rattle.std.specs.Prelude.{◌≡◌, ◌≤◌, length};
ghost use Rattle.elmd.specs.Envelope.{frame_under};
ghost use Rattle.elmd.specs.Heading.{frame_of};
ghost use Rattle.payfile.specs.Layout.{heading_of};
ghost use Rattle.payfile.specs.Open.{GivenBack};
ghost use Rattle.payfile.specs.Write.{sealed_answer, write_answer, written};

use crate::front::{FRONT, Front};
use crate::heading::FileHeading;
use crate::read::file_settings;
use crate::refusal::FileRefusal;
use cipher::Cipher;
use elmd::envelope::Envelope;
use elmd::refusal::{Mark, Refusal};
use sealing::seal;

// Writes the file of an envelope whose heading is short enough.
fn write_under<C: Cipher>(
    c: &mut C,
    envelope: &Envelope,
    message: &[u8],
    out: &mut [u8],
) -> Result<usize, FileRefusal>
    requires { length envelope.now.heading.now ≤ 65536 }
    ensures answer { result ≡ sealed_answer (frame_under (C.Cipher.meaning c.old) envelope.now) message.now (length out.old) }
    ensures output { out.new ≡ written (frame_under (C.Cipher.meaning c.old) envelope.now) message.now out.old result }
    ensures same { C.Cipher.meaning c.new ≡ C.Cipher.meaning c.old }
{
    let chosen = file_settings(&envelope.settings, c.label())?;
    let size = chosen.stream_length(message.len())?;
    let body = FRONT + envelope.heading.len();
    let end = body + size;
    if out.len() < end {
        return Err(Refusal::OutputShort.into());
    }
    let front = Front {
        nonce: envelope.nonce,
        settings: envelope.settings,
        mark: Mark::of_length(message.len()),
        heading: envelope.heading.len(),
        stream: size,
    };
    out[0..FRONT].copy_from_slice(&front.to_bytes());
    out[FRONT..body].copy_from_slice(envelope.heading);
    seal(c, envelope, message, &mut out[body..end]).unwrap();
    Ok(end)
}

// Writes the pay file of a shed's week at the start of `out`, and answers the file's length. Only the shed and the week make its
// heading, so it has no envelope to take.
pub fn write_file<C: Cipher>(
    c: &mut C,
    shed: u32,
    week: u32,
    settings: &[u8; 8],
    nonce: &[u8; 8],
    message: &[u8],
    out: &mut [u8],
) -> Result<usize, FileRefusal>
    ensures answer { result ≡ write_answer (frame_of (C.Cipher.meaning c.old) settings.now nonce.now (heading_of shed week)) shed week message.now (length out.old) }
    ensures output { out.new ≡ written (frame_of (C.Cipher.meaning c.old) settings.now nonce.now (heading_of shed week)) message.now out.old result }
    ensures given_back { GivenBack (C.Cipher.meaning c.old) message.now out.new result }
    ensures same { C.Cipher.meaning c.new ≡ C.Cipher.meaning c.old }
{
    let heading = FileHeading::new(shed, week)?;
    let envelope = Envelope {
        settings: *settings,
        nonce: *nonce,
        heading: heading.as_bytes(),
    };
    write_under(c, &envelope, message, out)
}
