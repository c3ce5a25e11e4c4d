// Sealing: a message becomes its stream and mark.
#![tactic(auto)]

ghost use Rattle.std.specs.Prelude.{◌≡◌, ℕ, ◌<◌, ◌≤◌, ◌++◌, length, drop};
ghost use Rattle.elmd.specs.Stream.{Frame, mark, stream};
ghost use Rattle.elmd.specs.Refusals.{mark_of};
ghost use Rattle.elmd.specs.Envelope.{frame_under};
ghost use Rattle.elmd.specs.Heading.{Closes};
ghost use Rattle.elmd.specs.Sizes.{stream_size};
ghost use Rattle.sealing.specs.Seal.{message_answer, seal_answer, sealed};

use block::Block;
use cipher::Cipher;
use elmd::envelope::Envelope;
use elmd::refusal::{Mark, Refusal};
use elmd::sizes::tag_length;
use elmd::state::ClosedHeading;

mod begun;
mod sealer;
mod state;
mod step;

pub use begun::Sealer;
use state::Running;

// Seals a message whole: writes its stream at the start of `out`, and answers the stream's length and the mark. A cipher
// may be a device that counts its calls, so each contract says that its meaning is the same after.
pub fn seal<C: Cipher>(
    c: &mut C,
    envelope: &Envelope<'_>,
    message: &[u8],
    out: &mut [u8],
) -> Result<(usize, Mark), Refusal>
    ensures answer { result ≡ seal_answer (frame_under (C.Cipher.meaning c.old) envelope.now) message.now (length out.old) }
    ensures output { out.new ≡ sealed (frame_under (C.Cipher.meaning c.old) envelope.now) message.now out.old result }
    ensures same { C.Cipher.meaning c.new ≡ C.Cipher.meaning c.old }
{
    let closed = envelope.close(c)?;
    seal_closed(c, closed, message, out)
}

// The premise on `u` is what the caller's heading stands for. A name for it would hide the frame that the clause then
// speaks of.
fn seal_closed<C: Cipher>(
    c: &mut C,
    h: ClosedHeading,
    message: &[u8],
    out: &mut [u8],
) -> Result<(usize, Mark), Refusal>
    ensures answer { (u : Frame) → u.cipher ≡ C.Cipher.meaning c.old → Closes u h → result ≡ message_answer u message.now (length out.old) }
    ensures output { (u : Frame) → u.cipher ≡ C.Cipher.meaning c.old → Closes u h → out.new ≡ sealed u message.now out.old result }
    ensures same { C.Cipher.meaning c.new ≡ C.Cipher.meaning c.old }
{
    let size = h.settings().stream_length(message.len())?;
    if out.len() < size {
        return Err(Refusal::OutputShort);
    }
    let mark = write_stream(c, h, message, out);
    Ok((size, mark))
}

// The premise as in `seal_closed`.
fn write_stream<C: Cipher>(c: &mut C, h: ClosedHeading, message: &[u8], out: &mut [u8]) -> Mark
    requires some { 0 < length message.now }
    requires most { length message.now ≤ 16777216 }
    requires room { stream_size h.settings.interval h.settings.short_tag (length message.now) ≤ length out.old }
    ensures mark { result ≡ mark_of (mark message.now) }
    ensures bytes { (u : Frame) → u.cipher ≡ C.Cipher.meaning c.old → Closes u h → out.new ≡ stream u message.now ++ drop (length (stream u message.now)) out.old }
    ensures same { C.Cipher.meaning c.new ≡ C.Cipher.meaning c.old }
{
    let (settings, base, iv) = h.into_parts();
    let (front, last) = message.split_at((message.len() - 1) / 16 * 16);
    let mut running = Running::new(base, iv);
    let at = running.seal_front(c, usize::from(settings.interval), front, out);
    let mark = Mark::of_length(message.len());
    let tag = tag_length(settings.short_tag, last.len());
    running.write_end(c, mark, Block::load(last, 0), tag, &mut out[at..]);
    mark
}
