// Opening: a stream and mark become their message, or a refusal.
#![tactic(auto)]

ghost use Rattle.std.specs.Prelude.{◌≡◌, ℕ, ◌+◌, ◌*◌, ◌<◌, ◌≤◌, length, IfSome};
ghost use Rattle.block.specs.Value.{value};
ghost use Rattle.elmd.specs.Refusals.{mark_number};
ghost use Rattle.elmd.specs.Stream.{Frame};
ghost use Rattle.elmd.specs.Envelope.{frame_under};
ghost use Rattle.elmd.specs.Heading.{Closes};
ghost use Rattle.opening.specs.Open.{Opened, StreamOpened, Found};
ghost use Rattle.opening.specs.Judging.{Held, Ends, Judges, Fits};

use block::Block;
use cipher::Cipher;
use elmd::envelope::Envelope;
use elmd::refusal::{Mark, Refusal};
use elmd::state::ClosedHeading;

mod front;
mod guard;
mod last;
mod opener;
mod place;
mod segment;
mod state;
mod step;

use guard::Wipe;
use last::{message_bytes, put_last, tag_matches};
pub use place::Opener;
use state::{Outline, Reading};

// Opens a stream whole: writes its message at the start of `out` and answers the message's length.
pub fn open<C: Cipher>(
    c: &mut C,
    envelope: &Envelope<'_>,
    stream: &[u8],
    mark: Mark,
    out: &mut [u8],
) -> Result<usize, Refusal>
    ensures opened { Opened (frame_under (C.Cipher.meaning c.old) envelope.now) stream.now (mark_number mark) out.old result out.new }
    ensures found { Found (frame_under (C.Cipher.meaning c.old) envelope.now) stream.now (mark_number mark) result }
    ensures same { C.Cipher.meaning c.new ≡ C.Cipher.meaning c.old }
{
    let closed = envelope.close(c)?;
    open_closed(c, closed, stream, mark, out)
}

// The premise on `u` is what the caller's heading stands for. A name for it would hide the frame that the clause then
// speaks of.
fn open_closed<C: Cipher>(
    c: &mut C,
    h: ClosedHeading,
    stream: &[u8],
    mark: Mark,
    out: &mut [u8],
) -> Result<usize, Refusal>
    ensures opened { (u : Frame) → u.cipher ≡ C.Cipher.meaning c.old → Closes u h → StreamOpened u stream.now (mark_number mark) out.old result out.new }
    ensures found { (u : Frame) → u.cipher ≡ C.Cipher.meaning c.old → Closes u h → Found u stream.now (mark_number mark) result }
    ensures same { C.Cipher.meaning c.new ≡ C.Cipher.meaning c.old }
{
    let (settings, base, iv) = h.into_parts();
    let shape = settings.shape(stream.len(), mark)?;
    let n = 16 * shape.blocks;
    if out.len() < n {
        return Err(Refusal::RoomShort);
    }
    let outline = Outline {
        settings,
        shape,
        mark,
    };
    open_part(c, Reading::new(base, iv), outline, stream, &mut out[..n])
}

// Opens into exactly the place of the message's blocks. Until the stream is known to be good its bytes are held by the
// guard, which leaves zeros on each way out.
fn open_part<C: Cipher>(
    c: &mut C,
    first: Reading,
    outline: Outline,
    stream: &[u8],
    part: &mut [u8],
) -> Result<usize, Refusal>
    requires { (first.checks ≡ 0) × ((Fits outline.settings outline.shape (length stream.now)) × (length part.old ≡ 16 * outline.shape.blocks)) }
    ensures judged { Judges (C.Cipher.meaning c.old) outline first stream.now result part.new }
    ensures same { C.Cipher.meaning c.new ≡ C.Cipher.meaning c.old }
{
    let p = outline.shape.blocks - 1;
    let t = usize::from(outline.settings.interval);
    let guard = Wipe { out: part };
    let s = first.open_front(c, t, stream, p, guard.out)?;
    let end = &stream[16 * (p + s.checks)..];
    let (last, k) = judge_end(c, s, outline, end).ok_or(Refusal::BadTag)?;
    put_last(guard.out, 16 * p, last, k);
    guard.accept();
    Ok(16 * p + k)
}

// The last block, which with the tag is `end`, and the number of its message bytes, where block and tag are right.
pub(crate) fn judge_end<C: Cipher>(
    c: &mut C,
    s: Reading,
    outline: Outline,
    end: &[u8],
) -> Option<(Block, usize)>
    requires { (length end.now ≡ 16 + outline.shape.tag) × (outline.shape.tag ≤ 16) }
    ensures held { IfSome result (λ x. Held (value x.0) x.1) }
    ensures ends { Ends (C.Cipher.meaning c.old) outline s end.now result }
    ensures same { C.Cipher.meaning c.new ≡ C.Cipher.meaning c.old }
{
    let (last, tag) = s.open_last(c, outline.mark, Block::load(end, 0));
    let genuine = tag_matches(tag, &end[16..]);
    let k = message_bytes(last, outline)?;
    genuine.then_some((last, k))
}
