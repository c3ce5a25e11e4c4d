// A rehearsal: any list of calls on one newly begun sealer and one newly begun opener, made for real, and what they come to.
#![tactic(auto)]

ghost use Rattle.std.specs.Prelude.{◌≡◌};
ghost use Rattle.elmd.specs.Refusals.{mark_number};
ghost use Rattle.rehearsal.specs.Calls.{Kept};
ghost use Rattle.rehearsal.specs.Joined.{frame_under};
ghost use Rattle.rehearsal.specs.Law.{SealerSide, OpenerSide};

use cipher::Cipher;
use elmd::refusal::{Mark, Refusal};

mod calls;
mod drive;
mod joined;
mod open_side;
mod seal_side;

pub use calls::{Call, Given, NotGiven, OpenAnswer, Part, SealAnswer, Taken};
pub use joined::Heading;
use open_side::drive_opener;
use seal_side::drive_sealer;

// Makes the sealer's calls and the opener's, under one heading; answers how many bytes each wrote, or the refusal of its
// heading or its beginning. Length and mark go together to `Opener::begin` alone: a struct of the two would be built for that one
// call.
pub fn rehearse<C: Cipher>(
    c: &mut C,
    heading: &Heading,
    n: usize,
    sealed: &mut Part<SealAnswer>,
    stream_length: usize,
    mark: Mark,
    opened: &mut Part<OpenAnswer>,
) -> (Result<usize, Refusal>, Result<usize, Refusal>)
    ensures sealer { SealerSide (frame_under (C.Cipher.meaning c.old) heading.now) n sealed.old.calls.now sealed.old.answers.now sealed.new.answers.now sealed.old.out.now sealed.new.out.now result.0 }
    ensures opener { OpenerSide (frame_under (C.Cipher.meaning c.old) heading.now) stream_length (mark_number mark) opened.old.calls.now opened.old.answers.now opened.new.answers.now opened.old.out.now opened.new.out.now result.1 }
    ensures kept { Kept sealed.old sealed.new × Kept opened.old opened.new }
    ensures same { C.Cipher.meaning c.new ≡ C.Cipher.meaning c.old }
{
    let first = sealer_side(c, heading, n, sealed);
    let second = opener_side(c, heading, stream_length, mark, opened);
    (first, second)
}

// Each side begins its own state and has its own law: one generic function would take both as parameters.
fn sealer_side<C: Cipher>(
    c: &mut C,
    heading: &Heading,
    n: usize,
    part: &mut Part<SealAnswer>,
) -> Result<usize, Refusal>
    ensures side { SealerSide (frame_under (C.Cipher.meaning c.old) heading.now) n part.old.calls.now part.old.answers.now part.new.answers.now part.old.out.now part.new.out.now result }
    ensures kept { Kept part.old part.new }
    ensures same { C.Cipher.meaning c.new ≡ C.Cipher.meaning c.old }
{
    let closed = heading.close(c)?;
    drive_sealer(c, closed, n, part)
}

fn opener_side<C: Cipher>(
    c: &mut C,
    heading: &Heading,
    stream_length: usize,
    mark: Mark,
    part: &mut Part<OpenAnswer>,
) -> Result<usize, Refusal>
    ensures side { OpenerSide (frame_under (C.Cipher.meaning c.old) heading.now) stream_length (mark_number mark) part.old.calls.now part.old.answers.now part.new.answers.now part.old.out.now part.new.out.now result }
    ensures kept { Kept part.old part.new }
    ensures same { C.Cipher.meaning c.new ≡ C.Cipher.meaning c.old }
{
    let closed = heading.close(c)?;
    drive_opener(c, closed, stream_length, mark, part)
}
