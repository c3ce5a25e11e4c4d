// An opener, driven by a list of calls.
ghost use Rattle.std.specs.Prelude.{◌≡◌, length, take};
ghost use Rattle.elmd.specs.Refusals.{mark_number};
ghost use Rattle.rehearsal.specs.Calls.{Within, Kept};
ghost use Rattle.rehearsal.specs.OpenLaw.{PutDoes, FinishDoes, OpenerDoes, RefusedWhen, LawAt, Untouched};

use crate::calls::{Call, OpenAnswer, Part, Taken};
use crate::drive::{Driven, drive};
use cipher::Cipher;
use elmd::refusal::{Mark, Refusal};
use elmd::state::ClosedHeading;
use opening::Opener;

// A sealer's calls have other answers, and its finish takes it, so each side has its own.
fn put_one<C: Cipher>(
    c: &mut C,
    opener: &mut Opener,
    piece: &[u8],
    out: &mut [u8],
) -> (usize, OpenAnswer)
    ensures within { Within result.0 out.old out.new }
    ensures does { PutDoes (C.Cipher.meaning c.old) opener.old piece.now (length out.old) opener.new (take result.0 out.new) result.1 }
    ensures same { C.Cipher.meaning c.new ≡ C.Cipher.meaning c.old }
{
    match opener.put(c, piece, out) {
        Ok((taken, n)) => (n, Ok(Taken::Took(taken, n))),
        Err(why) => (0, Err(why)),
    }
}

fn finish_one<C: Cipher>(c: &mut C, opener: &mut Opener, out: &mut [u8]) -> (usize, OpenAnswer)
    ensures within { Within result.0 out.old out.new }
    ensures does { FinishDoes (C.Cipher.meaning c.old) opener.old (length out.old) opener.new (take result.0 out.new) result.1 }
    ensures same { C.Cipher.meaning c.new ≡ C.Cipher.meaning c.old }
{
    match opener.finish(c, out) {
        Ok(n) => (n, Ok(Taken::Opened(n))),
        Err(why) => (0, Err(why)),
    }
}

impl Driven for Opener {
    type Answer = OpenAnswer;

    ghost does = { OpenerDoes };

    fn make<C: Cipher>(&mut self, c: &mut C, call: &Call, out: &mut [u8]) -> (usize, OpenAnswer) {
        match *call {
            Call::Put { piece, .. } => put_one(c, self, piece, out),
            Call::Finish { .. } => finish_one(c, self, out),
        }
    }
}

// Makes the calls on an opener that is begun here; answers how many bytes were let out in all.
pub(crate) fn drive_opener<C: Cipher>(
    c: &mut C,
    h: ClosedHeading,
    stream_length: usize,
    mark: Mark,
    part: &mut Part<OpenAnswer>,
) -> Result<usize, Refusal>
    ensures refused { RefusedWhen h stream_length (mark_number mark) part.old.out.now part.old.answers.now result part.new.out.now part.new.answers.now }
    ensures law { LawAt (C.Cipher.meaning c.old) h stream_length (mark_number mark) part.old.calls.now part.old.out.now part.old.answers.now result part.new.out.now part.new.answers.now }
    ensures rest { Untouched part.old.calls.now part.old.out.now part.old.answers.now result part.new.out.now part.new.answers.now }
    ensures kept { Kept part.old part.new }
    ensures same { C.Cipher.meaning c.new ≡ C.Cipher.meaning c.old }
{
    let mut opener = Opener::unused();
    Opener::begin(&mut opener, h, stream_length, mark).map_err(|(why, _)| why)?;
    let n = drive(&mut opener, c, part.calls, part.out, part.answers);
    Ok(n)
}
