// A sealer, driven by a list of calls.
ghost use Rattle.std.specs.Prelude.{◌≡◌, ℕ, length, take, Some};
ghost use Rattle.elmd.specs.Refusals.{told};
ghost use Rattle.sealing.specs.Handing.{begin_answer};
ghost use Rattle.rehearsal.specs.declared.calls.Call.TheVariants.{Put, Finish};
ghost use Rattle.rehearsal.specs.Calls.{Within, Kept};
ghost use Rattle.rehearsal.specs.SealLaw.{Does, SealerDoes, Untouched, Rules, Law};

use crate::calls::{Call, Given, NotGiven, Part, SealAnswer};
use crate::drive::{Driven, drive};
use cipher::Cipher;
use elmd::refusal::Refusal;
use elmd::state::ClosedHeading;
use sealing::Sealer;
use std::mem;

// An opener's calls have other answers, and its finish does not take it, so each side has its own. The count stands beside the
// answer, so that `drive` need not know either side's answers.
fn put_one<C: Cipher>(
    sealer: Sealer,
    c: &mut C,
    piece: &[u8],
    out: &mut [u8],
) -> (Option<Sealer>, usize, SealAnswer)
    ensures within { Within result.1 out.old out.new }
    ensures does { (room : ℕ) → Does (C.Cipher.meaning c.old) sealer.settings sealer.n (Some sealer) result.0 (length out.old) (Put piece.entry room) (take result.1 out.new) result.2 }
    ensures same { C.Cipher.meaning c.new ≡ C.Cipher.meaning c.old }
{
    let mut sealer = sealer;
    match sealer.put(c, piece, out) {
        Ok(n) => (Some(sealer), n, Ok(Given::Handed(n))),
        Err(why) => (Some(sealer), 0, Err(NotGiven::Refused(why))),
    }
}

fn finish_one<C: Cipher>(
    sealer: Sealer,
    c: &mut C,
    out: &mut [u8],
) -> (Option<Sealer>, usize, SealAnswer)
    ensures within { Within result.1 out.old out.new }
    ensures does { (room : ℕ) → Does (C.Cipher.meaning c.old) sealer.settings sealer.n (Some sealer) result.0 (length out.old) (Finish room) (take result.1 out.new) result.2 }
    ensures same { C.Cipher.meaning c.new ≡ C.Cipher.meaning c.old }
{
    match sealer.finish(c, out) {
        Ok((n, mark)) => (None, n, Ok(Given::Sealed(n, mark))),
        Err((why, back)) => (Some(back), 0, Err(NotGiven::Refused(why))),
    }
}

fn one<C: Cipher>(
    sealer: Sealer,
    c: &mut C,
    call: &Call,
    out: &mut [u8],
) -> (Option<Sealer>, usize, SealAnswer)
    ensures within { Within result.1 out.old out.new }
    ensures does { SealerDoes (C.Cipher.meaning c.old) (Some sealer) call.now (length out.old) result.0 (take result.1 out.new) result.2 }
    ensures same { C.Cipher.meaning c.new ≡ C.Cipher.meaning c.old }
{
    match *call {
        Call::Put { piece, .. } => put_one(sealer, c, piece, out),
        Call::Finish { .. } => finish_one(sealer, c, out),
    }
}

impl Driven for Option<Sealer> {
    type Answer = SealAnswer;

    ghost does = { SealerDoes };

    fn make<C: Cipher>(&mut self, c: &mut C, call: &Call, out: &mut [u8]) -> (usize, SealAnswer) {
        match self.take() {
            None => (0, Err(NotGiven::Ended)),
            Some(sealer) => {
                let (held, n, answer) = one(sealer, c, call, out);
                // What stands there is none: it was taken.
                give_up(mem::replace(self, held));
                (n, answer)
            }
        }
    }
}

fn give_up(held: Option<Sealer>) {
    if let Some(sealer) = held {
        let _accepted = sealer.abandon();
    }
}

// Makes the calls on a sealer that is begun here; answers how many bytes were handed over in all.
// Apart from `drive_opener`, for the reason at `sealer_side`.
pub(crate) fn drive_sealer<C: Cipher>(
    c: &mut C,
    h: ClosedHeading,
    n: usize,
    part: &mut Part<SealAnswer>,
) -> Result<usize, Refusal>
    ensures answer { told result ≡ begin_answer n }
    ensures refused { Untouched result part.old.answers.now part.new.answers.now part.old.out.now part.new.out.now }
    ensures rules { Rules h.settings n part.old.calls.now part.old.answers.now part.new.answers.now part.old.out.now part.new.out.now result }
    ensures law { Law (C.Cipher.meaning c.old) h n part.old.calls.now part.old.answers.now part.new.answers.now part.old.out.now part.new.out.now result }
    ensures kept { Kept part.old part.new }
    ensures same { C.Cipher.meaning c.new ≡ C.Cipher.meaning c.old }
{
    let sealer = Sealer::begin(h, n).map_err(|(why, _)| why)?;
    let mut held = Some(sealer);
    let w = drive(&mut held, c, part.calls, part.out, part.answers);
    give_up(held);
    Ok(w)
}
