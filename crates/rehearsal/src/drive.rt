// Any list of calls, made for real on a sealer or an opener.
ghost use Rattle.std.specs.Prelude.{◌≡◌, ℕ, ◌+◌, ◌-◌, ◌≤◌, min, List, length, take, drop};
ghost use Rattle.cipher.specs.Meaning.{Meaning};
ghost use Rattle.rehearsal.specs.declared.calls.Call.{Call};
ghost use Rattle.rehearsal.specs.Calls.{room_of, Within, Wrote, Run, made};

use crate::calls::Call;
use cipher::Cipher;

// What calls are made on, one after another. `within` stays a clause: a type that holds `out` and the count would have to lend
// `out` back to the next call.
pub(crate) trait Driven {
    type Answer: Copy;

    // How a call in so much room leads from a state to a state, with the bytes that it writes and its answer.
    ghost does: { Meaning → Self → Call → ℕ → Self → List ℕ → Self.Answer → Type 0 };

    // Makes one call: how many bytes were written, and the answer. It is lent, since an opener holds back two KiB.
    fn make<C: Cipher>(&mut self, c: &mut C, call: &Call, out: &mut [u8]) -> (usize, Self::Answer)
        ensures within { Within result.0 out.old out.new }
        ensures does { does (C.Cipher.meaning c.old) self.old call.now (length out.old) self.new (take result.0 out.new) result.1 }
        ensures same { C.Cipher.meaning c.new ≡ C.Cipher.meaning c.old };
}

// One call, whose output begins at `pos`.
fn turn<C: Cipher, D: Driven>(
    driven: &mut D,
    c: &mut C,
    call: &Call,
    out: &mut [u8],
    pos: usize,
) -> (usize, D::Answer)
    requires { pos ≤ length out.old }
    ensures wrote { Wrote pos (pos + result.0) out.old out.new }
    ensures does { D.Driven.does (C.Cipher.meaning c.old) driven.old call.now (min (room_of call.now) (length out.old - pos)) driven.new (take result.0 (drop pos out.new)) result.1 }
    ensures same { C.Cipher.meaning c.new ≡ C.Cipher.meaning c.old }
{
    let end = pos + call.room().min(out.len() - pos);
    driven.make(c, call, &mut out[pos..end])
}

// Makes as many of the calls as there are places for answers, in order: each in the part of `out` behind the last, of its
// room or what is left. Answers how many bytes were written in all.
// Tried: a `Part` here too. While its answers are lent to the loop, an invariant has no names for its other fields.
pub(crate) fn drive<C: Cipher, D: Driven>(
    driven: &mut D,
    c: &mut C,
    calls: &[Call],
    out: &mut [u8],
    answers: &mut [D::Answer],
) -> usize
    ensures within { Within result out.old out.new }
    ensures behind { drop (made calls.now answers.old) answers.new ≡ drop (made calls.now answers.old) answers.old }
    ensures run { Run (D.Driven.does (C.Cipher.meaning c.old)) driven.old (length out.old) (take (made calls.now answers.old) calls.now) (take (made calls.now answers.old) answers.new) driven.new (take result out.new) }
    ensures same { C.Cipher.meaning c.new ≡ C.Cipher.meaning c.old }
{
    let mut pos = 0;
    // Tried and not proved: a zip of both, since behind a zip of `iter_mut` nothing is known of the answers.
    let mut left = calls.iter();
    for answer in answers.iter_mut() {
        let Some(call) = left.next() else {
            break;
        };
        let (n, told) = turn(driven, c, call, out, pos);
        pos += n;
        *answer = told;
    }
    pos
}
