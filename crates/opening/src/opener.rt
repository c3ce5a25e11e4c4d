// Opening in parts: each check lets out the blocks before it.
ghost use Rattle.std.specs.Prelude.{◌≡◌, ℕ, ◌+◌, ◌*◌, ◌<◌, ◌≤◌, true, false, List, ◌++◌, length};
ghost use Rattle.elmd.specs.Stream.{Frame};
ghost use Rattle.opening.specs.declared.place.Phase.TheVariants.{Over as IsOver};
ghost use Rattle.opening.specs.Opener.{next_end, completes as Completing, put_refusal, finish_refusal, refusal, cause, Moved, Judged, PutDone, FinishDone, Opening, Lets, Puts, PutMeans, Finishes, FinishMeans, Begun, Begins};

use crate::place::{Call, Opener, Phase};
use crate::segment::{judge_rest, judge_segment};
use crate::state::{Outline, Reading};
use block::Block;
use cipher::Cipher;
use elmd::refusal::{Mark, Refusal};
use elmd::settings::Settings;
use elmd::shape::Shape;
use elmd::state::ClosedHeading;

impl Opener {
    // A place that holds no opening: an opener that is over.
    pub fn unused() -> Opener
        ensures { result.phase ≡ IsOver }
    {
        let zero = Block::new(0, 0);
        Opener {
            phase: Phase::Over,
            settings: Settings {
                label: 0,
                interval: 1,
                short_tag: false,
            },
            shape: Shape {
                blocks: 1,
                checks: 0,
                tag: 16,
            },
            mark: Mark::Whole,
            size: 32,
            state: Reading::new(zero, zero),
            taken: 0,
            fill: 0,
            held: [0; 2048],
        }
    }

    // Fills the place with an opener for a stream of that length and mark.
    pub fn begin(
        place: &mut Opener,
        h: ClosedHeading,
        stream_length: usize,
        mark: Mark,
    ) -> Result<(), (Refusal, ClosedHeading)>
        ensures begun { Begun h stream_length mark place.old result place.new }
        ensures opens { Begins h result place.new }
    {
        let settings = h.settings();
        if settings.interval == 0 {
            return Err((Refusal::NoChecks, h));
        }
        let shape = match settings.shape(stream_length, mark) {
            Ok(shape) => shape,
            // No `map_err` for a `?`: its closure would take the heading on both ways.
            Err(why) => return Err((why, h)),
        };
        let (_, base, iv) = h.into_parts();
        place.phase = Phase::Filling;
        place.settings = settings;
        place.shape = shape;
        place.mark = mark;
        place.size = stream_length;
        place.state = Reading::new(base, iv);
        place.taken = 0;
        place.fill = 0;
        Ok(())
    }

    // The end of the next check, or of the stream where no check is left.
    fn next_end(&self) -> usize
        ensures { result ≡ next_end self.now }
    {
        if self.state.checks < self.shape.checks {
            self.taken - self.fill + 16 * (usize::from(self.settings.interval) + 1)
        } else {
            self.size
        }
    }

    fn completes(&self, piece: usize) -> bool
        ensures { result ≡ Completing self.now piece }
    {
        self.state.checks < self.shape.checks && self.next_end() - self.taken <= piece
    }

    fn admit_put(&self, piece: usize, room: usize) -> Result<(), Refusal>
        ensures { cause result ≡ put_refusal self.now piece room }
    {
        if piece > 0 && self.taken == self.size {
            return Err(Refusal::StreamComplete);
        }
        if self.completes(piece) && room < 16 * usize::from(self.settings.interval) {
            return Err(Refusal::RoomShort);
        }
        Ok(())
    }

    fn admit_finish(&self, room: usize) -> Result<(), Refusal>
        ensures { cause result ≡ finish_refusal self.now room }
    {
        if self.taken < self.size {
            return Err(Refusal::StreamMissing);
        }
        let t = usize::from(self.settings.interval);
        if room < 16 * (self.shape.blocks - self.shape.checks * t) {
            return Err(Refusal::RoomShort);
        }
        Ok(())
    }

    // Refuses the call where this phase does not take it.
    fn admit(&self, call: Call) -> Result<(), Refusal>
        ensures { cause result ≡ refusal self.now call }
    {
        match (self.phase, call) {
            (Phase::Over, _) => Err(Refusal::Over),
            (Phase::Spoiled, _) => Err(Refusal::Spoiled),
            (Phase::Filling, Call::Put { piece, room }) => self.admit_put(piece, room),
            (Phase::Filling, Call::Finish { room }) => self.admit_finish(room),
        }
    }

    // Takes a piece that completes no check.
    fn take_in(&mut self, piece: &[u8])
        requires { (self.old.taken + length piece.now ≤ next_end self.old) × ((self.old.state.checks < self.old.shape.checks → self.old.taken + length piece.now < next_end self.old)) }
        ensures moved { Moved self.old (length piece.now) self.new }
        ensures kept { (self.new.phase ≡ self.old.phase) × (self.new.state ≡ self.old.state) }
        ensures opens { (u : Frame) (s : List ℕ) → Opening u s self.old → Opening u (s ++ piece.now) self.new }
    {
        let end = self.fill + piece.len();
        self.held[self.fill..end].copy_from_slice(piece);
        self.taken += piece.len();
        self.fill = end;
    }

    // Takes the piece that completes a check, and lets out the blocks before it where it is good.
    fn complete<C: Cipher>(
        &mut self,
        c: &mut C,
        piece: &[u8],
        out: &mut [u8],
    ) -> Result<(usize, usize), Refusal>
        requires { (self.old.state.checks < self.old.shape.checks) × ((self.old.taken + length piece.now ≡ next_end self.old) × (16 * self.old.settings.interval ≤ length out.old)) }
        ensures judged { Judged self.old (length piece.now) out.old result self.new out.new }
        ensures lets { (u : Frame) (s : List ℕ) → u.cipher ≡ C.Cipher.meaning c.old → Opening u s self.old → Lets u self.old (s ++ piece.now) result self.new out.new }
        ensures same { C.Cipher.meaning c.new ≡ C.Cipher.meaning c.old }
    {
        let t = usize::from(self.settings.interval);
        self.held[self.fill..self.fill + piece.len()].copy_from_slice(piece);
        let judged = judge_segment(c, self.state, t, &mut self.held, out);
        self.taken += piece.len();
        self.fill = 0;
        match judged {
            Ok(next) => {
                self.state = next;
                Ok((piece.len(), 16 * t))
            }
            Err(why) => {
                self.phase = Phase::Spoiled;
                // A bad check counts too: its bytes are taken.
                self.state.checks += 1;
                Err(why)
            }
        }
    }

    // Takes bytes up to the end of the next check, and answers how many it took and how many it let out.
    pub fn put<C: Cipher>(
        &mut self,
        c: &mut C,
        piece: &[u8],
        out: &mut [u8],
    ) -> Result<(usize, usize), Refusal>
        ensures done { PutDone self.old (length piece.now) out.old result self.new out.new }
        ensures means { PutMeans (C.Cipher.meaning c.old) self.old piece.now out.old result self.new }
        ensures puts { Puts (C.Cipher.meaning c.old) self.old piece.now out.old result self.new out.new }
        ensures same { C.Cipher.meaning c.new ≡ C.Cipher.meaning c.old }
    {
        self.admit(Call::Put {
            piece: piece.len(),
            room: out.len(),
        })?;
        let n = piece.len().min(self.next_end() - self.taken);
        if self.completes(piece.len()) {
            return self.complete(c, &piece[0..n], out);
        }
        self.take_in(&piece[0..n]);
        Ok((n, 0))
    }

    // Judges the end of the stream, and answers how many bytes it let out.
    pub fn finish<C: Cipher>(&mut self, c: &mut C, out: &mut [u8]) -> Result<usize, Refusal>
        ensures done { FinishDone self.old out.old result self.new out.new }
        ensures means { FinishMeans (C.Cipher.meaning c.old) self.old out.old result out.new }
        ensures finishes { Finishes (C.Cipher.meaning c.old) self.old out.old result out.new }
        ensures same { C.Cipher.meaning c.new ≡ C.Cipher.meaning c.old }
    {
        self.admit(Call::Finish { room: out.len() })?;
        let t = usize::from(self.settings.interval);
        let n = self.shape.blocks - self.shape.checks * t - 1;
        let outline = Outline {
            settings: self.settings,
            shape: self.shape,
            mark: self.mark,
        };
        match judge_rest(c, self.state, outline, n, &mut self.held, out) {
            Some(k) => {
                self.phase = Phase::Over;
                Ok(k)
            }
            None => {
                self.phase = Phase::Spoiled;
                Err(Refusal::BadTag)
            }
        }
    }
}
