// The calls of a rehearsal, and what answers them.
ghost use Rattle.std.specs.Prelude.{◌≡◌};
ghost use Rattle.rehearsal.specs.Calls.{room_of};

use elmd::refusal::{Mark, Refusal};

// A call on a sealer or an opener, with the room that its output may take.
#[derive(Clone, Copy)]
pub enum Call<'a> {
    Put { piece: &'a [u8], room: usize },
    Finish { room: usize },
}

impl Call<'_> {
    pub fn room(&self) -> usize
        ensures { result ≡ room_of self.now }
    {
        match *self {
            Call::Put { room, .. } | Call::Finish { room } => room,
        }
    }
}

// The calls to make on one side, where their output goes, and the places for their answers. There is no heap, so the caller lends
// one place for each answer. Tried: a `Part` by value. The borrow checker does not cover passing it on, so each call takes a
// `&mut Part`, and says that the part keeps its borrows.
#[derive(Drop)]
pub struct Part<'a, A> {
    pub calls: &'a [Call<'a>],
    pub out: &'a mut [u8],
    pub answers: &'a mut [A],
}

// What a sealer did: how many bytes it handed over, and after an accepted finish the mark.
#[derive(Clone, Copy)]
pub enum Given {
    Handed(usize),
    Sealed(usize, Mark),
}

// Why it did not; after an accepted finish there is no sealer any more.
#[derive(Clone, Copy)]
pub enum NotGiven {
    Refused(Refusal),
    Ended,
}

pub type SealAnswer = Result<Given, NotGiven>;

// What an opener did: how many bytes it took and let out, or how many an accepted end let out.
#[derive(Clone, Copy)]
pub enum Taken {
    Took(usize, usize),
    Opened(usize),
}

pub type OpenAnswer = Result<Taken, Refusal>;
