// One part of a file.
ghost use Rattle.std.specs.Prelude.{◌≡◌};
ghost use Rattle.fileparts.specs.Parts.{bytes_of, place_of};

// Which part it is, at which byte of the file it begins, and its bytes there. Blocks and checks count from 1.
// By a rule of the project a reader's parts are an enum, each borrowing its bytes from the file.
#[derive(Clone, Copy)]
pub enum Part<'a> {
    Front {
        place: usize,
        bytes: &'a [u8],
    },
    Heading {
        place: usize,
        bytes: &'a [u8],
    },
    Block {
        index: usize,
        place: usize,
        bytes: &'a [u8],
    },
    Check {
        index: usize,
        place: usize,
        bytes: &'a [u8],
    },
    Tag {
        place: usize,
        bytes: &'a [u8],
    },
}

impl<'a> Part<'a> {
    pub fn bytes(self) -> &'a [u8]
        ensures { result.now ≡ bytes_of self.entry }
    {
        match self {
            Part::Front { bytes, .. }
            | Part::Heading { bytes, .. }
            | Part::Block { bytes, .. }
            | Part::Check { bytes, .. }
            | Part::Tag { bytes, .. } => bytes,
        }
    }

    pub fn place(self) -> usize
        ensures { result ≡ place_of self.entry }
    {
        match self {
            Part::Front { place, .. }
            | Part::Heading { place, .. }
            | Part::Block { place, .. }
            | Part::Check { place, .. }
            | Part::Tag { place, .. } => place,
        }
    }
}
