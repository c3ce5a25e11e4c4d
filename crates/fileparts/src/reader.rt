// Reading a file in parts.
ghost use Rattle.std.specs.Prelude.{◌≡◌, ◌+◌, ◌*◌, ◌≤◌, length, IfOk};

use crate::part::Part;
use elmd::settings::Settings;
use elmd::shape::Shape;
use payfile::front::FRONT;
use payfile::read::read_front;
use payfile::refusal::FileRefusal;

const BLOCK: usize = 16;

// A file, how many of its parts were given, and its layout: the bytes of the heading, the settings and the shape of the stream.
#[derive(Drop)]
pub struct Reader<'a> {
    file: &'a [u8],
    given: usize,
    heading: usize,
    settings: Settings,
    shape: Shape,
    ghost whole: { length file.now ≡ 26 + heading + 16 * (shape.blocks + shape.checks) + shape.tag },
}

impl<'a> Reader<'a> {
    ghost use Rattle.payfile.specs.Refusals.{told};
    ghost use Rattle.fileparts.specs.Parts.{Taken, piece_at, stream_piece, checks_before, layout_of, spots, parts};
    ghost use Rattle.fileparts.specs.Laws.{Walked};
    ghost use Rattle.fileparts.specs.Reads.{Answered, Starts};

    // Judges a file, from its front to the length of its stream, and begins to read it.
    pub fn new(file: &'a [u8]) -> Result<Reader<'a>, FileRefusal>
        ensures answer { Answered file.now (told result) }
        ensures starts { IfOk result (Starts file.now) }
        ensures walks { IfOk result (Walked file.now) }
    {
        let front = read_front(file)?;
        let settings = Settings::read(&front.settings, front.settings[0])?;
        let shape = settings.shape(front.stream, front.mark)?;
        Ok(Reader {
            file,
            given: 0,
            heading: front.heading,
            settings,
            shape,
        })
    }

    // Part `n`; none behind the tag.
    fn part(&self, n: usize) -> Option<Part<'a>>
        ensures { Taken self.now.file.now (parts (layout_of self.now)) n (piece_at (layout_of self.now) n) result }
    {
        match n {
            0 => Some(Part::Front {
                place: 0,
                bytes: &self.file[0..FRONT],
            }),
            1 => Some(Part::Heading {
                place: FRONT,
                bytes: &self.file[FRONT..FRONT + self.heading],
            }),
            _ => self.stream_part(n - 2),
        }
    }

    // What stands at place `e` of the stream.
    fn stream_part(&self, e: usize) -> Option<Part<'a>>
        ensures { Taken self.now.file.now (spots (layout_of self.now) + 1) e (stream_piece (layout_of self.now) e) result }
    {
        let places = self.shape.blocks + self.shape.checks;
        if e > places {
            return None;
        }
        let place = FRONT + self.heading + BLOCK * e;
        if e == places {
            let bytes = &self.file[place..place + self.shape.tag];
            return Some(Part::Tag { place, bytes });
        }
        let bytes = &self.file[place..place + BLOCK];
        let before = self.checks_before(e);
        let after = self.checks_before(e + 1);
        if before < after {
            Some(Part::Check {
                index: after,
                place,
                bytes,
            })
        } else {
            Some(Part::Block {
                index: e + 1 - before,
                place,
                bytes,
            })
        }
    }

    // How many checks stand among the first `e` places of the stream.
    fn checks_before(&self, e: usize) -> usize
        ensures value { result ≡ checks_before self.now.settings.interval e }
        ensures most { result ≤ e }
    {
        match self.settings.interval {
            0 => 0,
            t => e / (usize::from(t) + 1),
        }
    }
}

impl<'a> Iterator for Reader<'a> {
    ghost use Rattle.std.specs.Iterator.{at_most};
    ghost use Rattle.fileparts.specs.Parts.{Gives, left_of};

    type Item = Part<'a>;

    ghost next_gives = { λ s r t. Gives s r t };

    ghost remaining = { λ s. at_most (left_of s) };

    fn next(&mut self) -> Option<Part<'a>> {
        let part = self.part(self.given)?;
        self.given += 1;
        Some(part)
    }
}
