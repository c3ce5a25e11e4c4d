// A heading in pieces.
ghost use Rattle.std.specs.Prelude.{◌≡◌, length, IfOk};
ghost use Rattle.elmd.specs.Envelope.{heading_answer};
ghost use Rattle.elmd.specs.Refusals.{told};
ghost use Rattle.elmd.specs.Heading.{Closes, add_answer, Joined as Joins};
ghost use Rattle.rehearsal.specs.Joined.{joined_bytes, frame_under};

use cipher::Cipher;
use elmd::heading::open_heading;
use elmd::refusal::Refusal;
use elmd::state::{ClosedHeading, OpenHeading};

// What both sides are under besides the cipher: an envelope whose heading comes in pieces.
#[derive(Clone, Copy)]
pub struct Heading<'a> {
    pub settings: [u8; 8],
    pub nonce: [u8; 8],
    pub pieces: &'a [&'a [u8]],
}

impl Heading<'_> {
    // Opens a heading, adds each piece, and closes it.
    pub(crate) fn close<C: Cipher>(&self, c: &mut C) -> Result<ClosedHeading, Refusal>
        ensures answer { told result ≡ heading_answer (frame_under (C.Cipher.meaning c.old) self.now) }
        ensures closes { IfOk result (Closes (frame_under (C.Cipher.meaning c.old) self.now)) }
        ensures same { C.Cipher.meaning c.new ≡ C.Cipher.meaning c.old }
    {
        let mut heading = open_heading(c, &self.settings, &self.nonce)?;
        add_all(&mut heading, c, self.pieces)?;
        Ok(heading.close(c))
    }
}

fn add_all<C: Cipher>(h: &mut OpenHeading, c: &mut C, pieces: &[&[u8]]) -> Result<(), Refusal>
    ensures answer { result ≡ add_answer h.old.len (length (joined_bytes pieces.now)) }
    ensures joined { Joins (C.Cipher.meaning c.old) h.old (joined_bytes pieces.now) result h.new }
    ensures same { C.Cipher.meaning c.new ≡ C.Cipher.meaning c.old }
{
    for piece in pieces {
        h.add(c, piece)?;
    }
    Ok(())
}
