// What a stream is sealed under, besides the cipher.
ghost use Rattle.std.specs.Prelude.{◌≡◌, IfOk};
ghost use Rattle.elmd.specs.Heading.{Closes};
ghost use Rattle.elmd.specs.Refusals.{told};
ghost use Rattle.elmd.specs.Envelope.{frame_under, heading_answer};

use crate::heading::open_heading;
use crate::refusal::Refusal;
use crate::state::ClosedHeading;
use cipher::Cipher;

// Settings, nonce and heading (the associated data). They go beside the stream, or are known at both ends.
#[derive(Clone, Copy)]
pub struct Envelope<'a> {
    pub settings: [u8; 8],
    pub nonce: [u8; 8],
    pub heading: &'a [u8],
}

impl Envelope<'_> {
    // The heading whole: opened, given its bytes, and closed.
    pub fn close<C: Cipher>(&self, c: &mut C) -> Result<ClosedHeading, Refusal>
        ensures answer { told result ≡ heading_answer (frame_under (C.Cipher.meaning c.old) self.now) }
        ensures closes { IfOk result (Closes (frame_under (C.Cipher.meaning c.old) self.now)) }
        ensures same { C.Cipher.meaning c.new ≡ C.Cipher.meaning c.old }
    {
        let mut heading = open_heading(c, &self.settings, &self.nonce)?;
        heading.add(c, self.heading)?;
        Ok(heading.close(c))
    }
}
