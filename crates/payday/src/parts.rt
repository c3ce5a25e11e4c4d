// A file in parts: the terminal pays each line as its check passes.
use crate::parcel::Parcel;
use crate::run::Run;
use anyhow::Context;
use cipher::Cipher;
use elmd::refusal::Refusal;
use opening::Opener;
use std::io;
use std::iter::successors;

// A terminal has fixed memory: enough for what one check lets out, at most 127 blocks.
const ROOM: usize = 2048;

// Why an opening in parts ends early.
#[derive(Drop)]
enum Stop {
    Refused(Refusal),
    Failed(anyhow::Error),
}

impl From<Refusal> for Stop {
    fn from(why: Refusal) -> Stop {
        Stop::Refused(why)
    }
}

impl From<anyhow::Error> for Stop {
    fn from(e: anyhow::Error) -> Stop {
        Stop::Failed(e)
    }
}

impl From<io::Error> for Stop {
    fn from(e: io::Error) -> Stop {
        Stop::Failed(anyhow::Error::from(e))
    }
}

fn begun<C: Cipher>(c: &mut C, p: &Parcel<'_>) -> Result<Opener, Refusal> {
    let heading = p.envelope.close(c)?;
    let mut opener = Opener::unused();
    Opener::begin(&mut opener, heading, p.stream.len(), p.mark).map_err(|(why, _)| why)?;
    Ok(opener)
}

// A terminal in the midst of a file. A line that is begun waits in `line`.
#[derive(Drop)]
struct Terminal<'a, C> {
    rt: &'a HostRuntime,
    cipher: &'a mut C,
    opener: Opener,
    line: Vec<u8>,
}

impl<C: Cipher> Terminal<'_, C> {
    // Prints each line that is whole now.
    fn pay_lines(&mut self, out: &[u8]) -> anyhow::Result<()> {
        for byte in out {
            if *byte != b'\n' {
                self.line.push(*byte)?;
                continue;
            }
            let text = std::str::from_utf8(self.line.as_slice()).context("a line that is no text")?;
            println!(self.rt; "      paid: {text}")?;
            self.line.clear();
        }
        Ok(())
    }

    // Takes from the front of `rest` a piece of at most `size` bytes; answers what is left.
    fn take<'s>(&mut self, rest: &'s [u8], size: usize) -> Result<&'s [u8], Stop> {
        let (piece, _) = rest.split_at(size.min(rest.len()));
        let n = piece.len();
        let mut room = [0u8; ROOM];
        let (took, out) = self.opener.put(self.cipher, piece, &mut room)?;
        println!(self.rt; "    piece of {n}: took {took}, let out {out}")?;
        self.pay_lines(room.split_at(out.min(ROOM)).0)?;
        Ok(rest.split_at(took.min(n)).1)
    }

    // Hands the stream over in pieces of odd sizes.
    fn take_all(&mut self, stream: &[u8]) -> Result<(), Stop> {
        let mut rest = stream;
        let sizes = successors(Some(1usize), |size| Some(size.wrapping_add(14) % 64));
        for size in sizes.take(stream.len()) {
            if rest.is_empty() {
                break;
            }
            rest = self.take(rest, size)?;
        }
        Ok(())
    }

    fn end(&mut self) -> Result<(), Stop> {
        let mut room = [0u8; ROOM];
        let n = self.opener.finish(self.cipher, &mut room)?;
        println!(self.rt; "    end: let out {n}")?;
        self.pay_lines(room.split_at(n.min(ROOM)).0)?;
        Ok(())
    }
}

impl Run<'_> {
    fn pay<C: Cipher>(&self, c: &mut C, p: &Parcel<'_>) -> Result<(), Stop> {
        let mut terminal = Terminal {
            rt: self.rt,
            opener: begun(c, p)?,
            cipher: c,
            line: Vec::new(self.rt.alloc()),
        };
        terminal.take_all(p.stream.as_slice())?;
        terminal.end()
    }

    // Opens a parcel as it comes in, piece by piece.
    pub(crate) fn open_in_parts<C: Cipher>(
        &mut self,
        c: &mut C,
        what: &str,
        p: &Parcel<'_>,
    ) -> anyhow::Result<()> {
        println!(self.rt; "  {what}")?;
        match self.pay(c, p) {
            Ok(()) => self.account.note_streamed(),
            Err(Stop::Refused(why)) => {
                print!(self.rt; "    ")?;
                self.note_refused(why)?;
                println!(self.rt; "; nothing more is let out")?;
            }
            Err(Stop::Failed(e)) => return Err(e),
        }
        Ok(())
    }
}
