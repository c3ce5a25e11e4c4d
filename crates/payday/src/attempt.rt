// Seals and opens a file, and tells what came of it.
use crate::order::{Order, cipher};
use crate::parcel::Parcel;
use crate::run::Run;
use elmd::refusal::Refusal;
use labelled::LabelledCipher;
use opening::open;
use sealing::seal;

// What an output holds before a call, so that it is seen what the call wrote.
const BLANK: u8 = 0x2e;

// How many zeros an output begins with, where all behind them is blank still.
fn zeros(out: &[u8]) -> Option<usize> {
    let count = out.iter().take_while(|x| **x == 0).count();
    let blank = out.iter().skip(count).all(|x| *x == BLANK);
    blank.then_some(count)
}

// Whether an output holds the wages, then zeros to the end of their last block, then what it held before.
fn holds(out: &[u8], wages: &[u8]) -> bool {
    let filled = wages.len().wrapping_neg() % 16;
    out.strip_prefix(wages)
        .is_some_and(|rest| zeros(rest) == Some(filled))
}

// A reader of files: the cipher, and the wages that should come out.
#[derive(Drop)]
pub(crate) struct Reader<'a> {
    pub(crate) cipher: LabelledCipher,
    pub(crate) wages: &'a [u8],
}

impl<'a> Reader<'a> {
    // The reader of an order's file, where the key ends so.
    pub(crate) fn of(order: &Order<'a>, last: u8) -> anyhow::Result<Reader<'a>> {
        Ok(Reader {
            cipher: cipher(order.settings.label, last)?,
            wages: order.wages,
        })
    }
}

impl Run<'_> {
    // Seals into `room` bytes, and tells what came of it.
    pub(crate) fn sealed<'a>(
        &mut self,
        order: &Order<'a>,
        room: usize,
    ) -> anyhow::Result<Option<Parcel<'a>>> {
        let mut cipher = cipher(order.settings.label, 0x3c)?;
        let mut stream = vec![in self.rt.alloc(); BLANK; room]?;
        match seal(
            &mut cipher,
            &order.envelope,
            order.wages,
            stream.as_mut_slice(),
        ) {
            Ok((size, mark)) => {
                let n = order.wages.len();
                self.account.note_sealed(n, size);
                stream.truncate(size);
                println!(self.rt;
                    "  sealed: {n} bytes of wages, {size} bytes of stream, mark {}",
                    u8::from(mark)
                )?;
                Ok(Some(Parcel {
                    envelope: order.envelope,
                    stream,
                    mark,
                }))
            }
            Err(why) => {
                self.tell_refused("sealed into room one byte short", why, stream.as_slice())?;
                Ok(None)
            }
        }
    }

    // Opens a parcel into `room` bytes, and tells what came of it.
    pub(crate) fn attempt(
        &mut self,
        reader: &mut Reader<'_>,
        what: &str,
        p: &Parcel<'_>,
        room: usize,
    ) -> anyhow::Result<()> {
        let mut out = vec![in self.rt.alloc(); BLANK; room]?;
        let stream = p.stream.as_slice();
        match open(
            &mut reader.cipher,
            &p.envelope,
            stream,
            p.mark,
            out.as_mut_slice(),
        ) {
            Ok(n) if n == reader.wages.len() && holds(out.as_slice(), reader.wages) => {
                self.account.note_opened(n);
                println!(self.rt; "  {what:<42} opened: {n} bytes, the same as were sealed")?;
            }
            Ok(n) => println!(self.rt; "  {what:<42} OPENED AS SOMETHING ELSE: {n} bytes")?,
            Err(why) => self.tell_refused(what, why, out.as_slice())?,
        }
        Ok(())
    }

    fn tell_refused(&mut self, what: &str, why: Refusal, out: &[u8]) -> anyhow::Result<()> {
        print!(self.rt; "  {what:<42} ")?;
        self.note_refused(why)?;
        match zeros(out) {
            Some(0) => println!(self.rt; "; output untouched")?,
            Some(n) => println!(self.rt; "; {n} bytes zeroed")?,
            None => println!(self.rt; "; OUTPUT LEAKED")?,
        }
        Ok(())
    }
}
