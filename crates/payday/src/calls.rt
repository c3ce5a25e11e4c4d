// Every call of the library in parts, tried once on a short message: also those that are refused.
use crate::order::cipher;
use crate::run::Run;
use anyhow::{bail, ensure};
use cipher::Cipher;
use elmd::envelope::Envelope;
use elmd::refusal::{Mark, Refusal};
use elmd::settings::Settings;
use rehearsal::{Call, Given, Heading, NotGiven, OpenAnswer, Part, SealAnswer, Taken, rehearse};
use sealing::seal;

const NONCE: [u8; 8] = [0, 0, 0, 0, 0, 0, 0x30, 0x04];

const MESSAGE: [u8; 40] = [b'7'; 40];

impl Run<'_> {
    fn tell_call_refused(&mut self, why: Refusal) -> anyhow::Result<()> {
        self.note_refused(why)?;
        println!(self.rt; "")?;
        Ok(())
    }

    // Apart from `tell_opener`: the answers differ, and so does what is told of each.
    fn tell_sealer(&mut self, answers: &[SealAnswer]) -> anyhow::Result<()> {
        for answer in answers {
            print!(self.rt; "  sealer: ")?;
            match *answer {
                Ok(Given::Handed(n)) => println!(self.rt; "handed over {n}")?,
                Ok(Given::Sealed(n, _)) => {
                    println!(self.rt; "handed over {n}, and the seal is made")?
                }
                Err(NotGiven::Refused(why)) => self.tell_call_refused(why)?,
                Err(NotGiven::Ended) => println!(self.rt; "no seal any more")?,
            }
        }
        Ok(())
    }

    fn tell_opener(&mut self, answers: &[OpenAnswer]) -> anyhow::Result<()> {
        for answer in answers {
            print!(self.rt; "  opener: ")?;
            match *answer {
                Ok(Taken::Took(n, out)) => println!(self.rt; "took {n}, let out {out}")?,
                Ok(Taken::Opened(n)) => println!(self.rt; "let out {n}, and the file is open")?,
                Err(why) => self.tell_call_refused(why)?,
            }
        }
        Ok(())
    }

    // With a check every two blocks and the whole tag, 40 bytes make a stream of 80.
    pub(crate) fn all_calls(&mut self, settings: Settings) -> anyhow::Result<()> {
        println!(self.rt; "Every call on a seal and an opening in parts")?;
        let mut c = cipher(settings.label, 0x3c)?;
        let envelope = Envelope {
            settings: settings.to_bytes(),
            nonce: NONCE,
            heading: b"123",
        };
        let mut stream = [0u8; 80];
        let (_, mark) = seal(&mut c, &envelope, &MESSAGE, &mut stream)?;
        let mut sealed = [0u8; 96];
        let mut opened = [0u8; 96];
        let mut seal_answers = [Err(NotGiven::Ended); 6];
        let mut open_answers = [Ok(Taken::Opened(0)); 7];
        rehearsed(
            &mut c,
            &envelope,
            &mut Part {
                calls: &seal_calls(),
                out: &mut sealed,
                answers: &mut seal_answers,
            },
            mark,
            &mut Part {
                calls: &open_calls(&stream),
                out: &mut opened,
                answers: &mut open_answers,
            },
        )?;
        self.tell_sealer(&seal_answers)?;
        self.tell_opener(&open_answers)?;
        ensure!(
            sealed.starts_with(&stream) && opened.starts_with(&MESSAGE),
            "the parts do not come to the whole"
        );
        println!(self.rt; "  both come to what was sealed whole")?;
        println!(self.rt; "")?;
        Ok(())
    }
}

fn seal_calls() -> [Call<'static>; 6] {
    let (front, back) = (&MESSAGE[0..17], &MESSAGE[17..40]);
    [
        put(front, 16),
        Call::Finish { room: 96 },
        put(back, 8),
        put(back, 32),
        Call::Finish { room: 32 },
        Call::Finish { room: 32 },
    ]
}

fn put(piece: &[u8], room: usize) -> Call<'_> {
    Call::Put { piece, room }
}

fn open_calls(stream: &[u8; 80]) -> [Call<'_>; 7] {
    [
        put(&stream[0..31], 0),
        put(&stream[31..80], 0),
        put(&stream[31..80], 32),
        Call::Finish { room: 16 },
        put(&stream[48..80], 0),
        Call::Finish { room: 16 },
        Call::Finish { room: 16 },
    ]
}

fn rehearsed<C: Cipher>(
    c: &mut C,
    envelope: &Envelope<'_>,
    sealed: &mut Part<'_, SealAnswer>,
    mark: Mark,
    opened: &mut Part<'_, OpenAnswer>,
) -> anyhow::Result<()> {
    let heading = Heading {
        settings: envelope.settings,
        nonce: envelope.nonce,
        pieces: &[b"12", b"3"],
    };
    match rehearse(c, &heading, 40, sealed, 80, mark, opened) {
        (Ok(_), Ok(_)) => Ok(()),
        _ => bail!("a seal or an opening that is not begun"),
    }
}
