// A delivery: a sheet is sealed and opened again, and so is each copy of the file that something befell on the way.
use crate::attempt::Reader;
use crate::order::Order;
use crate::parcel::{Parcel, Plan};
use crate::run::Run;
use anyhow::bail;
use elmd::refusal::Mark;
use elmd::shape::Shape;

// Labels are the format's numbers.
fn other_label(label: u8) -> u8 {
    if label == 32 { 10 } else { 32 }
}

fn other_mark(mark: Mark) -> Mark {
    match mark {
        Mark::Filled => Mark::Whole,
        Mark::Whole => Mark::Filled,
    }
}

// A file on its way to its reader.
#[derive(Drop)]
struct Delivery<'a, 'r> {
    run: &'a mut Run<'r>,
    reader: Reader<'a>,
    parcel: Parcel<'a>,
    plan: Plan,
}

impl Run<'_> {
    // Makes a file, opens it, and opens each copy of it that something befell.
    pub(crate) fn deliver(&mut self, order: &Order<'_>) -> anyhow::Result<()> {
        self.rt.println(order.title)?;
        let parcel = self.made(order)?;
        let shape = order.settings.shape(parcel.stream.len(), parcel.mark)?;
        println!(self.rt;
            "  laid out: {} blocks, {} checks, {} bytes of the tag",
            shape.blocks, shape.checks, shape.tag
        )?;
        let plan = Plan {
            interval: usize::from(order.settings.interval),
            shape,
        };
        let mut delivery = Delivery {
            run: self,
            reader: Reader::of(order, 0x3c)?,
            parcel,
            plan,
        };
        delivery.bits_turned()?;
        delivery.told_wrongly()?;
        delivery.lengthened()?;
        delivery.rooms(Reader::of(order, 0x3d)?)?;
        delivery.in_parts()?;
        println!(delivery.run.rt; "")?;
        Ok(())
    }

    // The file that was ordered; and that it has the length that was foretold.
    fn made<'a>(&mut self, order: &Order<'a>) -> anyhow::Result<Parcel<'a>> {
        let size = order.settings.stream_length(order.wages.len())?;
        let short = self.sealed(order, size.saturating_sub(1))?;
        let whole = self.sealed(order, size)?;
        let (None, Some(parcel)) = (short, whole) else {
            bail!("the stream's length is not what was foretold");
        };
        Ok(parcel)
    }
}

impl Delivery<'_, '_> {
    fn attempt(&mut self, what: &str, p: &Parcel<'_>) -> anyhow::Result<()> {
        let room = self.parcel.stream.len().saturating_add(48);
        self.run.attempt(&mut self.reader, what, p, room)
    }

    // Opens a copy of the file that something befell.
    fn after<F: FnOnce(&mut Parcel<'_>)>(&mut self, what: &str, befall: F) -> anyhow::Result<()>
        requires { F.IsAlwaysCallable befall }
    {
        let mut copy = self.parcel.clone()?;
        befall(&mut copy);
        self.attempt(what, &copy)
    }

    fn after_turning(&mut self, what: &str, at: usize) -> anyhow::Result<()> {
        self.after(what, |p| p.turn(at))
    }

    fn after_adding(&mut self, what: &str, zeros: &[u8]) -> anyhow::Result<()> {
        let mut copy = self.parcel.clone()?;
        copy.stream.extend_from_slice(zeros)?;
        self.attempt(what, &copy)
    }

    fn bits_turned(&mut self) -> anyhow::Result<()> {
        let plan = self.plan;
        let Shape { blocks, checks, .. } = plan.shape;
        self.after("as it was sealed", |_| {})?;
        self.after_turning(
            "a bit turned in the first block",
            plan.block(1).saturating_add(5),
        )?;
        if checks >= 2 {
            let behind = plan.block(plan.interval.saturating_add(1));
            self.after_turning("a bit turned in the block behind check 1", behind)?;
            self.after_turning("a bit turned in check 2", plan.check(2))?;
        }
        self.after_turning("a bit turned in the last block", plan.block(blocks))?;
        self.after_turning("a bit turned in the tag", plan.tag())?;
        self.after("the first two blocks swapped", |p| {
            p.swap_blocks(plan.block(1), plan.block(2))
        })
    }

    fn told_wrongly(&mut self) -> anyhow::Result<()> {
        self.after("the other mark", |p| p.mark = other_mark(p.mark))?;
        self.after("another file's number", |p| p.envelope.nonce = [7; 8])?;
        self.after(
            "opened for shed 13, week 3",
            |p| p.envelope.heading = b"133",
        )?;
        self.after(
            "opened for shed 12, week 4",
            |p| p.envelope.heading = b"124",
        )?;
        self.after(
            "opened for shed 1, week 23: same digits",
            |p| p.envelope.heading = b"123",
        )?;
        self.after("another cipher's settings", |p| {
            p.envelope.settings[0] = other_label(p.envelope.settings[0])
        })
    }

    fn lengthened(&mut self) -> anyhow::Result<()> {
        self.after("the last byte lost", |p| p.cut(1))?;
        self.after("the last sixteen bytes lost", |p| p.cut(16))?;
        self.after_adding("a zero byte added", &[0])?;
        self.after_adding("sixteen zero bytes added", &[0; 16])?;
        self.after("every byte lost", |p| p.stream.clear())
    }

    // Opens the file as it was sealed: by a reader with another key, and into room that just suffices or does not.
    fn rooms(&mut self, mut stranger: Reader<'_>) -> anyhow::Result<()> {
        let room = self.plan.shape.blocks.saturating_mul(16);
        let less = room.saturating_sub(1);
        let p = &self.parcel;
        self.run
            .attempt(&mut stranger, "opened with another key", p, room)?;
        self.run
            .attempt(&mut self.reader, "room of exactly the blocks", p, room)?;
        self.run
            .attempt(&mut self.reader, "room one byte short", p, less)
    }

    // Opens the file as it comes in, and a copy of it that is damaged half way.
    fn in_parts(&mut self) -> anyhow::Result<()> {
        let c = &mut self.reader.cipher;
        self.run
            .open_in_parts(c, "handed over in pieces of odd sizes", &self.parcel)?;
        let mut damaged = self.parcel.clone()?;
        damaged.turn(self.parcel.stream.len() / 2);
        self.run
            .open_in_parts(c, "the same with a bit turned half way", &damaged)
    }
}
