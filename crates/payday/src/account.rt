// What the pay run did, counted.
use elmd::refusal::Refusal;
use std::alloc::{AllocError, Global};
use std::collections::BTreeMap;
use std::fmt;

#[derive(Drop)]
pub(crate) struct Account {
    sealed: u32,
    opened: u32,
    streamed: u32,
    refused: u32,
    by_number: BTreeMap<u8, u32>,
    message_bytes: u64,
    stream_bytes: u64,
    opened_bytes: u64,
}

impl Account {
    pub(crate) fn new(heap: Global) -> Account {
        Account {
            sealed: 0,
            opened: 0,
            streamed: 0,
            refused: 0,
            by_number: BTreeMap::new(heap),
            message_bytes: 0,
            stream_bytes: 0,
            opened_bytes: 0,
        }
    }

    pub(crate) fn note_sealed(&mut self, message: usize, stream: usize) {
        self.sealed = self.sealed.wrapping_add(1);
        self.message_bytes = self.message_bytes.wrapping_add(message as u64);
        self.stream_bytes = self.stream_bytes.wrapping_add(stream as u64);
    }

    pub(crate) fn note_opened(&mut self, message: usize) {
        self.opened = self.opened.wrapping_add(1);
        self.opened_bytes = self.opened_bytes.wrapping_add(message as u64);
    }

    pub(crate) fn note_streamed(&mut self) {
        self.streamed = self.streamed.wrapping_add(1);
    }

    pub(crate) fn note_refused(&mut self, why: Refusal) -> Result<(), AllocError> {
        self.refused = self.refused.wrapping_add(1);
        let count = self.by_number.entry(u8::from(why))?.or_insert(0);
        *count = count.wrapping_add(1);
        Ok(())
    }
}

impl fmt::Display for Account {
    fn fmt<W: fmt::Write>(&self, f: &mut fmt::Formatter<W>) -> fmt::Result {
        writeln!(f, "Account of the run")?;
        writeln!(
            f,
            "  sealed   {:>3} files: {} bytes of wages, {} bytes of stream",
            self.sealed, self.message_bytes, self.stream_bytes
        )?;
        writeln!(
            f,
            "  opened   {:>3} times: {} bytes of wages let out",
            self.opened, self.opened_bytes
        )?;
        writeln!(f, "  streamed {:>3} files, line by line", self.streamed)?;
        writeln!(f, "  refused  {:>3} times", self.refused)?;
        for (number, count) in &self.by_number {
            writeln!(f, "    number {number}: {count:>3}")?;
        }
        Ok(())
    }
}
