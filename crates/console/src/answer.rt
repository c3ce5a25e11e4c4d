// What is printed for a line.
ghost use Rattle.std.specs.Prelude.{◌≡◌, OnOk};
ghost use Rattle.console.specs.Commands.{read_line, command_of, Sized};
ghost use Rattle.console.specs.Known.{known_of, after};
ghost use Rattle.console.specs.Replies.{Reply, Adds, Gives};

use crate::fault::Failure;
use crate::given::Given;
use crate::line::Line;
use crate::reading::read_line;
use crate::reply::{put_block, put_fault, put_opened, put_sealed};
use std::alloc::{AllocError, Global};

impl Given {
    // Keeps what a line gives, or writes the reply that it asks for.
    // `heap` and `out` stay apart: the two replies that need room take both, and a struct of them would be taken apart at once.
    fn obey(&mut self, line: Line, heap: Global, out: &mut Vec<u8>) -> Result<(), Failure>
        requires { Sized (command_of line) }
        ensures { Gives result out.old.items out.new.items (Reply (known_of self.old) (command_of line)) (known_of self.new ≡ after (known_of self.old) (command_of line)) }
    {
        match line {
            Line::Key(key) => self.key = Some(key),
            Line::Nonce(nonce) => self.nonce = Some(nonce),
            Line::Settings(settings) => self.settings = Some(settings),
            Line::Heading(heading) => self.heading = Some(heading),
            Line::Block(block) => put_block(&mut self.cipher()?, &block, out)?,
            Line::Message(message) => {
                let envelope = self.envelope()?;
                let mut c = self.cipher()?;
                put_sealed(&mut c, &envelope, message.as_slice(), heap, out)?
            }
            Line::Stream(mark, stream) => {
                let envelope = self.envelope()?;
                let mut c = self.cipher()?;
                put_opened(&mut c, &envelope, mark, stream.as_slice(), heap, out)?
            }
        }
        Ok(())
    }

    fn reply(&mut self, text: &[u8], heap: Global, out: &mut Vec<u8>) -> Result<(), Failure>
        ensures { Gives result out.old.items out.new.items (Reply (known_of self.old) (read_line text.now)) (known_of self.new ≡ after (known_of self.old) (read_line text.now)) }
    {
        let line = read_line(heap, text)??;
        self.obey(line, heap, out)
    }

    // Writes what is printed for a line behind what was written.
    pub(crate) fn answer(
        &mut self,
        text: &[u8],
        heap: Global,
        out: &mut Vec<u8>,
    ) -> Result<(), AllocError>
        ensures { OnOk result (Adds out.old.items out.new.items (Reply (known_of self.old) (read_line text.now)) × (known_of self.new ≡ after (known_of self.old) (read_line text.now))) }
    {
        match self.reply(text, heap, out) {
            Ok(()) => Ok(()),
            Err(Failure::Fault(fault)) => put_fault(out, fault),
            Err(Failure::Memory(e)) => Err(e),
        }
    }
}
