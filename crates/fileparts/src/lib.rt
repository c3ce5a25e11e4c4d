// The parts of a pay file, one after another: front, heading, each block and check of the stream, tag.
#![tactic(auto)]

ghost use Rattle.fileparts.specs.Laws.{Walks, Contents, Ends};

pub mod copy;
pub mod part;
pub mod reader;

// A walk through a file gives all its parts in order, and they are the file.
pub fn reader_laws()
    ensures walks { Walks }
    ensures contents { Contents }
    ensures ends { Ends }
{}
