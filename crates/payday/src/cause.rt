// Why a call is refused, in the office's words where they are not the library's: a stream is a file, and its message the wages.
use elmd::refusal::Refusal;
use std::fmt;

#[derive(Clone, Copy)]
pub(crate) struct Cause(pub(crate) Refusal);

impl fmt::Display for Cause {
    fn fmt<W: fmt::Write>(&self, f: &mut fmt::Formatter<W>) -> fmt::Result {
        match self.0 {
            Refusal::NoChecks => f.write_str("a file without checks is opened whole"),
            Refusal::StreamLength => f.write_str("no file has this length and mark"),
            Refusal::RoomShort => f.write_str("no room for the wages"),
            Refusal::BadCheck(j) => write!(f, "a check does not hold, check {j}"),
            Refusal::BadTag => f.write_str("last block or tag does not hold"),
            why => write!(f, "{why}"),
        }
    }
}
