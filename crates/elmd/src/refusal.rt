ghost use Rattle.std.specs.Prelude.{◌≡◌};
ghost use Rattle.elmd.specs.Refusals.{number, mark_number, Decodes};

use std::error::Error;
use std::fmt;

// Why a call of the seal refuses. Each cause has a number, by which the outside knows it.
#[derive(Clone, Copy, PartialEq, Eq, Debug)]
pub enum Refusal {
    // the settings: another cipher's label, t above 127, another length of checks, of the tag, a spare byte that is not 0
    OtherLabel,
    Interval,
    CheckLength,
    TagLength,
    SpareByte,
    // the heading is longer than 65,536 bytes
    HeadingLength,
    // the message has no byte or more than 16,777,216
    MessageLength,
    // more bytes than were stated; no room for what would be handed over; fewer bytes than were stated
    PieceTooLong,
    OutputShort,
    BytesMissing,
    // an opening in parts needs checks; no message has this stream length and mark
    NoChecks,
    StreamLength,
    // the opening is over; it is spoiled; all of the stream is in
    Over,
    Spoiled,
    StreamComplete,
    // no room for what would be let out
    RoomShort,
    // check j does not hold
    BadCheck(usize),
    // fewer bytes than the stream has
    StreamMissing,
    // the last block or the tag does not hold
    BadTag,
}

impl From<Refusal> for u8 {
    ghost from_gives = { λ why n. n ≡ number why };

    fn from(why: Refusal) -> u8 {
        match why {
            Refusal::OtherLabel => 11,
            Refusal::Interval => 12,
            Refusal::CheckLength => 13,
            Refusal::TagLength => 14,
            Refusal::SpareByte => 15,
            Refusal::HeadingLength => 21,
            Refusal::MessageLength => 22,
            Refusal::PieceTooLong => 23,
            Refusal::OutputShort => 24,
            Refusal::BytesMissing => 25,
            Refusal::NoChecks => 31,
            Refusal::StreamLength => 32,
            Refusal::Over => 34,
            Refusal::Spoiled => 35,
            Refusal::StreamComplete => 36,
            Refusal::RoomShort => 37,
            Refusal::BadCheck(_) => 38,
            Refusal::StreamMissing => 39,
            Refusal::BadTag => 40,
        }
    }
}

impl fmt::Display for Refusal {
    fn fmt<W: fmt::Write>(&self, f: &mut fmt::Formatter<W>) -> fmt::Result {
        match self {
            Refusal::OtherLabel => f.write_str("the settings are another cipher's"),
            Refusal::Interval => f.write_str("an interval of checks above 127"),
            Refusal::CheckLength => f.write_str("another length of checks than 128 bits"),
            Refusal::TagLength => f.write_str("another length of the tag than 128 bits"),
            Refusal::SpareByte => f.write_str("a spare byte of the settings that is not 0"),
            Refusal::HeadingLength => f.write_str("a heading of more than 65,536 bytes"),
            Refusal::MessageLength => {
                f.write_str("a message of no byte or of more than 16,777,216")
            }
            Refusal::PieceTooLong => f.write_str("a piece longer than what is missing"),
            Refusal::OutputShort => f.write_str("no room for the stream"),
            Refusal::BytesMissing => f.write_str("bytes of the message are missing"),
            Refusal::NoChecks => f.write_str("a stream without checks is opened whole"),
            Refusal::StreamLength => f.write_str("no stream has this length and mark"),
            Refusal::Over => f.write_str("the opening is over"),
            Refusal::Spoiled => f.write_str("the opening is spoiled"),
            Refusal::StreamComplete => f.write_str("all of the stream is in"),
            Refusal::RoomShort => f.write_str("no room for the message"),
            Refusal::BadCheck(j) => write!(f, "check {j} does not hold"),
            Refusal::StreamMissing => f.write_str("bytes of the stream are missing"),
            Refusal::BadTag => f.write_str("the last block or the tag does not hold"),
        }
    }
}

impl Error for Refusal {}

// Whether the last block of a message is whole (its number is 1) or was filled (0).
#[derive(Clone, Copy, PartialEq, Eq, Debug)]
pub enum Mark {
    Filled,
    Whole,
}

impl From<Mark> for u8 {
    ghost from_gives = { λ mark n. n ≡ mark_number mark };

    fn from(mark: Mark) -> u8 {
        match mark {
            Mark::Filled => 0,
            Mark::Whole => 1,
        }
    }
}

// A number that no mark has.
#[derive(Clone, Copy, PartialEq, Eq, Debug)]
pub struct UnknownMark(pub u8);

impl TryFrom<u8> for Mark {
    type Error = UnknownMark;

    ghost try_from_gives = { Decodes };

    fn try_from(n: u8) -> Result<Mark, UnknownMark> {
        match n {
            0 => Ok(Mark::Filled),
            1 => Ok(Mark::Whole),
            _ => Err(UnknownMark(n)),
        }
    }
}

impl fmt::Display for UnknownMark {
    fn fmt<W: fmt::Write>(&self, f: &mut fmt::Formatter<W>) -> fmt::Result {
        write!(f, "no mark has the number {}", self.0)
    }
}

impl Error for UnknownMark {}
