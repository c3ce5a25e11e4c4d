// A line of the text, read.
use elmd::refusal::Mark;

#[derive(Drop)]
pub enum Line {
    Key([u8; 16]),
    Nonce([u8; 8]),
    Settings([u8; 8]),
    Heading(Vec<u8>),
    Message(Vec<u8>),
    Block([u8; 16]),
    Stream(Mark, Vec<u8>),
}

// Why a text is no line: no letter that is known; or a known letter, and not what belongs behind it.
#[derive(Clone, Copy, PartialEq, Eq, Debug)]
pub enum LineFault {
    UnknownLetter,
    Malformed,
}
