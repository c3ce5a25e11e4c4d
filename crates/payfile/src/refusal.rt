ghost use Rattle.payfile.specs.Refusals.{fault_number, file_number};
ghost use Rattle.std.specs.Prelude.{◌≡◌};

use elmd::refusal::Refusal;
use std::error::Error;
use std::fmt;

// What is wrong with a pay file apart from its seal.
#[derive(Clone, Copy, PartialEq, Eq, Debug)]
pub enum FileFault {
    // label 255: the paper cipher keeps nothing secret, so no pay file has it
    PracticeLabel,
    // no shed has this number; no week has it
    Shed,
    Week,
    // under 26 bytes; another version than 1; a mark byte above 1; a heading above 65,536 bytes; lengths that do not add up to the file
    FileShort,
    Version,
    MarkByte,
    HeadingTooLong,
    Lengths,
}

impl From<FileFault> for u8 {
    ghost from_gives = { λ fault n. n ≡ fault_number fault };

    fn from(fault: FileFault) -> u8 {
        match fault {
            FileFault::PracticeLabel => 41,
            FileFault::Shed => 42,
            FileFault::Week => 43,
            FileFault::FileShort => 51,
            FileFault::Version => 52,
            FileFault::MarkByte => 53,
            FileFault::HeadingTooLong => 54,
            FileFault::Lengths => 55,
        }
    }
}

impl fmt::Display for FileFault {
    fn fmt<W: fmt::Write>(&self, f: &mut fmt::Formatter<W>) -> fmt::Result {
        match self {
            FileFault::PracticeLabel => f.write_str("the settings are the paper cipher's"),
            FileFault::Shed => f.write_str("no shed has this number"),
            FileFault::Week => f.write_str("no week has this number"),
            FileFault::FileShort => f.write_str("a file of under 26 bytes"),
            FileFault::Version => f.write_str("another version than 1"),
            FileFault::MarkByte => f.write_str("a mark byte above 1"),
            FileFault::HeadingTooLong => f.write_str("a heading of more than 65,536 bytes"),
            FileFault::Lengths => f.write_str("lengths that do not add up to the file"),
        }
    }
}

impl Error for FileFault {}

// Why a pay file is refused, by the layer that refuses it: the file, or the seal in it.
#[derive(Clone, Copy, PartialEq, Eq, Debug)]
pub enum FileRefusal {
    File(FileFault),
    Seal(Refusal),
}

impl From<FileFault> for FileRefusal {
    ghost use Rattle.payfile.specs.declared.refusal.FileRefusal.TheVariants.{File};

    ghost from_gives = { λ fault why. why ≡ File fault };

    fn from(fault: FileFault) -> FileRefusal {
        FileRefusal::File(fault)
    }
}

impl From<Refusal> for FileRefusal {
    ghost use Rattle.payfile.specs.declared.refusal.FileRefusal.TheVariants.{Seal};

    ghost from_gives = { λ cause why. why ≡ Seal cause };

    fn from(cause: Refusal) -> FileRefusal {
        FileRefusal::Seal(cause)
    }
}

impl From<FileRefusal> for u8 {
    ghost from_gives = { λ why n. n ≡ file_number why };

    fn from(why: FileRefusal) -> u8 {
        match why {
            FileRefusal::File(fault) => u8::from(fault),
            FileRefusal::Seal(cause) => u8::from(cause),
        }
    }
}

impl fmt::Display for FileRefusal {
    fn fmt<W: fmt::Write>(&self, f: &mut fmt::Formatter<W>) -> fmt::Result {
        match self {
            FileRefusal::File(fault) => write!(f, "{fault}"),
            FileRefusal::Seal(cause) => write!(f, "{cause}"),
        }
    }
}

impl Error for FileRefusal {}
