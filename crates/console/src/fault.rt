// Why a line has no reply of its own.
ghost use Rattle.std.specs.Prelude.{◌≡◌};
ghost use Rattle.console.specs.Faults.{fault_number};
ghost use Rattle.console.specs.declared.fault.Fault.TheVariants.{Line, Refused};
ghost use Rattle.console.specs.declared.fault.Failure.TheVariants.{Fault, Memory};

use crate::line::LineFault;
use elmd::refusal::Refusal;
use std::alloc::AllocError;

#[derive(Clone, Copy, PartialEq, Eq, Debug)]
pub(crate) enum Fault {
    Line(LineFault),
    // it needs what no earlier line gave
    NotGiven,
    Refused(Refusal),
}

impl From<Fault> for u8 {
    ghost from_gives = { λ fault n. n ≡ fault_number fault };

    fn from(fault: Fault) -> u8 {
        match fault {
            Fault::Line(LineFault::UnknownLetter) => 91,
            Fault::Line(LineFault::Malformed) => 92,
            Fault::NotGiven => 93,
            Fault::Refused(why) => u8::from(why),
        }
    }
}

// Why a reply was not written: the fault that is printed in its place, or no memory.
#[derive(Clone, Copy, PartialEq, Eq, Debug)]
pub(crate) enum Failure {
    Fault(Fault),
    Memory(AllocError),
}

impl From<Fault> for Failure {
    ghost from_gives = { λ fault r. r ≡ Fault fault };

    fn from(fault: Fault) -> Failure {
        Failure::Fault(fault)
    }
}

impl From<LineFault> for Failure {
    ghost from_gives = { λ fault r. r ≡ Fault (Line fault) };

    fn from(fault: LineFault) -> Failure {
        Failure::Fault(Fault::Line(fault))
    }
}

impl From<Refusal> for Failure {
    ghost from_gives = { λ why r. r ≡ Fault (Refused why) };

    fn from(why: Refusal) -> Failure {
        Failure::Fault(Fault::Refused(why))
    }
}

impl From<AllocError> for Failure {
    ghost from_gives = { λ e r. r ≡ Memory e };

    fn from(e: AllocError) -> Failure {
        Failure::Memory(e)
    }
}
