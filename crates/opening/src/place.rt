ghost use Rattle.opening.specs.Standing.{Lies, Tagged, Stands, Within};

use crate::state::Reading;
use elmd::refusal::Mark;
use elmd::settings::Settings;
use elmd::shape::Shape;

// It stands beside the rest and is no enum around it: the place is fixed memory that `begin` fills anew, also when it is
// over or spoiled.
#[derive(Clone, Copy)]
pub(crate) enum Phase {
    Filling,
    Spoiled,
    Over,
}

// What is asked of an opener: to take a piece of some length, or to end; with so much room for what is let out.
// A phase and a call are matched together, so that no call is left out in a phase.
#[derive(Clone, Copy)]
pub(crate) enum Call {
    Put { piece: usize, room: usize },
    Finish { room: usize },
}

// An opening in parts. It holds back what came since the last good check, at most 127 blocks and a check, so that no
// byte is let out before its check is good.
// These lie in an array beside `fill`, and in no Vec: the library takes no allocator, since a terminal's memory is fixed.
#[derive(Drop)]
pub struct Opener {
    pub(crate) phase: Phase,
    pub(crate) settings: Settings,
    pub(crate) shape: Shape,
    pub(crate) mark: Mark,
    pub(crate) size: usize,
    pub(crate) state: Reading,
    pub(crate) taken: usize,
    pub(crate) fill: usize,
    pub(crate) held: [u8; 2048],
    ghost lies: { Lies settings shape size },
    ghost tagged: { Tagged settings shape },
    ghost stands: { Stands settings shape state taken fill },
    ghost within: { Within settings shape size state taken fill },
}
