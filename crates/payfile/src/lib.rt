// The pay file: a seal with all that is needed to open it but the key.
#![tactic(auto)]

mod digits;
pub mod front;
pub mod heading;
pub mod open;
pub mod read;
pub mod refusal;
pub mod write;
