//! What is asked of a text, a script or a list of calls, and the whole program that does it.
//!
//! `perform` reads a text, does what is asked, says of a fault why on a second writer, and gives the exit status: 0 where all was printed, 1 for a bad text or
//! where somebody is named who isn't in it, 2 for all else. It opens no file and reads no command line: those are the programs'.
//! `answer_text` does what is asked of a text in memory, for who has no reader and no writer.
#![tactic(auto)]

mod answering;
mod pairing;
mod performing;
mod request;
mod sampling;
mod vectors;
mod witnesses;

pub use answering::{Answer, answer_text};
pub use pairing::perform_pair;
pub use performing::perform;
pub use request::{Request, TextSort, Verb};
pub use sampling::{SampleTrouble, perform_sample};
pub use vectors::perform_vectors;
pub use witnesses::perform_witnesses;
