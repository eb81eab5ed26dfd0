//! What a program reads from its terminal and prints on it, and how it ends.
//!
//! A program of this sort reads one text from a reader, makes parts of output of it, and prints them on a writer. `read_text`
//! reads the text, `Output::print` prints a part, and `finish` says on the writer of errors why there was a fault, and gives the exit status:
//! 0 where all was printed, 1 for a bad text or where somebody is named who isn't in it, 2 for all else. What a whole run is to have printed is written in `specs/Runs`,
//! over what the program makes of a text.
//!
//! A program that reads a text of any length takes what each read gives: `Input::long` and `Input::read_more`.
//!
//! It knows no text and no part: those are the programs'.
#![tactic(auto)]

mod ending;
mod fault;
mod print;
mod read;

pub use ending::finish;
pub use fault::Fault;
pub use print::Output;
pub use read::{Input, read_text};
