//! A text on its way through a world of its own, a script or a list of calls: it tells parts, one after another.
//!
//! `Telling` is what both are. `play` prints all that one tells, `play_silently` goes to its end, and `transcribe` begins a text and does so. `complaint` is what is said of a text with a bad line, `complaint_on` of the line alone, and `push_shown_line` shows one.
//!
//! It knows no script and no list: those are the crates above, which say what a text of their sort tells.
#![tactic(auto)]

mod boxing;
mod complaining;
mod playing;
mod telling;

pub use boxing::boxed;
pub use complaining::{complaint, complaint_on, push_shown_line};
pub use playing::{play, play_silently, transcribe};
pub use telling::Telling;
