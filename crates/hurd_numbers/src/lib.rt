//! Calls and replies as numbers and bytes, for programs that make many: no text is written or read on the way.
//!
//! `Numbers` has the numbers of a call, and `call_of` makes the call of them and of some bytes: a path, a name, data, or words that each end with a zero byte.
//! Bits that no flag has, and words that no server takes, make none. `line_of` is the line of a list that makes the same call, and `listed` the call with its line. `Figures` has the numbers of a reply,
//! and `bytes_of` its bytes.
//!
//! What a call does and what it is answered is the world's to say. Names and arguments are those of `fs.defs`, `fsys.defs` and `io.defs`.
#![tactic(auto)]

mod calls;
mod figures;
mod flags;
mod lines;
mod same;
mod words;

pub use calls::{Numbers, call_of};
pub use figures::{Figures, bytes_of, figures_of, no_figures};
pub use flags::{mode, open_flags};
pub use lines::{line_of, listed, listed_start};
