//! The tree as a library for programs in C: texts come in, and what they tell goes out as text. A world of tasks can be kept for further texts.
//!
//! `hurd_begin` begins the world of a list's tasks and makes its calls, and `hurd_make` makes those of a further text. `hurd_watch` names tasks: from then on
//! what they learn is told too. `hurd_told` gives what the last text told, and `hurd_end` lets the world go. `hurd_call` makes one call as numbers and bytes,
//! and `hurd_line` gives the line of a list that makes the same call. `hurd_open` opens a path, by as many calls as that takes.
//!
//! `hurd_run`, `hurd_learn`, `hurd_see` and `hurd_draw` take a whole text, a script or a list, in a world of its own, and tell what the program `hurd` prints.
//! What a program in C is to keep is in `examples/c/hurd.h`: the proofs take it as kept.
#![tactic(auto)]

mod calls;
mod exports;
mod handle;
mod opening;
mod parts;
mod said;
mod texts;

pub use calls::{Answered, hurd_call, hurd_line};
pub use exports::{hurd_begin, hurd_end, hurd_make, hurd_told, hurd_watch};
pub use handle::Handle;
pub use opening::hurd_open;
pub use said::Said;
pub use texts::{hurd_draw, hurd_learn, hurd_run, hurd_see};
