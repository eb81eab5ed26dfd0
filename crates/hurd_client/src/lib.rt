//! What a task does on its own side: programs of calls, and the opening of a path.
//!
//! A lookup may be answered that it goes on somewhere else, or that a translator is to be started first. In the Hurd the C library
//! follows these answers (`hurd_file_name_lookup`; GNU Hurd Reference Manual, *Files*). An `Opening` does so here, a call at a time: `next` says which call it makes
//! next, and `replied` takes the reply. It makes no call itself, so whoever has a world makes them, and may note each.
//!
//! Which calls it makes is written as a program (`specs/Looking`): a call, and by its reply the next.
#![tactic(auto)]

mod answers;
mod names;
mod opening;

pub use answers::{port_of, set_of, started, started_of};
pub use opening::{Next, NextCall, OpenHow, Opening, Turn};
