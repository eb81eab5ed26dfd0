//! A world that is kept: its calls are made a text at a time.
//!
//! `Sitting::begun` reads a list of calls, begins the world of its tasks over an empty tree in memory, and makes its calls. `Sitting::make` makes the calls of
//! a further text, which has no tasks, and `Sitting::told` is what the last text told: each call's line and reply, as `hurd run --calls` prints it.
//! A call of a task that isn't there is no fault: its reply is ESRCH.
//!
//! `Sitting::watch` names tasks. From then on `make` adds, after each call by others, what these learn from it, as `hurd learn --calls` prints it, without its last line.
//! After a call by another task, what they see is looked at again only if the call touched something of it. So a call that touches nothing that they see costs no look,
//! in the same text or in a later one.
//!
//! `Sitting::call` makes one call without any text, and gives its reply. Those who are watched are told the same of it as of a call in a text.
//!
//! `Sitting::open` opens what a path leads to, as commands of a script do, by `hurd_client`. `told` then has its calls, each with its line.
//!
//! Texts that are made one after another tell what one list of their calls tells, and leave the same world: `calls_are_one` says it of calls, `texts_are_one`
//! of the bytes of a list and of a text after it.
#![tactic(auto)]

mod answering;
mod laws;
mod making;
mod naming;
mod opening;
mod sitting;
mod stage;

pub use laws::{calls_are_one, texts_are_one};
pub use sitting::Sitting;
