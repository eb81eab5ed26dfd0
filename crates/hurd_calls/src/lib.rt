//! A list of several tasks' calls on its way, over an empty tree in memory, with the servers that its words make.
//!
//! `RunningCalls` reads a list, begins the world of its tasks, and tells a part for each call: its line, and the machine's reply. For a program with boxes of
//! its own: `parsed` reads a list, and `begun` begins the world of its tasks; `brought` makes the server that a call brings, and `answer` makes the call with
//! it, and gives its answer, unless memory runs out. `task_of` is the task that a word numbers.
#![tactic(auto)]

mod beginning;
mod calling;
mod list;

pub use beginning::{begun, complaint_of, parsed};
pub use calling::{answer, brought};
pub use list::{RunningCalls, task_of};
