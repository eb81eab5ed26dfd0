//! Samples: random scripts and random lists of calls, each from a seed.
//!
//! `sample_script` makes a script of so many commands, and `sample_calls` a list of so many calls. A sample is a function of its seed
//! and count alone, the same on every machine. Who does what is drawn so that most of what a command names is there, and that some
//! commands are refused.
//!
//! A sample is good. Commands of a script are drawn as users, verbs and texts, and only `Drawn::push` writes them, by the escapes of
//! scripts. A list is read by the reader of lists before it is given.
#![tactic(auto)]

mod board;
mod command;
mod draws;
mod fault;
mod lists;
mod nodes;
mod scene;
mod scripts;

pub use fault::SampleFault;
pub use lists::sample_calls;
pub use scripts::sample_script;
