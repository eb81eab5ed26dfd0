//! A script of several users' commands on its way, over an empty tree in memory, with the servers that its words make.
//!
//! `RunningScript` reads a script, begins its world, and tells a part for each command. The law says what it means that commands teach nothing.
#![tactic(auto)]

mod laws;
mod script;
mod session;

pub use laws::silent_commands_can_be_left_out;
pub use script::RunningScript;
