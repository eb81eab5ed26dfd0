//! Scripts of several users' commands, and their transcripts.
//!
//! A `Session` reads a script, boots a world over a server that its caller made, and gives one command's part of the
//! transcript after another. Where a command stops for a server, the session asks its caller for one. The parts and what is asked
//! for are those of the written transcript (`specs/Transcript`).
//!
//! It reads and writes nothing itself: that is the program's.
#![tactic(auto)]

mod answers;
mod calls;
mod commands;
mod entries;
mod fault;
mod flags;
mod isolation;
mod looking;
mod outputs;
mod phase;
mod session;
mod stages;
mod transcript;

pub use fault::{SessionFault, SupplyFault};
pub use isolation::{
    chosen_commands_tell_nothing, own_commands_go_by_what_is_seen, scripts_are_isolated,
    scripts_are_told_in_turn, scripts_side_by_side, scripts_side_by_side_renamed,
    unmoved_scripts_are_isolated,
};
pub use outputs::{a_maker_answers, outputs_are_the_transcript};
pub use session::{Session, Want};
