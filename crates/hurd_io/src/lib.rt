//! Reading and writing open files, and what is told of a node.
//!
//! `io_read` and `io_write` move bytes between a caller and a file that a port has open, at an offset or at the open's
//! cursor; `io_stat` tells the attributes of a port's node. What they answer and change is `plan_read`, `plan_write` and
//! `plan_stat` of `specs/Io`.
#![tactic(auto)]

pub mod io;
mod offset;
pub mod opens;
pub mod sharing;
