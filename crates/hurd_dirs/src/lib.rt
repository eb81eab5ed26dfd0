//! Calls on the entries of directories: making directories and files, links, removal, renames (`fs.defs`).
//!
//! Each has its plan in `specs/`: what it asks, with its refusals in order, and what it changes.
#![tactic(auto)]

mod entry;
pub mod file;
pub mod link;
pub mod make;
pub mod remove;
pub mod rename;
