//! The kinds of server that there are, and the server that some words make.
#![tactic(auto)]

mod in_box;
mod server_box;

pub use server_box::{ServerBox, empty_tree, server_for};
