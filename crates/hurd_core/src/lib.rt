//! The core that rows of calls work on: servers with their nodes, and the ports of tasks.
//!
//! `Core` owns both, and counts the users of each server. A call first asks it, which changes nothing, and then makes its changes by its methods: each stands
//! for changes of the written machine, and either makes all of them or none.
//!
//! It decides nothing: what may be asked and changed is in the plan of each call.
#![tactic(auto)]

mod asking;
mod named;
mod port_node;
mod the_core;
mod to_make;
mod users;

pub use port_node::PortNode;
pub use the_core::Core;
pub use to_make::{NodeToMake, ServerToMake};
