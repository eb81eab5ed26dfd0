//! A picture of all that a set of tasks sees of a world, as text in the language of Graphviz (DOT).
//!
//! `picture` draws each node in the box of its server, with its owner and mode; a directory has an arrow to each of its entries, a node on
//! which a server is active has a dashed one to the root of that, a server a dotted one to each of its targets, and a task one to each node
//! that it has a port on. What some others see too can be marked, and what more a wider
//! view shows of it.
#![tactic(auto)]

mod bytes;
mod drawing;
mod laws;
mod names;
mod nodes;
mod servers;
mod tasks;

pub use drawing::picture;
pub use laws::{drawn_helped_where_more, drawn_unseen_where_unseen, labels_are_plain};
pub use names::{Owner, Titles};
