//! What a set of tasks sees of a world.
//!
//! `Reach` are the ids that the tasks can act with, and what they could do with them. `Found` are the nodes that they see, each with why.
//! `Sight` says of each part of the world whether they see it.
#![tactic(auto)]

mod found;
mod held;
mod looks;
mod names;
mod near;
mod parts;
mod reach;

pub use found::{Found, Why, found_is_seen};
pub use held::RightNames;
pub use looks::{Sight, parts_are_seen};
pub use names::NameSet;
pub use parts::SeenPart;
pub use reach::{Reach, could_is_enough, reach_is_gathered};
