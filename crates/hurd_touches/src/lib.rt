//! Which parts of a world calls touch, said before they are made.
//!
//! `Noted` keeps the parts that some calls touch, one call after another: `Noted::note` adds those of a call, as the world stands
//! before it. Whoever sees none of the noted parts where that began has the same view after all of these calls: so says
//! `noted_calls_are_unnoticed`.
//!
//! Nothing here takes memory, or changes anything. More may be noted than is touched, and never less.
#![tactic(auto)]

mod calls;
mod dir_parts;
mod laws;
mod node_parts;
mod noted;
mod part_list;
mod port_parts;

pub use laws::{noted_calls_are_unnoticed, nothing_is_unnoticed};
pub use noted::Noted;
