//! Whether two views are the same except for the internal names of what others made.
//!
//! Names of nodes, servers and opens count what their maker made, unseen things too, and no call tells them. `look_alike` compares two views
//! without them: it goes through both, and pairs the names that stand in the same places.
//! The law `alike_views_look_the_same` says what that is worth: whoever has such views is told the same, whatever they do next.
#![tactic(auto)]

mod laws;
mod looking;
mod meet;
mod pairs;
mod rights;
mod rows;

pub use laws::alike_views_look_the_same;
pub use looking::look_alike;
