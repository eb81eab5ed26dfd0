//! The world: calls of tasks, one at a time or in lists.
//!
//! `World::boot` begins a world of tasks over a boot server, `World::call` makes one call of a task, `World::run` a list of
//! calls. Replies and worlds are those of the written machine (`hurd_laws/specs/Step`), and what a set of tasks is told
//! depends only on what it sees (`docs/ISOLATION.md`).
//!
//! From `World::note` on a world notes which parts its calls touch, and `World::noted` tells these: whoever saw none of them then has
//! the same view still.
//!
//! It keeps no history and prints nothing: scripts are `hurd_shell`'s.
#![tactic(auto)]

mod boot;
mod lent;
mod replies;
mod rows;
mod world;

pub use hurd_laws::laws;
pub use hurd_machine::{Call, Lookup, PlainCall, Reply, RetryKind, Whence};
pub use hurd_touches::Noted;
pub use world::World;
