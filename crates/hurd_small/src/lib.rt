//! Servers of one node: a text, nothing, zero bytes without end, a link, a firm link, a magical link, a drip, a pipe.
//!
//! Each is a `Lone` of what it says itself, and of what it keeps of the node, a `Keeper`; `Lone` has the node, and answers every call on it.
//! Where nothing changes that is a `Single`, in `Still`: of the first six a `Fixed`, whatever the kind.
#![tactic(auto)]

mod contents;
mod fixed;
mod fixed_kind;
mod fixed_server;
mod keeper;
mod kept;
mod lone;
mod presence;
mod single;
mod still;
mod text;
mod words;

pub use fixed::Fixed;
pub use fixed_kind::FixedKind;
pub use fixed_server::FixedServer;
pub use keeper::Keeper;
pub use kept::{Kept, KeptServer};
pub use lone::Lone;
pub use single::Single;
pub use still::Still;
pub use words::no_options;
