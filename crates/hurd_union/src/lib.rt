//! A union: a server of one directory that shows what several others have, and the merging of their names.
#![tactic(auto)]

mod branches;
mod coded;
pub mod merge;
mod union;

pub use branches::Branches;
pub use union::{Union, new_union, union_of};
