//! Calls on servers: sending one away, getting control of one, setting one on a node, and starting one that waits there.
//!
//! What each answers and changes is its plan in `specs`.
#![tactic(auto)]

mod aims;
pub mod fsys;
mod owned;
pub mod setting;
pub mod starting;
