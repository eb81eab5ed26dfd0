//! Looking a path up, one lookup at a time.
//!
//! `dir_lookup` goes from a directory along the names of a path, asks at each directory whether the port's ids may
//! search it, and opens what it comes to, or makes a file. Across servers that are active on nodes, along links and back it tells
//! a retry; at a translator that waits on a node, what is to be started first. What it answers and changes is `plan_lookup` of
//! `specs/Seeking`. `fsys_getroot` opens the root of a server that a port controls, as where that is crossed.
//!
//! They follow no retries: that is the client's loop. `resolve` is that loop inside the core, for the targets of servers, of those that come and of those that wait.
#![tactic(auto)]

mod authority;
mod cross;
mod end;
mod found;
pub mod getroot;
mod here;
pub mod lent;
pub mod lookup;
pub mod nested;
mod path;
mod request;
pub mod resolve;
mod rest;
mod retry;
pub mod touches;
mod walk;

pub use path::first_slash;
