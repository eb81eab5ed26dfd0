//! Where something is that a set of tasks sees, in words.
//!
//! A node is told by its path, and by the ports that are on it: `/tmp/notes (port 3)`. The path is the way by which the node was found:
//! entries by their names, as `/home/bob`; a parent, the root of a server and its targets by words, as `/tmp(parent)`. The plain path of a node
//! on which a server is active is that of the server's root, and the node underlying it is marked, as `/tmp(underlying)`. An open is told by the
//! first right that has it, as `port 3`, and a server by the first of its nodes, as `/tmp (server)`.
#![tactic(auto)]

mod labels;
mod laws;
mod paths;
mod places;
mod servers;

pub use laws::{places_differ, places_fit};
pub use places::{node_path, node_place, place, server_path};
