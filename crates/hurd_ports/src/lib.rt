//! Tasks with their ports, and what is open.
//!
//! A task has a table of ports: rights by number. Numbers rise from the one that the table begins with, and none is
//! used again. A right is to use a node, and then has an open and the ways that it came in by, or to control a server. An open has a
//! cursor and modes, and goes with its last right.
//!
//! A task also has an inbox: rights that it was sent, in their order. It takes the first of them as a port.
//!
//! And it may be to start the translator that waits on a node: its pending start, of which there is one at most. It counts as a right
//! of a third kind, that names the node.
//!
//! A port is filled into room that was reserved for it, so that nothing is left to fail once its node is made.
//!
//! How often rights name each open, node and server, and use each node, is counted as they come and go, so that it takes no search to know.
//! So is how many opens of each node are to read it, and to write it.
//!
//! It knows no nodes: a right may name one that is gone. What a right allows is for the calls to say.
#![tactic(auto)]

mod book;
mod compare;
mod opens;
mod parents;
mod ports;
mod table;

pub use parents::{Parent, Parents};
pub use ports::Ports;
pub use table::{Ends, IoRight, Opened, PendingStart, Port, Right, TaskSeat};
