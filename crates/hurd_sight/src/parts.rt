//! The parts of a world that a set of tasks sees.
use hurd_creds::{NodeName, OpenName, ServerName, TaskId};

/// A part of a world.
#[derive(Clone, Copy, Debug, PartialEq, Eq)]
pub enum SeenPart {
    /// A node's server, the one active on it, and its attributes, but whether it is empty.
    Attributes(NodeName),
    /// Whether a directory is empty.
    Empty(NodeName),
    /// A node's bytes or entries.
    Body(NodeName),
    /// How many opens read a node, and how many write it, where its server is told.
    Ends(NodeName),
    /// An open, and how many rights hold it.
    Open(OpenName),
    /// A server, except for its text, unless that is a link's or a tree's.
    Options(ServerName),
    /// The text of a server.
    Text(ServerName),
    /// How many rights there are on a server's nodes.
    Users(ServerName),
    /// What the files of a server that entries name have in all.
    Total(ServerName),
    /// A task.
    Task(TaskId),
}
