//! What is told of a node.
ghost use Rattle.std.specs.Prelude.{◌≡◌};
ghost use Rattle.hurd_creds.specs.Stats.{stat_of};

use crate::mode::Mode;
use crate::name::NodeName;

/// What a node is.
#[derive(Clone, Copy, Debug, PartialEq, Eq)]
pub enum Kind {
    File,
    Dir,
    Link,
    Fifo,
    Char,
}

/// What somebody wants to do with a node. `Exec` on a directory is searching it.
#[derive(Clone, Copy, Debug, PartialEq, Eq)]
pub enum Want {
    Read,
    Write,
    Exec,
}

/// A node's attributes. The fields of one byte stand together: so they are moved with the others, in registers.
#[derive(Clone, Copy, Debug, PartialEq, Eq)]
pub struct Attrs {
    pub kind: Kind,
    /// Whether it is a directory without entries.
    pub empty: bool,
    /// Whether words of a passive translator are stored.
    pub passive: bool,
    /// Whether a translator is active.
    pub active: bool,
    pub owner: u32,
    pub group: u32,
    pub mode: Mode,
    /// How many entries name a file; one for any other node.
    pub links: u32,
    /// In bytes.
    pub size: u64,
    /// The parent of a directory that is an entry.
    pub parent: Option<NodeName>,
}

/// The attributes that `io_stat` tells.
#[derive(Clone, Copy, Debug, PartialEq, Eq)]
pub struct Stat {
    pub kind: Kind,
    pub passive: bool,
    pub active: bool,
    pub owner: u32,
    pub group: u32,
    pub mode: Mode,
    pub links: u32,
    pub size: u64,
}

impl Attrs {
    /// What `io_stat` tells of these attributes.
    pub fn stat(&self) -> Stat
        ensures { result ≡ stat_of self.now }
    {
        Stat {
            kind: self.kind,
            owner: self.owner,
            group: self.group,
            mode: self.mode,
            links: self.links,
            size: self.size,
            passive: self.passive,
            active: self.active,
        }
    }
}
