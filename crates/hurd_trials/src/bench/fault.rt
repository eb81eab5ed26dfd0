//! What ends the program early.
use hurd_creds::Errno;
use std::{fmt, io};

/// Why a run ended early.
#[derive(Debug, Drop)]
pub enum Fault {
    /// The arguments are no number of files, with a kind of server or without.
    Usage,
    /// A call was refused.
    Refused(Errno),
    /// The system gave no time, or took no line.
    System(io::Error),
}

impl fmt::Display for Fault {
    fn fmt<W: fmt::Write>(&self, f: &mut fmt::Formatter<W>) -> fmt::Result {
        match self {
            Fault::Usage => write!(f, "usage: hurd_trials bench NODES [hello|firmlink]"),
            Fault::Refused(errno) => write!(f, "refused: {}", errno.name()),
            Fault::System(error) => write!(f, "{error}"),
        }
    }
}

impl From<Errno> for Fault {
    fn from(errno: Errno) -> Fault {
        Fault::Refused(errno)
    }
}

impl From<io::Error> for Fault {
    fn from(error: io::Error) -> Fault {
        Fault::System(error)
    }
}
