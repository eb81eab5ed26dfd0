//! Why a command or a session stops.
use hurd_creds::Errno;
use hurd_terminal::Fault;
use std::alloc::AllocError;
use thiserror::Error;

/// Memory was refused.
#[derive(Clone, Copy, Debug, PartialEq, Eq)]
pub(crate) struct NoMemory;

impl From<AllocError> for NoMemory {
    fn from(_error: AllocError) -> NoMemory {
        NoMemory
    }
}

/// Why a command stops.
#[derive(Clone, Copy, Debug, PartialEq, Eq)]
pub(crate) enum Stop {
    /// A call was refused.
    Refused(Errno),
    Memory,
}

impl From<AllocError> for Stop {
    ghost use Rattle.std.specs.Prelude.{◌≡◌};
    ghost use Rattle.hurd_shell.specs.declared.fault.Stop.TheVariants.{Memory};

    ghost from_gives = { λ _ e. e ≡ Memory };

    fn from(_error: AllocError) -> Stop {
        Stop::Memory
    }
}

impl From<Errno> for Stop {
    ghost use Rattle.std.specs.Prelude.{◌≡◌};
    ghost use Rattle.hurd_shell.specs.declared.fault.Stop.TheVariants.{Refused};

    ghost from_gives = { λ errno e. e ≡ Refused errno };

    fn from(errno: Errno) -> Stop {
        Stop::Refused(errno)
    }
}

impl From<NoMemory> for Stop {
    ghost use Rattle.std.specs.Prelude.{◌≡◌};
    ghost use Rattle.hurd_shell.specs.declared.fault.Stop.TheVariants.{Memory};

    ghost from_gives = { λ _ e. e ≡ Memory };

    fn from(_error: NoMemory) -> Stop {
        Stop::Memory
    }
}

/// Why a session stops before all its commands are made.
#[derive(Debug, Drop, Error)]
pub enum SessionFault {
    /// The script is bad at this line, counted from 1; at line 0 where it is too long.
    #[error("hurd: line {line}: bad script")]
    BadScript { line: u64 },
    /// The world was refused.
    #[error("hurd: cannot create the initial tree: {}", .0.name())]
    Boot(Errno),
    #[error("hurd: out of memory")]
    Memory,
}

impl From<AllocError> for SessionFault {
    ghost use Rattle.std.specs.Prelude.{◌≡◌};
    ghost use Rattle.hurd_shell.specs.declared.fault.SessionFault.TheVariants.{Memory};

    ghost from_gives = { λ _ e. e ≡ Memory };

    fn from(_error: AllocError) -> SessionFault {
        SessionFault::Memory
    }
}

/// Why a session took no answer.
#[derive(Clone, Copy, Debug, PartialEq, Eq)]
pub enum SupplyFault {
    /// No server is asked for.
    NotWanted,
    Memory,
}

impl From<SessionFault> for Fault {
    ghost use Rattle.std.specs.Prelude.{◌≡◌};
    ghost use Rattle.hurd_shell.specs.Faults.{fault_of};

    ghost from_gives = { λ session fault. fault ≡ fault_of session };

    fn from(session: SessionFault) -> Fault {
        match session {
            SessionFault::BadScript { line } => Fault::Bad { line },
            SessionFault::Boot(errno) => Fault::Boot(errno),
            SessionFault::Memory => Fault::Memory,
        }
    }
}
