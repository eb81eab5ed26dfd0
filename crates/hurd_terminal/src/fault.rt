//! Why a program ends before its text does.
ghost use Rattle.std.specs.Prelude.{◌≡◌};

use hurd_creds::Errno;
use std::alloc::AllocError;

/// Why a program ends before its text does.
#[derive(Clone, Copy, Debug, PartialEq, Eq)]
pub enum Fault {
    /// The text can't be read.
    Read,
    /// The output can't be written.
    Write,
    /// The text is bad at this line, counted from 1; at line 0 where it is too long.
    Bad { line: u64 },
    /// Somebody is named who isn't in the text.
    Unknown,
    /// The world was refused.
    Boot(Errno),
    Memory,
}

impl From<AllocError> for Fault {
    ghost use Rattle.hurd_terminal.specs.declared.fault.Fault.TheVariants.{Memory};

    ghost from_gives = { λ _ fault. fault ≡ Memory };

    fn from(_error: AllocError) -> Fault {
        Fault::Memory
    }
}
