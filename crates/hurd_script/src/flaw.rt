//! Why a line of a script is bad.
ghost use Rattle.std.specs.Prelude.{◌≡◌};
ghost use Rattle.hurd_script.specs.Flaws.{flaw_text};

use std::alloc::{AllocError, AllocFailed};

/// Why a line of a script is bad: the first test that it fails.
#[derive(Clone, Copy, Debug, PartialEq, Eq)]
pub enum ScriptFlaw {
    /// The script is longer than 1,048,576 bytes.
    Length,
    /// A word has a byte or a backslash that no word has.
    Word,
    /// It is a user line after a command.
    LateUser,
    /// It is a user line of another form than `user NAME UIDS GIDS`.
    UserForm,
    /// The name isn't 1 to 16 lower-case letters and digits, the first a letter.
    UserName,
    /// Somebody has the name already, or it is `user`.
    TakenName,
    /// There are 64 users already.
    UserCount,
    /// The ids aren't two lists of at most 32 different numbers, each with commas between them or `-`.
    UserIds,
    /// Nobody has the name that it begins with.
    NoUser,
    /// Nothing comes after the name.
    NoCommand,
    /// What comes after the name is no command.
    OtherCommand,
}

impl ScriptFlaw {
    /// The flaw in words.
    pub fn text(self) -> &'static str
        ensures { result.now ≡ flaw_text self }
    {
        match self {
            ScriptFlaw::Length => "longer than 1048576 bytes",
            ScriptFlaw::Word =>
                "words are printable ASCII; a backslash must be followed by s, n or a backslash",
            ScriptFlaw::LateUser => "user lines must come before the first command",
            ScriptFlaw::UserForm => "a user line is: user NAME UIDS GIDS",
            ScriptFlaw::UserName => {
                "a user's name is 1 to 16 lower-case letters and digits, a letter first"
            }
            ScriptFlaw::TakenName => "the name is taken, or is root or user",
            ScriptFlaw::UserCount => "there are 64 users already",
            ScriptFlaw::UserIds =>
                "UIDS and GIDS are each at most 32 numbers below 4294967296 with commas between them, or -",
            ScriptFlaw::NoUser => "the line begins with no user's name",
            ScriptFlaw::NoCommand => "no command after the name",
            ScriptFlaw::OtherCommand => "no such command",
        }
    }
}

/// Why a line was not read.
#[derive(Clone, Copy, Debug, PartialEq, Eq)]
pub enum LineFault {
    Bad(ScriptFlaw),
    Memory,
}

impl From<AllocError> for LineFault {
    ghost use Rattle.std.specs.Prelude.{◌≡◌};
    ghost use Rattle.hurd_script.specs.declared.flaw.LineFault.TheVariants.{Memory};

    ghost from_gives = { λ _ e. e ≡ Memory };

    fn from(_error: AllocError) -> LineFault {
        LineFault::Memory
    }
}

impl<T: Drop> From<AllocFailed<T>> for LineFault {
    ghost use Rattle.std.specs.Prelude.{◌≡◌};
    ghost use Rattle.hurd_script.specs.declared.flaw.LineFault.TheVariants.{Memory};

    ghost from_gives = { λ _ e. e ≡ Memory };

    fn from(_error: AllocFailed<T>) -> LineFault {
        LineFault::Memory
    }
}
