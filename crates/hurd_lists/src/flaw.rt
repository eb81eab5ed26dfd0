//! Why a line of a list of calls is bad.
ghost use Rattle.std.specs.Prelude.{◌≡◌};
ghost use Rattle.hurd_lists.specs.Flaws.{flaw_text, or_flaw};

use hurd_words::fault::ReadFault;
use std::alloc::{AllocError, AllocFailed};

/// Why a line of a list of calls is bad: the first test that it fails.
#[derive(Clone, Copy, Debug, PartialEq, Eq)]
pub enum ListFlaw {
    /// The list is longer than 1,048,576 bytes.
    Length,
    /// A word has a byte or a backslash that no word has.
    Word,
    /// It is a task line of another form than `task UIDS GIDS`.
    TaskForm,
    /// It is a task line after a call.
    LateTask,
    /// There are 64 tasks already.
    TaskCount,
    /// The ids aren't two lists of at most 32 different numbers, each with commas between them or `-`.
    TaskIds,
    /// It is neither a task line nor `TASK CALL ARG..`.
    CallForm,
    /// It begins with no task's number.
    TaskNumber,
    /// What comes after the number is no call.
    OtherCall,
    /// The call takes no such arguments.
    Arguments,
    /// The words after `box` are those of no server.
    Server,
}

impl ListFlaw {
    /// The flaw in words.
    pub fn text(self) -> &'static str
        ensures { result.now ≡ flaw_text self }
    {
        match self {
            ListFlaw::Length => "longer than 1048576 bytes",
            ListFlaw::Word =>
                "words are printable ASCII; a backslash must be followed by s, n, xHH or a backslash",
            ListFlaw::TaskForm => "a task line is: task UIDS GIDS",
            ListFlaw::LateTask => "task lines must come before the first call",
            ListFlaw::TaskCount => "there are 64 tasks already",
            ListFlaw::TaskIds =>
                "UIDS and GIDS are each at most 32 numbers below 4294967296 with commas between them, or -",
            ListFlaw::CallForm => "a call is: TASK CALL ARG..",
            ListFlaw::TaskNumber => "the line begins with no task's number",
            ListFlaw::OtherCall => "no such call",
            ListFlaw::Arguments => "wrong number or type of arguments",
            ListFlaw::Server => "the words after box don't name a server; each starts with =",
        }
    }
}

/// Why a line was not read.
#[derive(Clone, Copy, Debug, PartialEq, Eq)]
pub enum LineFault {
    Bad(ListFlaw),
    Memory,
}

impl From<AllocError> for LineFault {
    ghost use Rattle.std.specs.Prelude.{◌≡◌};
    ghost use Rattle.hurd_lists.specs.declared.flaw.LineFault.TheVariants.{Memory};

    ghost from_gives = { λ _ e. e ≡ Memory };

    fn from(_error: AllocError) -> LineFault {
        LineFault::Memory
    }
}

impl<T: Drop> From<AllocFailed<T>> for LineFault {
    ghost use Rattle.std.specs.Prelude.{◌≡◌};
    ghost use Rattle.hurd_lists.specs.declared.flaw.LineFault.TheVariants.{Memory};

    ghost from_gives = { λ _ e. e ≡ Memory };

    fn from(_error: AllocFailed<T>) -> LineFault {
        LineFault::Memory
    }
}

/// What was read; what could not be is bad for this reason.
pub fn or_flaw<T>(read: Result<T, ReadFault>, flaw: ListFlaw) -> Result<T, LineFault>
    ensures { result ≡ or_flaw read flaw }
{
    match read {
        Ok(value) => Ok(value),
        Err(ReadFault::Bad) => Err(LineFault::Bad(flaw)),
        Err(ReadFault::Memory) => Err(LineFault::Memory),
    }
}
