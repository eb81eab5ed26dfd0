//! How a call of the library ended.
ghost use Rattle.std.specs.Prelude.{◌≡◌};
ghost use Rattle.hurd_c.specs.Ends.{said_of, status_only};

use hurd_terminal::Fault;

/// How a call of the library ended.
#[repr(C)]
#[derive(Clone, Copy, Debug)]
pub struct Said {
    /// 0 all was made and told; 1 the text is bad; 2 the world was refused; 3 memory was refused; 4 there is no world; 5 somebody is named who isn't
    /// there; 6 there is no kind of texts of this number; 7 these numbers and bytes make no call, or have no line.
    pub status: u32,
    /// The number of the refusal where the world was refused, else 0.
    pub error: u32,
    /// The line at which the text is bad, else 0.
    pub line: u64,
    /// How many bytes were told.
    pub length: usize,
}

/// What is said of an end.
pub fn ending(ended: Result<(), Fault>, length: usize) -> Said
    ensures { result ≡ said_of ended length }
{
    let (status, error, line) = match ended {
        Ok(()) => (0, 0, 0),
        Err(Fault::Bad { line }) => (1, 0, line),
        Err(Fault::Boot(errno)) => (2, errno.number(), 0),
        Err(Fault::Unknown) => (5, 0, 0),
        Err(Fault::Memory | Fault::Read | Fault::Write) => (3, 0, 0),
    };
    Said {
        status,
        error,
        line,
        length,
    }
}

/// What is said by a status alone, if nothing was made or told.
pub fn status_only(status: u32) -> Said
    ensures { result ≡ status_only status }
{
    Said {
        status,
        error: 0,
        line: 0,
        length: 0,
    }
}
