//! Errors.
ghost use Rattle.std.specs.Prelude.{◌≡◌};
ghost use Rattle.hurd_creds.specs.Errors.{number_of, name_of};
ghost use Rattle.hurd_creds.specs.Memory.{is_no_memory};

use std::alloc::AllocError;

/// Why a call was refused. The numbers are this project's own.
#[derive(Clone, Copy, Debug, PartialEq, Eq)]
pub enum Errno {
    EPERM,
    ENOENT,
    EIO,
    EBADF,
    ENOMEM,
    EACCES,
    EBUSY,
    EEXIST,
    EXDEV,
    ENOTDIR,
    EISDIR,
    EINVAL,
    EFBIG,
    EROFS,
    EPIPE,
    EWOULDBLOCK,
    ELOOP,
    ENAMETOOLONG,
    ENOTEMPTY,
    EOPNOTSUPP,
    EDIED,
    ENXIO,
    ESRCH,
    EOVERFLOW,
    ENOSPC,
}

impl Errno {
    /// Whether it is ENOMEM.
    pub fn is_no_memory(self) -> bool
        ensures { result ≡ is_no_memory self }
    {
        matches!(self, Errno::ENOMEM)
    }

    /// The error's number, from 1 on.
    pub fn number(self) -> u32
        ensures { result ≡ number_of self }
    {
        match self {
            Errno::EPERM => 1,
            Errno::ENOENT => 2,
            Errno::EIO => 3,
            Errno::EBADF => 4,
            Errno::ENOMEM => 5,
            Errno::EACCES => 6,
            Errno::EBUSY => 7,
            Errno::EEXIST => 8,
            Errno::EXDEV => 9,
            Errno::ENOTDIR => 10,
            Errno::EISDIR => 11,
            Errno::EINVAL => 12,
            Errno::EFBIG => 13,
            Errno::EROFS => 14,
            Errno::EPIPE => 15,
            Errno::EWOULDBLOCK => 16,
            Errno::ELOOP => 17,
            Errno::ENAMETOOLONG => 18,
            Errno::ENOTEMPTY => 19,
            Errno::EOPNOTSUPP => 20,
            Errno::EDIED => 21,
            Errno::ENXIO => 22,
            Errno::ESRCH => 23,
            Errno::EOVERFLOW => 24,
            Errno::ENOSPC => 25,
        }
    }

    /// The error's name, as a transcript prints it.
    pub fn name(self) -> &'static str
        ensures { result.now ≡ name_of self }
    {
        match self {
            Errno::EPERM => "EPERM",
            Errno::ENOENT => "ENOENT",
            Errno::EIO => "EIO",
            Errno::EBADF => "EBADF",
            Errno::ENOMEM => "ENOMEM",
            Errno::EACCES => "EACCES",
            Errno::EBUSY => "EBUSY",
            Errno::EEXIST => "EEXIST",
            Errno::EXDEV => "EXDEV",
            Errno::ENOTDIR => "ENOTDIR",
            Errno::EISDIR => "EISDIR",
            Errno::EINVAL => "EINVAL",
            Errno::EFBIG => "EFBIG",
            Errno::EROFS => "EROFS",
            Errno::EPIPE => "EPIPE",
            Errno::EWOULDBLOCK => "EWOULDBLOCK",
            Errno::ELOOP => "ELOOP",
            Errno::ENAMETOOLONG => "ENAMETOOLONG",
            Errno::ENOTEMPTY => "ENOTEMPTY",
            Errno::EOPNOTSUPP => "EOPNOTSUPP",
            Errno::EDIED => "EDIED",
            Errno::ENXIO => "ENXIO",
            Errno::ESRCH => "ESRCH",
            Errno::EOVERFLOW => "EOVERFLOW",
            Errno::ENOSPC => "ENOSPC",
        }
    }
}

/// When memory runs out, `ENOMEM`.
impl From<AllocError> for Errno {
    ghost use Rattle.hurd_creds.specs.declared.errno.Errno.TheVariants.{ENOMEM};

    ghost from_gives = { λ _ errno. errno ≡ ENOMEM };

    fn from(_: AllocError) -> Errno {
        Errno::ENOMEM
    }
}
