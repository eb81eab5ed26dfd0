//! What a lookup asks for.
ghost use Rattle.std.specs.Prelude.{◌≡◌};
ghost use Rattle.hurd_lookup.specs.Lookup.{request};

use crate::path;
use hurd_creds::{Mode, OpenFlags};

/// How what is found is to be opened, or made.
#[derive(Clone, Copy, Debug)]
pub(crate) struct Request {
    pub(crate) flags: OpenFlags,
    pub(crate) mode: Mode,
    /// Whether a directory is asked for, by the flag or by the path.
    pub(crate) wants_dir: bool,
    /// Whether the path ends with a slash.
    pub(crate) slash: bool,
}

impl Request {
    /// What is asked for by a path, flags and a mode.
    pub(crate) fn new(path: &[u8], flags: OpenFlags, mode: Mode) -> Request
        ensures { result ≡ request path.now flags mode }
    {
        let slash = path::ends_with_slash(path);
        Request {
            flags,
            mode,
            wants_dir: flags.asks(OpenFlags::DIRECTORY) || slash,
            slash,
        }
    }
}
