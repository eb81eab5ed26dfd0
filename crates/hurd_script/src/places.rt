//! Where the last name of a path is.
ghost use Rattle.std.specs.Prelude.{◌≡◌, ◌≤◌, IfOk, length};
ghost use Rattle.hurd_script.specs.Places.{place_of, split_at_slash, up_to_slash, without_slashes};

use hurd_creds::Bytes;
use std::alloc::{AllocError, Global};

/// A directory, by its path, and a name in it: where a command makes, removes or finds an entry.
#[derive(Debug, Drop)]
pub struct EntryPlace {
    /// The path up to and with its last slash, or the empty path.
    pub directory: Bytes,
    /// The name after that; the empty name where the path is empty or of slashes alone.
    pub name: Bytes,
}

/// The path without the slashes that it ends with.
fn without_slashes(path: &[u8]) -> &[u8]
    ensures { result.now ≡ without_slashes path.now }
{
    let mut end = path.len();
    while end > 0 && path[end - 1] == b'/' {
        end -= 1;
    }
    &path[..end]
}

/// The path up to and with its last slash.
fn up_to_slash(path: &[u8]) -> &[u8]
    ensures front { result.now ≡ up_to_slash path.now }
    ensures within { length result.now ≤ length path.now }
{
    let mut end = path.len();
    while end > 0 && path[end - 1] != b'/' {
        end -= 1;
    }
    &path[..end]
}

/// The path without its last name, and that name.
fn split_at_slash(alloc: Global, path: &[u8]) -> Result<EntryPlace, AllocError>
    ensures { IfOk result (λ place. place ≡ split_at_slash path.now) }
{
    let directory = up_to_slash(path);
    Ok(EntryPlace {
        directory: Bytes::copied(alloc, directory)?,
        name: Bytes::copied(alloc, &path[directory.len()..])?,
    })
}

/// The place that a node's path names.
pub fn place_of(alloc: Global, node: &[u8]) -> Result<EntryPlace, AllocError>
    ensures { IfOk result (λ place. place ≡ place_of node.now) }
{
    split_at_slash(alloc, without_slashes(node))
}
