//! Paths.
ghost use Rattle.std.specs.Prelude.{◌≡◌, ◌<◌, ◌∷◌, [], length, MatchOption};
ghost use Rattle.std.specs.List.{position, position_or_len};
ghost use Rattle.hurd_lookup.specs.Path.{names_in, is_slash_byte, from_name, ends_with_slash, has_short_names, is_short};

use hurd_creds::{MOST_NAME, MOST_PATH};

/// Where a path's first slash is, if it has one.
fn slash_in(path: &[u8]) -> Option<usize>
    ensures { result ≡ position is_slash_byte path.now }
{
    path.iter().position(|byte| *byte == b'/')
}

/// Where a path's first slash is, or its length where it has none.
pub fn first_slash(path: &[u8]) -> usize
    ensures { result ≡ position_or_len is_slash_byte path.now }
{
    match slash_in(path) {
        Some(slash) => slash,
        None => path.len(),
    }
}

/// A path from its first name on.
pub(crate) fn from_name(path: &[u8]) -> &[u8]
    ensures { result.now ≡ from_name path.entry.now }
{
    let mut rest = path;
    while let [b'/', after @ ..] = rest {
        rest = after;
    }
    rest
}

/// The first name of a path, and what follows it; none where the path has no name.
#[inline(always)]
pub(crate) fn first_name(path: &[u8]) -> Option<(&[u8], &[u8])>
    ensures { MatchOption result (names_in path.entry.now ≡ [])
        (λ parts. (names_in path.entry.now ≡ parts.0.now ∷ names_in parts.1.now) × (length parts.1.now < length path.entry.now)) }
{
    let path = from_name(path);
    if path.is_empty() {
        return None;
    }
    Some(path.split_at(first_slash(path)))
}

/// Whether the path ends with a slash, and so asks for a directory.
pub(crate) fn ends_with_slash(path: &[u8]) -> bool
    ensures { result ≡ ends_with_slash path.now }
{
    match path.last() {
        Some(byte) => *byte == b'/',
        None => false,
    }
}

/// Whether neither a path nor any of its names is too long. In a path that is no longer than a name may be, none is.
pub(crate) fn is_short(path: &[u8]) -> bool
    ensures { result ≡ is_short path.now }
{
    path.len() <= MOST_NAME || (path.len() <= MOST_PATH && has_short_names(path))
}

/// Whether none of the names of a path is too long.
fn has_short_names(path: &[u8]) -> bool
    ensures { result ≡ has_short_names path.now }
{
    let mut rest = path;
    while let Some((name, after)) = first_name(rest) {
        if name.len() > MOST_NAME {
            return false;
        }
        rest = after;
    }
    true
}
