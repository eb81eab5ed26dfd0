//! What is left of a path.
ghost use Rattle.std.specs.Prelude.{◌≡◌, ◌++◌, ℕ, List, length, nat_le, IfOk, OnOk};
ghost use Rattle.hurd_creds.specs.Limits.{most_path};
ghost use Rattle.hurd_lookup.specs.Path.{behind_slashes, joined, names_in, onto, rest_of};
ghost use Rattle.hurd_lookup.specs.Lookup.{is_last};
ghost use Rattle.hurd_lookup.specs.Ends.{ending};

use crate::path::{first_name, from_name};
use hurd_creds::MOST_PATH;
use std::alloc::{AllocError, Global};

/// Whether no name is left.
#[inline(always)]
pub(crate) fn is_last(path: &[u8]) -> bool
    ensures { result ≡ is_last (names_in path.now) }
{
    from_name(path).is_empty()
}

/// Whether the names of a path, each after a slash, have room in so many bytes.
fn fit_behind(path: &[u8], most: u64) -> bool
    ensures { result ≡ nat_le (length (behind_slashes (names_in path.entry.now))) most }
{
    let mut rest = path;
    let mut room = most;
    while let Some((name, after)) = first_name(rest) {
        let length = name.len() as u64;
        if length >= room {
            return false;
        }
        room -= length + 1;
        rest = after;
    }
    true
}

/// How many bytes are not of names, after which a slash stands each, where what is left comes after a text.
fn ending(is_last: bool, slash: bool) -> u64
    ensures { result ≡ ending is_last slash }
{
    match (slash, is_last) {
        (false, _) => 0,
        (true, false) => 1,
        (true, true) => 2,
    }
}

/// Whether what is left, with a slash after it where the path ended with one, has room after a text.
pub(crate) fn fits(text: &[u8], rest: &[u8], slash: bool) -> bool
    ensures { result ≡ nat_le (length (onto text.now (rest_of (names_in rest.entry.now) slash))) most_path }
{
    let length = text.len() as u64;
    let room = MOST_PATH as u64 - ending(is_last(rest), slash);
    length <= room && fit_behind(rest, room - length)
}

/// Puts the names of a path after a text, each after a slash.
fn push_behind(text: &mut Vec<u8>, path: &[u8]) -> Result<(), AllocError>
    ensures { OnOk result (text.new.items ≡ text.old.items ++ behind_slashes (names_in path.entry.now)) }
{
    let mut rest = path;
    while let Some((name, after)) = first_name(rest) {
        text.push(b'/')?;
        text.extend_from_slice(name)?;
        rest = after;
    }
    Ok(())
}

/// The names of a path, joined by single slashes.
fn joined(alloc: Global, path: &[u8]) -> Result<Vec<u8>, AllocError>
    ensures { IfOk result (λ text. text.items ≡ joined (names_in path.entry.now)) }
{
    let mut text = Vec::new(alloc);
    if let Some((name, after)) = first_name(path) {
        text.extend_from_slice(name)?;
        push_behind(&mut text, after)?;
    }
    Ok(text)
}

/// What is left, with a slash after it where the path ended with one.
pub(crate) fn rest_of(alloc: Global, path: &[u8], slash: bool) -> Result<Vec<u8>, AllocError>
    ensures { IfOk result (λ text. text.items ≡ rest_of (names_in path.entry.now) slash) }
{
    let mut text = joined(alloc, path)?;
    if slash {
        text.push(b'/')?;
    }
    Ok(text)
}

/// A rest after a text and a slash, unless there is none.
pub(crate) fn onto(text: Vec<u8>, rest: &[u8]) -> Result<Vec<u8>, AllocError>
    ensures { IfOk result (λ name. name.items ≡ onto text.items rest.now) }
{
    let mut name = text;
    if !rest.is_empty() {
        name.push(b'/')?;
        name.extend_from_slice(rest)?;
    }
    Ok(name)
}
