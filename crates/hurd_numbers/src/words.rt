//! Words as bytes: each ends with a zero byte.
ghost use Rattle.std.specs.Prelude.{◌≡◌, Some, option_and_then, option_map};
ghost use Rattle.hurd_words.specs.Reading.{Reads, said};
ghost use Rattle.hurd_trans_iface.specs.Meaning.{begin};
ghost use Rattle.hurd_lists.specs.Arguments.{ReadsInPlace, ids_of, text_of, within_limits};
ghost use Rattle.hurd_numbers.specs.Words.{after_first, first_of, ids_at, is_some_text, words_in};

use hurd_creds::{Errno, Ids};
use hurd_trans_iface::{Words, words_ok};
use hurd_words::fault::ReadFault;
use hurd_words::users::ids_from;
use hurd_words::words::pieces;
use std::alloc::Global;

/// The words of bytes, each ended by a zero byte.
pub(crate) fn words_in<'a>(alloc: Global, bytes: &'a [u8]) -> Result<Vec<&'a [u8]>, ReadFault>
    ensures { Reads (λ words. said words.items) (words_in bytes.entry.now) result }
{
    let mut words = pieces(alloc, bytes, 0)?;
    let last = words.len().saturating_sub(1);
    if is_some_text(words.as_slice(), last) {
        return Err(ReadFault::Bad);
    }
    words.truncate(last);
    Ok(words)
}

/// Whether a piece has any bytes.
fn is_some_text(pieces: &[&[u8]], number: usize) -> bool
    ensures { result ≡ is_some_text (said pieces.now) number }
{
    match pieces.get(number) {
        Some(piece) => !piece.is_empty(),
        None => false,
    }
}

/// The first of some words.
pub(crate) fn first_of<'a>(words: &'a [&'a [u8]], count: u64) -> Result<&'a [&'a [u8]], ReadFault>
    ensures { ReadsInPlace (λ first. said first.now) (first_of count (said words.entry.now)) result }
{
    if count <= words.len() as u64 {
        Ok(&words[..count as usize])
    } else {
        Err(ReadFault::Bad)
    }
}

/// The words after the first, if there are so many.
pub(crate) fn after_first<'a>(
    words: &'a [&'a [u8]],
    count: u64,
) -> Result<&'a [&'a [u8]], ReadFault>
    ensures { ReadsInPlace (λ rest. said rest.now) (after_first count (said words.entry.now)) result }
{
    if count <= words.len() as u64 {
        Ok(&words[count as usize..])
    } else {
        Err(ReadFault::Bad)
    }
}

/// Words as they are given to a server, if they are not too many.
pub(crate) fn server_words(alloc: Global, words: &[&[u8]]) -> Result<Words, ReadFault>
    ensures { Reads (λ w. w) (within_limits (said words.now)) result }
{
    match Words::new(alloc, words) {
        Ok(words) => Ok(words),
        Err(Errno::ENOMEM) => Err(ReadFault::Memory),
        Err(_) => Err(ReadFault::Bad),
    }
}

/// The same, if some kind of server takes them.
pub(crate) fn begun_words(alloc: Global, words: &[&[u8]]) -> Result<Words, ReadFault>
    ensures { Reads (λ w. begin w) (option_map Some (option_and_then begin (within_limits (said words.now)))) result }
{
    let words = server_words(alloc, words)?;
    if words_ok(words.as_slice()) {
        Ok(words)
    } else {
        Err(ReadFault::Bad)
    }
}

/// The ids of two words: uids and gids, as a list of calls has them.
pub(crate) fn ids_at(alloc: Global, bytes: &[u8]) -> Result<Ids, ReadFault>
    ensures { Reads (λ i. i) (ids_at bytes.now) result }
{
    let words = words_in(alloc, bytes)?;
    let [uids, gids] = words.as_slice() else {
        return Err(ReadFault::Bad);
    };
    ids_in(alloc, uids, gids)
}

/// A word that is text.
fn text(word: &[u8]) -> Result<&str, ReadFault>
    ensures { ReadsInPlace (λ s. s.now) (text_of word.now) result }
{
    match str::from_utf8(word) {
        Ok(text) => Ok(text),
        Err(_) => Err(ReadFault::Bad),
    }
}

/// The ids that two lists name.
fn ids_in(alloc: Global, uids: &[u8], gids: &[u8]) -> Result<Ids, ReadFault>
    ensures { Reads (λ i. i) (ids_of uids.now gids.now) result }
{
    let uids = text(uids)?;
    let gids = text(gids)?;
    ids_from(alloc, uids, gids)
}
