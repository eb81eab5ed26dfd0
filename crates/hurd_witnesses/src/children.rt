//! The entry that a line of what is learned tells of.
ghost use Rattle.std.specs.Prelude.{◌≡◌, IfOk};
ghost use Rattle.hurd_witnesses.specs.Trials.{child_of, is_name, is_sign, next_seek};

use crate::places::part_at;
use hurd_creds::Bytes;
use hurd_words::words::pieces;
use std::alloc::{AllocError, Global};

/// What is looked for among the words of a line: the word `entries`, a sign right after it, and the name after that.
#[derive(Clone, Copy, Debug)]
pub enum Seek {
    Entries,
    Sign,
    Name,
}

/// Whether a name is looked for.
fn is_name(seek: Seek) -> bool
    ensures { result ≡ is_name seek }
{
    matches!(seek, Seek::Name)
}

/// Whether a word is the sign of an entry that is new or gone.
fn is_sign(word: &[u8]) -> bool
    ensures { result ≡ is_sign word.now }
{
    word == b"+".as_slice() || word == b"-".as_slice()
}

/// What is looked for after a word that is no name.
fn next_seek(seek: Seek, word: &[u8]) -> Seek
    ensures { result ≡ next_seek seek word.now }
{
    if matches!(seek, Seek::Sign) && is_sign(word) {
        Seek::Name
    } else if word == b"entries".as_slice() {
        Seek::Sign
    } else {
        Seek::Entries
    }
}

/// The name of the first entry that a line tells is new or gone, as it is spelled; nothing where it tells of none. Fails only if memory runs out.
pub(crate) fn child_of(alloc: Global, line: &[u8]) -> Result<Bytes, AllocError>
    ensures { IfOk result (λ name. name ≡ child_of line.now) }
{
    let words = pieces(alloc, line, b' ')?;
    let mut seek = Seek::Entries;
    for word in words.as_slice() {
        if is_name(seek) {
            return Bytes::copied(alloc, part_at(alloc, word, b',', 0)?);
        }
        seek = next_seek(seek, word);
    }
    Ok(Bytes::new(Vec::new(alloc)))
}
