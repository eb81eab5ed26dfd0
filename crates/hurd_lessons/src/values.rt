//! What is said of values, in parts of a sentence.
ghost use Rattle.std.specs.Prelude.{◌≡◌, ◌++◌, IfOk, OnOk, Some};
ghost use Rattle.hurd_lessons.specs.Values.{bytes_change, kind_part, mode_part, number_part, parted, path_or_none, server_or_none, short_mode, spelled_or_none, turned_part, with_part, words_or_none};

use bitflags::Flags;
use hurd_creds::{Bytes, Kind, Mode, NodeName, ServerName};
use hurd_places::{node_path, server_path};
use hurd_views::View;
use hurd_words::printing::{kind_letter, octal_digit, push_long_number, push_mode};
use hurd_words::spelling::{push_spelled, push_spelled_words};
use std::alloc::{AllocError, Global};

/// What stands for a value that isn't there.
const NONE: &[u8] = b"(none)";

/// The most bytes that are told.
const MOST_TOLD: usize = 24;

/// Adds a comma where some words stand already.
pub(crate) fn part(words: &mut Vec<u8>) -> Result<(), AllocError>
    ensures { OnOk result (words.new.items ≡ parted words.old.items) }
{
    if !words.is_empty() {
        words.extend_from_slice(b", ")?;
    }
    Ok(())
}

/// Adds a part.
pub(crate) fn add_part(words: &mut Vec<u8>, text: &[u8]) -> Result<(), AllocError>
    ensures { OnOk result (words.new.items ≡ with_part words.old.items (Some text.now)) }
{
    part(words)?;
    words.extend_from_slice(text)
}

/// Adds a value by its word, before and after, unless both are told in one way.
pub(crate) fn add_turned(
    words: &mut Vec<u8>,
    word: &[u8],
    old: &[u8],
    new: &[u8],
) -> Result<(), AllocError>
    ensures { OnOk result (words.new.items ≡ with_part words.old.items (turned_part word.now old.now new.now)) }
{
    if old == new {
        return Ok(());
    }
    part(words)?;
    words.extend_from_slice(word)?;
    words.push(b' ')?;
    words.extend_from_slice(old)?;
    words.extend_from_slice(b" -> ")?;
    words.extend_from_slice(new)
}

/// The same of a number.
pub(crate) fn add_number(
    words: &mut Vec<u8>,
    word: &[u8],
    old: u128,
    new: u128,
) -> Result<(), AllocError>
    ensures { OnOk result (words.new.items ≡ with_part words.old.items (number_part word.now old new)) }
{
    if old == new {
        return Ok(());
    }
    part(words)?;
    words.extend_from_slice(word)?;
    push_long_number(words, old)?;
    words.extend_from_slice(b" ->")?;
    push_long_number(words, new)
}

/// The same of a kind, by its letter.
pub(crate) fn add_kind(words: &mut Vec<u8>, old: Kind, new: Kind) -> Result<(), AllocError>
    ensures { OnOk result (words.new.items ≡ with_part words.old.items (kind_part old new)) }
{
    add_turned(words, b"kind", &[kind_letter(old)], &[kind_letter(new)])
}

/// A mode by three octal digits, or as many more as it wants.
fn short_mode(alloc: Global, mode: Mode) -> Result<Vec<u8>, AllocError>
    ensures { IfOk result (λ text. text.items ≡ short_mode mode.0) }
{
    let bits = mode.bits();
    let low = [
        octal_digit(bits / 0o100),
        octal_digit(bits / 0o10),
        octal_digit(bits),
    ];
    if bits < 0o1000 {
        return Vec::from_slice(alloc, &low);
    }
    let mut text = Vec::new(alloc);
    if bits < 0o10000 {
        text.push(octal_digit(bits / 0o1000))?;
        text.extend_from_slice(&low)?;
    } else {
        push_mode(&mut text, mode)?;
    }
    Ok(text)
}

/// The same of a mode.
pub(crate) fn add_mode(
    alloc: Global,
    words: &mut Vec<u8>,
    old: Mode,
    new: Mode,
) -> Result<(), AllocError>
    ensures { OnOk result (words.new.items ≡ with_part words.old.items (mode_part old.0 new.0)) }
{
    let old = short_mode(alloc, old)?;
    let new = short_mode(alloc, new)?;
    add_turned(words, b"mode", old.as_slice(), new.as_slice())
}

/// Adds bytes as they are spelled, or that there are none.
pub(crate) fn push_bytes(words: &mut Vec<u8>, bytes: &[u8]) -> Result<(), AllocError>
    ensures { OnOk result (words.new.items ≡ words.old.items ++ spelled_or_none bytes.now) }
{
    if bytes.is_empty() {
        return words.extend_from_slice(NONE);
    }
    push_spelled(words, bytes)
}

/// Adds words as they are spelled, or that there are none.
pub(crate) fn push_all_words(text: &mut Vec<u8>, words: &[Bytes]) -> Result<(), AllocError>
    ensures { OnOk result (text.new.items ≡ text.old.items ++ words_or_none words.now) }
{
    match words.split_first() {
        Some((first, rest)) => {
            push_spelled(text, first.as_slice())?;
            push_spelled_words(text, rest)
        }
        None => text.extend_from_slice(NONE),
    }
}

/// Where a node is, if there is one.
fn path_or_none(alloc: Global, view: &View, node: Option<NodeName>) -> Result<Vec<u8>, AllocError>
    ensures { IfOk result (λ text. text.items ≡ path_or_none view.now node) }
{
    match node {
        Some(node) => node_path(alloc, view, node),
        None => Vec::from_slice(alloc, NONE),
    }
}

/// Where a server is, if there is one.
fn server_or_none(
    alloc: Global,
    view: &View,
    server: Option<ServerName>,
) -> Result<Vec<u8>, AllocError>
    ensures { IfOk result (λ text. text.items ≡ server_or_none view.now server) }
{
    match server {
        Some(server) => server_path(alloc, view, server),
        None => Vec::from_slice(alloc, NONE),
    }
}

/// Adds where a node was and is, unless that is told in one way.
pub(crate) fn add_path(
    alloc: Global,
    words: &mut Vec<u8>,
    word: &[u8],
    before: &View,
    old: Option<NodeName>,
    after: &View,
    new: Option<NodeName>,
) -> Result<(), AllocError>
    ensures { OnOk result (words.new.items ≡ with_part words.old.items (turned_part word.now (path_or_none before.now old) (path_or_none after.now new))) }
{
    let old = path_or_none(alloc, before, old)?;
    let new = path_or_none(alloc, after, new)?;
    add_turned(words, word, old.as_slice(), new.as_slice())
}

/// Adds where a server was and is, unless that is told in one way.
pub(crate) fn add_server_path(
    alloc: Global,
    words: &mut Vec<u8>,
    word: &[u8],
    before: &View,
    old: Option<ServerName>,
    after: &View,
    new: Option<ServerName>,
) -> Result<(), AllocError>
    ensures { OnOk result (words.new.items ≡ with_part words.old.items (turned_part word.now (server_or_none before.now old) (server_or_none after.now new))) }
{
    let old = server_or_none(alloc, before, old)?;
    let new = server_or_none(alloc, after, new)?;
    add_turned(words, word, old.as_slice(), new.as_slice())
}

/// Adds words before and after, unless they are told in one way.
pub(crate) fn add_words(
    alloc: Global,
    words: &mut Vec<u8>,
    word: &[u8],
    old: &[Bytes],
    new: &[Bytes],
) -> Result<(), AllocError>
    ensures { OnOk result (words.new.items ≡ with_part words.old.items (turned_part word.now (words_or_none old.now) (words_or_none new.now))) }
{
    let mut before = Vec::new(alloc);
    push_all_words(&mut before, old)?;
    let mut after = Vec::new(alloc);
    push_all_words(&mut after, new)?;
    add_turned(words, word, before.as_slice(), after.as_slice())
}

/// Adds bytes before and after, where both are short.
pub(crate) fn push_bytes_change(
    words: &mut Vec<u8>,
    old: &[u8],
    new: &[u8],
) -> Result<(), AllocError>
    ensures { OnOk result (words.new.items ≡ words.old.items ++ bytes_change old.now new.now) }
{
    if old.len() > MOST_TOLD || new.len() > MOST_TOLD {
        return words.extend_from_slice(b"bytes");
    }
    words.extend_from_slice(b"bytes ")?;
    push_bytes(words, old)?;
    words.extend_from_slice(b" -> ")?;
    push_bytes(words, new)
}
