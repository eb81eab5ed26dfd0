//! What became of the parts that are seen under a name, in words.
ghost use Rattle.std.specs.Prelude.{◌≡◌, ◌++◌, ◌≤◌, ◌+◌, ◌∷◌, [], codes, drop, if◌then◌else◌, IfOk, OnOk, Some};
ghost use Rattle.hurd_lessons.specs.Differences.{body_change, changed_attrs, changed_body, changed_node, changed_open, changed_opened, changed_server, comes_next, empty_change, ending, ends_change, entries_gone, entries_new, modes_or_none, modes_part, noted, number_change, parent_at, passed, same_entry, server_change, text_change, signed_names};
ghost use Rattle.hurd_words.specs.Spelling.{spelled_name};
ghost use Rattle.hurd_lessons.specs.Seen.{places_text, program_text, uid_text};
ghost use Rattle.hurd_lessons.specs.Lessons.{body_word, emptiness, ends_beside, is_listing, or_changed, parts_of, said_of};
ghost use Rattle.hurd_lessons.specs.Values.{turned_part, with_part};

use crate::changes::{Became, Change, shows};
use crate::seen_parts::{empty_text, modes_of, places_of, program_text, uid_of, words_behind};
use crate::values::{
    add_kind, add_mode, add_number, add_part, add_path, add_server_path, add_turned, add_words,
    part, push_bytes_change,
};
use hurd_creds::{Attrs, NodeName};
use hurd_ports::{Ends, Opened};
use hurd_views::{BodyRow, EntryRow, NodeRow, OpenRow, Row, ServerRow, TextRow, View};
use hurd_words::spelling::push_spelled_name;
use std::alloc::{AllocError, Global};

/// What the ends of a node are called.
const ENDS: &[u8] = b"readers and writers";

/// What is said after the word of a part that is not seen both times, or not in both.
fn ending(became: Became) -> &'static [u8]
    ensures { result.now ≡ ending became }
{
    match became {
        Became::Lost => b" no longer seen",
        Became::First => b" only in the first",
        Became::Second => b" only in the second",
        Became::Same | Became::New | Became::Changed => b"",
    }
}

/// Adds a part by its word that is not seen both times, or not in both.
fn note(words: &mut Vec<u8>, word: &[u8], became: Became) -> Result<(), AllocError>
    ensures { OnOk result (words.new.items ≡ with_part words.old.items (Some (word.now ++ ending became))) }
{
    part(words)?;
    words.extend_from_slice(word)?;
    words.extend_from_slice(ending(became))
}

/// Adds what `io_stat` tells of a node that is there before and after.
fn add_stat(alloc: Global, words: &mut Vec<u8>, old: &Attrs, new: &Attrs) -> Result<(), AllocError>
    ensures { OnOk result (words.new.items ≡ changed_attrs words.old.items (Some old.now) (Some new.now)) }
{
    add_kind(words, old.kind, new.kind)?;
    add_number(
        words,
        b"owner",
        u128::from(old.owner),
        u128::from(new.owner),
    )?;
    add_number(
        words,
        b"group",
        u128::from(old.group),
        u128::from(new.group),
    )?;
    add_mode(alloc, words, old.mode, new.mode)?;
    add_number(
        words,
        b"links",
        u128::from(old.links),
        u128::from(new.links),
    )?;
    add_number(words, b"size", u128::from(old.size), u128::from(new.size))
}

/// Adds what changed of attributes, where either view may have none.
fn add_attrs(
    alloc: Global,
    words: &mut Vec<u8>,
    old: &Option<Attrs>,
    new: &Option<Attrs>,
) -> Result<(), AllocError>
    ensures { OnOk result (words.new.items ≡ changed_attrs words.old.items old.now new.now) }
{
    match (old, new) {
        (Some(old), Some(new)) => add_stat(alloc, words, old, new),
        (None, None) => Ok(()),
        (Some(_), None) => add_part(words, b"gone"),
        (None, Some(_)) => add_part(words, b"attributes"),
    }
}

/// The parent of a directory that is an entry.
fn parent_at(attrs: &Option<Attrs>) -> Option<NodeName>
    ensures { result ≡ parent_at attrs.now }
{
    match attrs {
        Some(attrs) => attrs.parent,
        None => None,
    }
}

/// Adds what became of a node beside what is in it.
fn add_node(
    alloc: Global,
    words: &mut Vec<u8>,
    before: &View,
    after: &View,
    old: &NodeRow,
    new: &NodeRow,
) -> Result<(), AllocError>
    ensures { OnOk result (words.new.items ≡ changed_node before.now after.now words.old.items (Some old.now) (Some new.now)) }
{
    add_attrs(alloc, words, &old.attrs, &new.attrs)?;
    add_path(
        alloc,
        words,
        b"parent",
        before,
        parent_at(&old.attrs),
        after,
        parent_at(&new.attrs),
    )?;
    add_words(
        alloc,
        words,
        b"passive",
        old.words.as_slice(),
        new.words.as_slice(),
    )?;
    add_server_path(
        alloc,
        words,
        b"served by",
        before,
        old.home,
        after,
        new.home,
    )?;
    add_server_path(
        alloc, words, b"active", before, old.active, after, new.active,
    )
}

/// Adds how many opens read a node, and how many write it, before and after.
fn add_ends(
    words: &mut Vec<u8>,
    old: Option<Option<Ends>>,
    new: Option<Option<Ends>>,
) -> Result<(), AllocError>
    ensures { OnOk result (words.new.items ≡ ends_change words.old.items old new) }
{
    let (Some(Some(old)), Some(Some(new))) = (old, new) else {
        return add_part(words, ENDS);
    };
    add_number(words, b"readers", old.readers, new.readers)?;
    add_number(words, b"writers", old.writers, new.writers)
}

/// Whether entries are the same, by name and node, or by name alone.
fn same_entry(by_name: bool, one: &EntryRow, other: &EntryRow) -> bool
    ensures { result ≡ same_entry by_name one.now other.now }
{
    (by_name || one.node == other.node) && one.name.as_slice() == other.name.as_slice()
}

/// Adds a name after a sign.
fn push_signed(words: &mut Vec<u8>, sign: &[u8], entry: &EntryRow) -> Result<(), AllocError>
    ensures { OnOk result (words.new.items ≡ words.old.items ++ (sign.now ++ spelled_name entry.now.name)) }
{
    words.extend_from_slice(sign)?;
    push_spelled_name(words, entry.name.as_slice())
}

/// Adds names, each after a sign.
fn push_all_signed(words: &mut Vec<u8>, sign: &[u8], entries: &[EntryRow]) -> Result<(), AllocError>
    ensures { OnOk result (words.new.items ≡ words.old.items ++ signed_names sign.now entries.now) }
{
    for entry in entries {
        push_signed(words, sign, entry)?;
    }
    Ok(())
}

/// Whether the next of the new entries is this one.
fn comes_next(by_name: bool, new: &[EntryRow], kept: usize, entry: &EntryRow) -> bool
    ensures { result ≡ comes_next by_name entry.now (drop kept new.now) }
{
    match new.get(kept) {
        Some(next) => same_entry(by_name, entry, next),
        None => false,
    }
}

/// How many of the new entries are passed with this one.
fn next_kept(by_name: bool, new: &[EntryRow], kept: usize, entry: &EntryRow) -> usize
    ensures passed { drop result new.now ≡ passed by_name entry.now (drop kept new.now) }
    ensures few { result ≤ kept + 1 }
{
    if kept < new.len() && comes_next(by_name, new, kept, entry) {
        kept + 1
    } else {
        kept
    }
}

/// How many of the new entries were there before.
fn entries_kept(by_name: bool, old: &[EntryRow], new: &[EntryRow]) -> usize
    ensures { drop result new.now ≡ entries_new by_name old.now new.now }
{
    let mut kept = 0usize;
    for entry in old {
        kept = next_kept(by_name, new, kept, entry);
    }
    kept
}

/// Adds the name of an entry that is no longer there.
fn push_unless(words: &mut Vec<u8>, comes: bool, entry: &EntryRow) -> Result<(), AllocError>
    ensures { OnOk result (words.new.items ≡ words.old.items ++ signed_names (codes " - ") (if comes then [] else entry.now ∷ [])) }
{
    if comes {
        return Ok(());
    }
    push_signed(words, b" - ", entry)
}

/// Adds the names of entries that are no longer there.
fn push_gone(
    words: &mut Vec<u8>,
    by_name: bool,
    old: &[EntryRow],
    new: &[EntryRow],
) -> Result<(), AllocError>
    ensures { OnOk result (words.new.items ≡ words.old.items ++ signed_names (codes " - ") (entries_gone by_name old.now new.now)) }
{
    let mut kept = 0usize;
    for entry in old {
        push_unless(words, comes_next(by_name, new, kept, entry), entry)?;
        kept = next_kept(by_name, new, kept, entry);
    }
    Ok(())
}

/// Adds which entries are new, and which are no longer there.
fn push_entries_change(
    words: &mut Vec<u8>,
    by_name: bool,
    old: &[EntryRow],
    new: &[EntryRow],
) -> Result<(), AllocError>
    ensures { OnOk result (words.new.items ≡ words.old.items
        ++ (codes "entries" ++ (signed_names (codes " + ") (entries_new by_name old.now new.now) ++ signed_names (codes " - ") (entries_gone by_name old.now new.now)))) }
{
    words.extend_from_slice(b"entries")?;
    let kept = entries_kept(by_name, old, new);
    if let Some(added) = new.get(kept..) {
        push_all_signed(words, b" + ", added)?;
    }
    push_gone(words, by_name, old, new)
}

/// Adds what became of what is in a node.
fn push_body_change(
    words: &mut Vec<u8>,
    by_name: bool,
    old: &BodyRow,
    new: &BodyRow,
) -> Result<(), AllocError>
    ensures { OnOk result (words.new.items ≡ words.old.items ++ changed_body by_name old.now new.now) }
{
    match (old, new) {
        (BodyRow::Entries(old), BodyRow::Entries(new)) => {
            push_entries_change(words, by_name, old.as_slice(), new.as_slice())
        }
        (BodyRow::Bytes(old), BodyRow::Bytes(new)) => {
            push_bytes_change(words, old.as_slice(), new.as_slice())
        }
        (BodyRow::Bytes(_), BodyRow::Entries(_)) => words.extend_from_slice(b"entries"),
        (BodyRow::Entries(_), BodyRow::Bytes(_)) => words.extend_from_slice(b"bytes"),
    }
}

/// Adds the part of it.
fn add_body(
    words: &mut Vec<u8>,
    by_name: bool,
    old: &Option<Option<BodyRow>>,
    new: &Option<Option<BodyRow>>,
) -> Result<(), AllocError>
    ensures { OnOk result (words.new.items ≡ with_part words.old.items (Some (body_change by_name old.now new.now))) }
{
    part(words)?;
    match (old, new) {
        (Some(Some(old)), Some(Some(new))) => push_body_change(words, by_name, old, new),
        _ => words.extend_from_slice(b"body"),
    }
}

/// Adds whether a directory has no entries now.
fn add_empty(words: &mut Vec<u8>, new: Option<Option<bool>>) -> Result<(), AllocError>
    ensures { OnOk result (words.new.items ≡ with_part words.old.items (Some (empty_change new))) }
{
    match new {
        Some(Some(empty)) => add_part(words, empty_text(empty)),
        _ => add_part(words, b"emptiness"),
    }
}

/// Adds modes, each after a space, or that there are none.
fn push_modes(words: &mut Vec<u8>, modes: &[u8]) -> Result<(), AllocError>
    ensures { OnOk result (words.new.items ≡ words.old.items ++ modes_or_none modes.now) }
{
    if modes.is_empty() {
        return words.extend_from_slice(b" (none)");
    }
    words.extend_from_slice(modes)
}

/// Adds modes before and after, unless both are told in one way.
fn add_modes(words: &mut Vec<u8>, old: &[u8], new: &[u8]) -> Result<(), AllocError>
    ensures { OnOk result (words.new.items ≡ with_part words.old.items (modes_part old.now new.now)) }
{
    if old == new {
        return Ok(());
    }
    part(words)?;
    words.extend_from_slice(b"modes")?;
    push_modes(words, old)?;
    words.extend_from_slice(b" ->")?;
    push_modes(words, new)
}

/// Adds what became of an open that is there before and after.
fn add_cursor(
    alloc: Global,
    words: &mut Vec<u8>,
    old: &Opened,
    new: &Opened,
) -> Result<(), AllocError>
    ensures { OnOk result (words.new.items ≡ changed_opened words.old.items (Some old.now) (Some new.now)) }
{
    add_number(
        words,
        b"cursor",
        u128::from(old.cursor),
        u128::from(new.cursor),
    )?;
    let before = modes_of(alloc, old.modes)?;
    let after = modes_of(alloc, new.modes)?;
    add_modes(words, before.as_slice(), after.as_slice())
}

/// Adds what changed of an open, where either view may have none.
fn add_opened(
    alloc: Global,
    words: &mut Vec<u8>,
    old: &Option<Opened>,
    new: &Option<Opened>,
) -> Result<(), AllocError>
    ensures { OnOk result (words.new.items ≡ changed_opened words.old.items old.now new.now) }
{
    match (old, new) {
        (Some(old), Some(new)) => add_cursor(alloc, words, old, new),
        (None, None) => Ok(()),
        (Some(_), None) => add_part(words, b"gone"),
        (None, Some(_)) => add_part(words, b"open"),
    }
}

/// Adds what became of an open, and of how many hold it, where it is seen before and after.
fn add_open(
    alloc: Global,
    words: &mut Vec<u8>,
    old: &Option<OpenRow>,
    new: &Option<OpenRow>,
) -> Result<(), AllocError>
    ensures { OnOk result (words.new.items ≡ changed_open words.old.items old.now new.now) }
{
    let (Some(old), Some(new)) = (old, new) else {
        return Ok(());
    };
    add_opened(alloc, words, &old.opened, &new.opened)?;
    add_number(words, b"held", old.holders, new.holders)
}

/// Adds what a server aimed at and aims at.
fn add_targets(
    alloc: Global,
    words: &mut Vec<u8>,
    before: &View,
    after: &View,
    old: &[NodeName],
    new: &[NodeName],
) -> Result<(), AllocError>
    ensures { OnOk result (words.new.items ≡ with_part words.old.items (turned_part (codes "targets") (places_text before.now old.now) (places_text after.now new.now))) }
{
    let old = places_of(alloc, before, old)?;
    let new = places_of(alloc, after, new)?;
    add_turned(words, b"targets", old.as_slice(), new.as_slice())
}

/// Adds whom a server ran as and runs as.
fn add_uid(
    alloc: Global,
    words: &mut Vec<u8>,
    old: &ServerRow,
    new: &ServerRow,
) -> Result<(), AllocError>
    ensures { OnOk result (words.new.items ≡ with_part words.old.items (turned_part (codes "runs as") (uid_text old.now.ids) (uid_text new.now.ids))) }
{
    let before = uid_of(alloc, &old.ids)?;
    let after = uid_of(alloc, &new.ids)?;
    add_turned(words, b"runs as", before.as_slice(), after.as_slice())
}

/// Adds which program a server had and has.
fn add_program(
    alloc: Global,
    words: &mut Vec<u8>,
    old: &ServerRow,
    new: &ServerRow,
) -> Result<(), AllocError>
    ensures { OnOk result (words.new.items ≡ with_part words.old.items (turned_part (codes "program") (program_text old.now) (program_text new.now))) }
{
    let before = program_text(alloc, old)?;
    let after = program_text(alloc, new)?;
    add_turned(words, b"program", before.as_slice(), after.as_slice())
}

/// Adds what became of a server that is there before and after.
fn add_server_row(
    alloc: Global,
    words: &mut Vec<u8>,
    before: &View,
    after: &View,
    old: &ServerRow,
    new: &ServerRow,
) -> Result<(), AllocError>
    ensures { OnOk result (words.new.items ≡ changed_server before.now after.now words.old.items (Some old.now) (Some new.now)) }
{
    add_program(alloc, words, old, new)?;
    add_targets(
        alloc,
        words,
        before,
        after,
        old.targets.as_slice(),
        new.targets.as_slice(),
    )?;
    add_path(
        alloc,
        words,
        b"root",
        before,
        Some(old.root),
        after,
        Some(new.root),
    )?;
    add_uid(alloc, words, old, new)
}

/// Adds what changed of a server, where either view may have none.
fn add_server_at(
    alloc: Global,
    words: &mut Vec<u8>,
    before: &View,
    after: &View,
    old: &Option<ServerRow>,
    new: &Option<ServerRow>,
) -> Result<(), AllocError>
    ensures { OnOk result (words.new.items ≡ changed_server before.now after.now words.old.items old.now new.now) }
{
    match (old, new) {
        (Some(old), Some(new)) => add_server_row(alloc, words, before, after, old, new),
        (None, None) => Ok(()),
        (Some(_), None) => add_part(words, b"gone"),
        (None, Some(_)) => add_part(words, b"program"),
    }
}

/// Adds what became of a server that is seen before and after.
fn add_server(
    alloc: Global,
    words: &mut Vec<u8>,
    before: &View,
    after: &View,
    old: &Option<Option<ServerRow>>,
    new: &Option<Option<ServerRow>>,
) -> Result<(), AllocError>
    ensures { OnOk result (words.new.items ≡ server_change before.now after.now words.old.items old.now new.now) }
{
    match (old, new) {
        (Some(old), Some(new)) => add_server_at(alloc, words, before, after, old, new),
        _ => Ok(()),
    }
}

/// Adds which text a server had and has.
fn add_text(
    alloc: Global,
    words: &mut Vec<u8>,
    old: &Option<Option<TextRow>>,
    new: &Option<Option<TextRow>>,
) -> Result<(), AllocError>
    ensures { OnOk result (words.new.items ≡ text_change words.old.items old.now new.now) }
{
    match (old, new) {
        (Some(Some(old)), Some(Some(new))) => add_words(
            alloc,
            words,
            b"text",
            words_behind(old.options.as_slice()),
            words_behind(new.options.as_slice()),
        ),
        _ => Ok(()),
    }
}

/// Adds a number that may be seen, by its word.
fn add_seen_number(
    words: &mut Vec<u8>,
    word: &[u8],
    old: Option<u128>,
    new: Option<u128>,
) -> Result<(), AllocError>
    ensures { OnOk result (words.new.items ≡ number_change words.old.items word.now old new) }
{
    match (old, new) {
        (Some(old), Some(new)) => add_number(words, word, old, new),
        _ => Ok(()),
    }
}

/// Whether a body is entries.
fn is_listing(body: &Option<Option<BodyRow>>) -> bool
    ensures { result ≡ is_listing body.now }
{
    matches!(body, Some(Some(BodyRow::Entries(_))))
}

/// What a body is called.
fn body_word(before: &Row, after: &Row) -> &'static [u8]
    ensures { result.now ≡ body_word before.now after.now }
{
    if is_listing(&before.body) || is_listing(&after.body) {
        b"entries"
    } else {
        b"bytes"
    }
}

/// What is said of emptiness: nothing where the entries say it.
fn emptiness(body: Became, empty: Became) -> Became
    ensures { result ≡ emptiness body empty }
{
    match (body, empty) {
        (Became::New | Became::Changed, _)
        | (Became::First, Became::First)
        | (Became::Second, Became::Second) => Became::Same,
        _ => empty,
    }
}

/// What is said of a node's readers and writers: nothing where what is in it says it.
fn ends_beside(body: Became, ends: Became) -> Became
    ensures { result ≡ ends_beside body ends }
{
    match (body, ends) {
        (Became::New, Became::New)
        | (Became::Lost, Became::Lost)
        | (Became::First, Became::First)
        | (Became::Second, Became::Second) => Became::Same,
        _ => ends,
    }
}

/// Adds the part of a node's attributes, unless they are as they were.
fn note_node(
    alloc: Global,
    words: &mut Vec<u8>,
    before: &View,
    after: &View,
    old: &Option<NodeRow>,
    new: &Option<NodeRow>,
    became: Became,
) -> Result<(), AllocError>
    ensures { OnOk result (words.new.items ≡ noted words.old.items (codes "attributes") (changed_node before.now after.now words.old.items old.now new.now) became) }
{
    match became {
        Became::Same => Ok(()),
        Became::Changed => match (old, new) {
            (Some(old), Some(new)) => add_node(alloc, words, before, after, old, new),
            _ => Ok(()),
        },
        _ => note(words, b"attributes", became),
    }
}

/// Adds the part of a node's readers and writers, unless they are as they were.
fn note_ends(
    words: &mut Vec<u8>,
    old: Option<Option<Ends>>,
    new: Option<Option<Ends>>,
    became: Became,
) -> Result<(), AllocError>
    ensures { OnOk result (words.new.items ≡ noted words.old.items (codes "readers and writers") (ends_change words.old.items old new) became) }
{
    match became {
        Became::Same => Ok(()),
        Became::Changed => add_ends(words, old, new),
        _ => note(words, ENDS, became),
    }
}

/// Adds the part of a body, unless it is as it was.
fn note_body(
    words: &mut Vec<u8>,
    by_name: bool,
    old: &Row,
    new: &Row,
    became: Became,
) -> Result<(), AllocError>
    ensures { OnOk result (words.new.items ≡ noted words.old.items (body_word old.now new.now) (with_part words.old.items (Some (body_change by_name old.now.body new.now.body))) became) }
{
    match became {
        Became::Same => Ok(()),
        Became::Changed => add_body(words, by_name, &old.body, &new.body),
        _ => note(words, body_word(old, new), became),
    }
}

/// Adds whether a directory has no entries, unless that is as it was.
fn note_empty(
    words: &mut Vec<u8>,
    new: Option<Option<bool>>,
    became: Became,
) -> Result<(), AllocError>
    ensures { OnOk result (words.new.items ≡ noted words.old.items (codes "emptiness") (with_part words.old.items (Some (empty_change new))) became) }
{
    match became {
        Became::Same => Ok(()),
        Became::Changed => add_empty(words, new),
        _ => note(words, b"emptiness", became),
    }
}

/// Adds the part of an open, unless it is as it was.
fn note_open(
    alloc: Global,
    words: &mut Vec<u8>,
    old: &Option<OpenRow>,
    new: &Option<OpenRow>,
    became: Became,
) -> Result<(), AllocError>
    ensures { OnOk result (words.new.items ≡ noted words.old.items (codes "open") (changed_open words.old.items old.now new.now) became) }
{
    match became {
        Became::Same => Ok(()),
        Became::Changed => add_open(alloc, words, old, new),
        _ => note(words, b"open", became),
    }
}

/// Adds the part of a server, unless it is as it was.
fn note_server(
    alloc: Global,
    words: &mut Vec<u8>,
    before: &View,
    after: &View,
    old: &Option<Option<ServerRow>>,
    new: &Option<Option<ServerRow>>,
    became: Became,
) -> Result<(), AllocError>
    ensures { OnOk result (words.new.items ≡ noted words.old.items (codes "program") (server_change before.now after.now words.old.items old.now new.now) became) }
{
    match became {
        Became::Same => Ok(()),
        Became::Changed => add_server(alloc, words, before, after, old, new),
        _ => note(words, b"program", became),
    }
}

/// Adds the text of a server, unless it is as it was.
fn note_text(
    alloc: Global,
    words: &mut Vec<u8>,
    old: &Option<Option<TextRow>>,
    new: &Option<Option<TextRow>>,
    became: Became,
) -> Result<(), AllocError>
    ensures { OnOk result (words.new.items ≡ noted words.old.items (codes "text") (text_change words.old.items old.now new.now) became) }
{
    match became {
        Became::Same => Ok(()),
        Became::Changed => add_text(alloc, words, old, new),
        _ => note(words, b"text", became),
    }
}

/// Adds the part of a number by its word, unless it is as it was.
fn note_number(
    words: &mut Vec<u8>,
    word: &[u8],
    old: Option<u128>,
    new: Option<u128>,
    became: Became,
) -> Result<(), AllocError>
    ensures { OnOk result (words.new.items ≡ noted words.old.items word.now (number_change words.old.items word.now old new) became) }
{
    match became {
        Became::Same => Ok(()),
        Became::Changed => add_seen_number(words, word, old, new),
        _ => note(words, word, became),
    }
}

/// The parts that changed under a name: each by its word, and by what it was and is where it is seen both times.
pub(crate) fn parts(
    alloc: Global,
    before: &View,
    after: &View,
    old: &Row,
    new: &Row,
    change: &Change,
) -> Result<Vec<u8>, AllocError>
    ensures { IfOk result (λ words. words.items ≡ parts_of before.now after.now old.now new.now change.now) }
{
    let mut words = Vec::new(alloc);
    note_node(
        alloc,
        &mut words,
        before,
        after,
        &old.attributes,
        &new.attributes,
        change.attributes,
    )?;
    note_ends(
        &mut words,
        old.ends,
        new.ends,
        ends_beside(change.body, change.ends),
    )?;
    note_body(&mut words, change.by_name, old, new, change.body)?;
    note_empty(&mut words, new.empty, emptiness(change.body, change.empty))?;
    note_open(alloc, &mut words, &old.opened, &new.opened, change.opened)?;
    note_server(
        alloc,
        &mut words,
        before,
        after,
        &old.server,
        &new.server,
        change.server,
    )?;
    note_text(alloc, &mut words, &old.text, &new.text, change.text)?;
    note_number(&mut words, b"users", old.users, new.users, change.users)?;
    note_number(&mut words, b"total", old.total, new.total, change.total)?;
    Ok(words)
}

/// Adds parts, or that something changed where there are none.
fn push_parts(words: &mut Vec<u8>, parts: &[u8]) -> Result<(), AllocError>
    ensures { OnOk result (words.new.items ≡ words.old.items ++ or_changed parts.now) }
{
    if parts.is_empty() {
        return words.extend_from_slice(b"changed");
    }
    words.extend_from_slice(parts)
}

/// What is said of a thing of which this was seen before, and that after.
pub(crate) fn said(
    alloc: Global,
    before: &View,
    after: &View,
    old: &Row,
    new: &Row,
    change: &Change,
) -> Result<Vec<u8>, AllocError>
    ensures { IfOk result (λ said. said.items ≡ said_of before.now after.now old.now new.now change.now) }
{
    if !shows(new) {
        return Vec::from_slice(alloc, b"no longer seen");
    }
    let parts = parts(alloc, before, after, old, new, change)?;
    let mut said = Vec::new(alloc);
    if !shows(old) {
        said.extend_from_slice(b"new: ")?;
    }
    push_parts(&mut said, parts.as_slice())?;
    Ok(said)
}
