//! What is seen under a name, by its parts, in words.
ghost use Rattle.std.specs.Prelude.{◌≡◌, ◌∷◌, ◌++◌, bytes_eq, codes, IfOk, OnOk, Some};
ghost use Rattle.std.specs.Option.{option_map};
ghost use Rattle.hurd_places.specs.Places.{node_path};
ghost use Rattle.hurd_lessons.specs.Seen.{active_part, marked_text, program_text, text_part, words_behind, body_part, body_text, bytes_text, cursor_text, empty_part, empty_text, ends_part, ends_text, entry_names, held_text, given_text, home_part, listing_text, modes_text, node_places, node_parts, node_text, number_text, on_part, opened_by_tasks, parent_part, passive_text, places_text, program_in, program_of, read_text, reads_of, seen_of, server_named, server_parts, targets_part, uid_text};
ghost use Rattle.hurd_lessons.specs.Values.{with_part, words_or_none};

use crate::opens::opened_by_tasks;
use crate::values::{add_part, part, push_all_words, push_bytes};
use hurd_creds::{Bytes, Ids, Name, NodeName, OpenFlags, ServerName};
use hurd_places::{node_path, server_path};
use hurd_ports::Ends;
use hurd_views::{BodyRow, EntryRow, NodeRow, OpenRow, Row, ServerRow, TextRow, View};
use hurd_words::printing::{push_if, push_long_number, push_number, push_stat};
use hurd_words::spelling::{push_spelled, push_spelled_name, push_spelled_words};
use itoa::Buffer;
use std::alloc::{AllocError, Global};

/// Programs of servers whose roots give other bytes than those that are kept.
const HELLO: &[u8] = b"/hurd/hello";

const SYMLINK: &[u8] = b"/hurd/symlink";

const UNION: &[u8] = b"/hurd/union";

const ZERO: &[u8] = b"/hurd/zero";

const DRIP: &[u8] = b"/hurd/drip";

/// What reading the root of a server gives.
#[derive(Clone, Copy, Debug, PartialEq, Eq)]
pub(crate) enum Reads {
    /// Its server's text.
    Text,
    /// The entries of its server's targets.
    Entries,
    /// Zeros without an end.
    Zeros,
    /// What its server has not given yet.
    Left,
    /// What is kept.
    Kept,
}

/// Adds the words of a passive translator, where it has any.
fn push_passive(words: &mut Vec<u8>, passive: &[Bytes]) -> Result<(), AllocError>
    ensures { OnOk result (words.new.items ≡ words.old.items ++ passive_text passive.now) }
{
    if passive.is_empty() {
        return Ok(());
    }
    words.extend_from_slice(b" passive")?;
    push_spelled_words(words, passive)
}

/// Adds a node's attributes and the words of its passive translator.
fn push_node(words: &mut Vec<u8>, row: &NodeRow) -> Result<(), AllocError>
    ensures { OnOk result (words.new.items ≡ words.old.items ++ node_text row.now) }
{
    let Some(attrs) = &row.attrs else {
        words.extend_from_slice(b"gone")?;
        return Ok(());
    };
    push_stat(words, &attrs.stat())?;
    push_passive(words, row.words.as_slice())
}

/// Adds the part of a server that is named, if one is.
fn add_named(
    alloc: Global,
    words: &mut Vec<u8>,
    word: &[u8],
    view: &View,
    server: Option<ServerName>,
) -> Result<(), AllocError>
    ensures { OnOk result (words.new.items ≡ with_part words.old.items (server_named word.now view.now server)) }
{
    let Some(server) = server else {
        return Ok(());
    };
    let path = server_path(alloc, view, server)?;
    part(words)?;
    words.extend_from_slice(word)?;
    words.extend_from_slice(path.as_slice())
}

/// Adds the part of a node's server.
fn add_home(
    alloc: Global,
    words: &mut Vec<u8>,
    view: &View,
    row: &Option<NodeRow>,
) -> Result<(), AllocError>
    ensures { OnOk result (words.new.items ≡ with_part words.old.items (home_part view.now row.now)) }
{
    match row {
        Some(row) => add_named(alloc, words, b"served by ", view, row.home),
        None => Ok(()),
    }
}

/// Adds the part of the server that is active on a node.
fn add_active(
    alloc: Global,
    words: &mut Vec<u8>,
    view: &View,
    row: &Option<NodeRow>,
) -> Result<(), AllocError>
    ensures { OnOk result (words.new.items ≡ with_part words.old.items (active_part view.now row.now)) }
{
    match row {
        Some(row) => add_named(alloc, words, b"active ", view, row.active),
        None => Ok(()),
    }
}

/// Adds how many opens read a node, and how many write it.
fn push_ends(words: &mut Vec<u8>, ends: Ends) -> Result<(), AllocError>
    ensures { OnOk result (words.new.items ≡ words.old.items ++ ends_text ends) }
{
    words.extend_from_slice(b"readers")?;
    push_long_number(words, ends.readers)?;
    words.extend_from_slice(b" writers")?;
    push_long_number(words, ends.writers)
}

/// Adds the part of that, where it is seen.
fn add_ends(words: &mut Vec<u8>, ends: Option<Option<Ends>>) -> Result<(), AllocError>
    ensures { OnOk result (words.new.items ≡ with_part words.old.items (ends_part ends)) }
{
    let Some(Some(ends)) = ends else {
        return Ok(());
    };
    part(words)?;
    push_ends(words, ends)
}

/// Adds the part of a directory's parent.
fn add_parent(
    alloc: Global,
    words: &mut Vec<u8>,
    view: &View,
    row: &Option<NodeRow>,
) -> Result<(), AllocError>
    ensures { OnOk result (words.new.items ≡ with_part words.old.items (parent_part view.now row.now)) }
{
    let Some(row) = row else {
        return Ok(());
    };
    let Some(attrs) = &row.attrs else {
        return Ok(());
    };
    let Some(parent) = attrs.parent else {
        return Ok(());
    };
    let path = node_path(alloc, view, parent)?;
    part(words)?;
    words.extend_from_slice(b"parent ")?;
    words.extend_from_slice(path.as_slice())
}

/// Adds the names of entries, each after a space.
fn push_entries(words: &mut Vec<u8>, entries: &[EntryRow]) -> Result<(), AllocError>
    ensures { OnOk result (words.new.items ≡ words.old.items ++ entry_names entries.now) }
{
    for entry in entries {
        words.push(b' ')?;
        push_spelled_name(words, entry.name.as_slice())?;
    }
    Ok(())
}

/// Adds entries by their names, or that there are none.
fn push_listing(words: &mut Vec<u8>, entries: &[EntryRow]) -> Result<(), AllocError>
    ensures { OnOk result (words.new.items ≡ words.old.items ++ listing_text entries.now) }
{
    if entries.is_empty() {
        words.extend_from_slice(b"no entries")?;
        return Ok(());
    }
    words.extend_from_slice(b"entries")?;
    push_entries(words, entries)
}

/// Adds bytes, or that there are none.
fn push_content(words: &mut Vec<u8>, bytes: &[u8]) -> Result<(), AllocError>
    ensures { OnOk result (words.new.items ≡ words.old.items ++ bytes_text bytes.now) }
{
    if bytes.is_empty() {
        words.extend_from_slice(b"no bytes")?;
        return Ok(());
    }
    words.extend_from_slice(b"bytes ")?;
    push_spelled(words, bytes)
}

/// Adds entries by their names, or bytes.
fn push_body(words: &mut Vec<u8>, body: &BodyRow) -> Result<(), AllocError>
    ensures { OnOk result (words.new.items ≡ words.old.items ++ body_text body.now) }
{
    match body {
        BodyRow::Entries(entries) => push_listing(words, entries.as_slice()),
        BodyRow::Bytes(bytes) => push_content(words, bytes.as_slice()),
    }
}

/// An open's modes, each after a space.
pub(crate) fn modes_of(alloc: Global, modes: OpenFlags) -> Result<Vec<u8>, AllocError>
    ensures { IfOk result (λ text. text.items ≡ modes_text modes) }
{
    let mut text = Vec::new(alloc);
    push_modes(&mut text, modes)?;
    Ok(text)
}

/// Adds an open's modes, each after a space.
fn push_modes(words: &mut Vec<u8>, modes: OpenFlags) -> Result<(), AllocError>
    ensures { OnOk result (words.new.items ≡ words.old.items ++ modes_text modes) }
{
    push_if(words, modes.asks(OpenFlags::READ), " read")?;
    push_if(words, modes.asks(OpenFlags::WRITE), " write")?;
    push_if(words, modes.asks(OpenFlags::EXEC), " exec")?;
    push_if(words, modes.asks(OpenFlags::APPEND), " append")
}

/// Adds an open's cursor and modes, or that it is gone.
fn push_cursor(words: &mut Vec<u8>, row: &OpenRow) -> Result<(), AllocError>
    ensures { OnOk result (words.new.items ≡ words.old.items ++ cursor_text row.now) }
{
    let Some(opened) = &row.opened else {
        words.extend_from_slice(b"gone")?;
        return Ok(());
    };
    words.extend_from_slice(b"cursor")?;
    push_number(words, opened.cursor)?;
    push_modes(words, opened.modes)
}

/// Adds how many rights hold an open.
fn push_held(words: &mut Vec<u8>, row: &OpenRow) -> Result<(), AllocError>
    ensures { OnOk result (words.new.items ≡ words.old.items ++ held_text row.now) }
{
    if row.holders == 1 {
        words.extend_from_slice(b"held once")?;
        return Ok(());
    }
    words.extend_from_slice(b"held")?;
    push_long_number(words, row.holders)?;
    words.extend_from_slice(b" times")?;
    Ok(())
}

/// Adds the place of a node, after a space.
fn push_place(
    alloc: Global,
    words: &mut Vec<u8>,
    view: &View,
    node: NodeName,
) -> Result<(), AllocError>
    ensures { OnOk result (words.new.items ≡ words.old.items ++ (32 ∷ node_path view.now node)) }
{
    words.push(b' ')?;
    let place = node_path(alloc, view, node)?;
    words.extend_from_slice(place.as_slice())?;
    Ok(())
}

/// Adds the places of these nodes, each after a space.
fn push_places(
    alloc: Global,
    words: &mut Vec<u8>,
    view: &View,
    nodes: &[NodeName],
) -> Result<(), AllocError>
    ensures { OnOk result (words.new.items ≡ words.old.items ++ node_places view.now nodes.now) }
{
    for node in nodes {
        push_place(alloc, words, view, *node)?;
    }
    Ok(())
}

/// The places of these nodes, or that there are none.
pub(crate) fn places_of(
    alloc: Global,
    view: &View,
    nodes: &[NodeName],
) -> Result<Vec<u8>, AllocError>
    ensures { IfOk result (λ text. text.items ≡ places_text view.now nodes.now) }
{
    let Some((first, rest)) = nodes.split_first() else {
        return Vec::from_slice(alloc, b"(none)");
    };
    let mut text = node_path(alloc, view, *first)?;
    push_places(alloc, &mut text, view, rest)?;
    Ok(text)
}

/// The uid of a server: the least, if it has any.
pub(crate) fn uid_of(alloc: Global, ids: &Ids) -> Result<Vec<u8>, AllocError>
    ensures { IfOk result (λ text. text.items ≡ uid_text ids.now) }
{
    match ids.least_uid() {
        Some(uid) => Vec::from_slice(alloc, Buffer::new().format(uid).as_bytes()),
        None => Vec::from_slice(alloc, b"(nobody)"),
    }
}

/// Adds a mark and bytes after a space, where there are any bytes.
fn push_marked_text(words: &mut Vec<u8>, mark: &[u8], text: &[u8]) -> Result<(), AllocError>
    ensures { OnOk result (words.new.items ≡ words.old.items ++ marked_text mark.now text.now) }
{
    if text.is_empty() {
        return Ok(());
    }
    words.push(b' ')?;
    words.extend_from_slice(mark)?;
    push_spelled(words, text)
}

/// The program of a server, and after it a link's text, or the word that says a tree's limit.
pub(crate) fn program_text(alloc: Global, server: &ServerRow) -> Result<Vec<u8>, AllocError>
    ensures { IfOk result (λ text. text.items ≡ program_text server.now) }
{
    let mut text = Vec::new(alloc);
    push_bytes(&mut text, server.program.as_slice())?;
    push_marked_text(&mut text, server.text_mark(), server.text.as_slice())?;
    Ok(text)
}

/// Adds the program of a server.
fn add_program(alloc: Global, words: &mut Vec<u8>, server: &ServerRow) -> Result<(), AllocError>
    ensures { OnOk result (words.new.items ≡ with_part words.old.items (Some (codes "program " ++ program_text server.now))) }
{
    let text = program_text(alloc, server)?;
    part(words)?;
    words.extend_from_slice(b"program ")?;
    words.extend_from_slice(text.as_slice())
}

/// The words after the first.
pub(crate) fn words_behind(words: &[Bytes]) -> &[Bytes]
    ensures { result.now ≡ words_behind words.entry.now }
{
    match words.split_first() {
        Some((_, rest)) => rest,
        None => &[],
    }
}

/// Adds the text of a server, where it is seen.
fn add_text(words: &mut Vec<u8>, text: &Option<Option<TextRow>>) -> Result<(), AllocError>
    ensures { OnOk result (words.new.items ≡ with_part words.old.items (text_part text.now)) }
{
    let Some(Some(text)) = text else {
        return Ok(());
    };
    part(words)?;
    words.extend_from_slice(b"text ")?;
    push_all_words(words, words_behind(text.options.as_slice()))
}

/// Adds what a server aims at, if it aims at any.
fn add_targets(
    alloc: Global,
    words: &mut Vec<u8>,
    view: &View,
    targets: &[NodeName],
) -> Result<(), AllocError>
    ensures { OnOk result (words.new.items ≡ with_part words.old.items (targets_part view.now targets.now)) }
{
    if targets.is_empty() {
        return Ok(());
    }
    let places = places_of(alloc, view, targets)?;
    part(words)?;
    words.extend_from_slice(b"targets ")?;
    words.extend_from_slice(places.as_slice())
}

/// Adds where a server's root is.
fn add_root(
    alloc: Global,
    words: &mut Vec<u8>,
    view: &View,
    root: NodeName,
) -> Result<(), AllocError>
    ensures { OnOk result (words.new.items ≡ with_part words.old.items (Some (codes "root " ++ node_path view.now root))) }
{
    let path = node_path(alloc, view, root)?;
    part(words)?;
    words.extend_from_slice(b"root ")?;
    words.extend_from_slice(path.as_slice())
}

/// Adds whom a server runs as.
fn add_uid(alloc: Global, words: &mut Vec<u8>, ids: &Ids) -> Result<(), AllocError>
    ensures { OnOk result (words.new.items ≡ with_part words.old.items (Some (codes "runs as " ++ uid_text ids.now))) }
{
    let uid = uid_of(alloc, ids)?;
    part(words)?;
    words.extend_from_slice(b"runs as ")?;
    words.extend_from_slice(uid.as_slice())
}

/// Adds the parts of a server that is there.
fn add_server_row(
    alloc: Global,
    words: &mut Vec<u8>,
    view: &View,
    server: &ServerRow,
) -> Result<(), AllocError>
    ensures { OnOk result (words.new.items ≡ server_parts view.now words.old.items (Some (Some server.now))) }
{
    add_program(alloc, words, server)?;
    add_targets(alloc, words, view, server.targets.as_slice())?;
    add_root(alloc, words, view, server.root)?;
    add_uid(alloc, words, &server.ids)
}

/// Adds the part of a node's attributes, where they are seen.
fn add_node(words: &mut Vec<u8>, row: &Option<NodeRow>) -> Result<(), AllocError>
    ensures { OnOk result (words.new.items ≡ with_part words.old.items (option_map node_text row.now)) }
{
    let Some(row) = row else {
        return Ok(());
    };
    part(words)?;
    push_node(words, row)
}

/// The program of a server, of which a node is the root.
fn program_in(node: NodeName, server: &Option<Option<ServerRow>>) -> &[u8]
    ensures { result.now ≡ program_in node server.now }
{
    let Some(Some(server)) = server else {
        return b"";
    };
    if node == server.root {
        server.program.as_slice()
    } else {
        b""
    }
}

/// The same of a node's server.
fn program_of<'a>(view: &'a View, node: NodeName, row: &Option<NodeRow>) -> &'a [u8]
    ensures { result.now ≡ program_of view.now node row.now }
{
    let Some(row) = row else {
        return b"";
    };
    let Some(server) = row.home else {
        return b"";
    };
    match view.rows.get(server) {
        Some(row) => program_in(node, &row.server),
        None => b"",
    }
}

/// Adds what a drip has given.
fn push_given(words: &mut Vec<u8>, body: &BodyRow) -> Result<(), AllocError>
    ensures { OnOk result (words.new.items ≡ words.old.items ++ given_text body.now) }
{
    match body {
        BodyRow::Entries(entries) => push_listing(words, entries.as_slice()),
        BodyRow::Bytes(bytes) => {
            words.extend_from_slice(b"given ")?;
            push_bytes(words, bytes.as_slice())
        }
    }
}

/// Whether a program is the one of this name.
fn is_program(program: &[u8], name: &[u8]) -> bool
    ensures { result ≡ bytes_eq program.now name.now }
{
    program == name
}

/// What reading the root of a server of this program gives.
fn reads_of(program: &[u8]) -> Reads
    ensures { result ≡ reads_of program.now }
{
    if is_program(program, HELLO) || is_program(program, SYMLINK) {
        Reads::Text
    } else if is_program(program, UNION) {
        Reads::Entries
    } else if is_program(program, ZERO) {
        Reads::Zeros
    } else if is_program(program, DRIP) {
        Reads::Left
    } else {
        Reads::Kept
    }
}

/// Adds what is in a node, or what reading it gives where that is not what is kept.
fn push_read(words: &mut Vec<u8>, reads: Reads, body: &BodyRow) -> Result<(), AllocError>
    ensures { OnOk result (words.new.items ≡ words.old.items ++ read_text reads body.now) }
{
    match reads {
        Reads::Text => words.extend_from_slice(b"its server's text"),
        Reads::Entries => words.extend_from_slice(b"its targets' entries"),
        Reads::Zeros => words.extend_from_slice(b"zeros"),
        Reads::Left => push_given(words, body),
        Reads::Kept => push_body(words, body),
    }
}

/// Adds the part of a body, where one is seen.
fn add_body(
    words: &mut Vec<u8>,
    program: &[u8],
    body: &Option<Option<BodyRow>>,
) -> Result<(), AllocError>
    ensures { OnOk result (words.new.items ≡ with_part words.old.items (body_part program.now body.now)) }
{
    let Some(Some(body)) = body else {
        return Ok(());
    };
    part(words)?;
    push_read(words, reads_of(program), body)
}

/// Whether a directory has no entries.
pub(crate) fn empty_text(empty: bool) -> &'static [u8]
    ensures { result.now ≡ empty_text empty }
{
    if empty { b"empty" } else { b"not empty" }
}

/// Adds whether a directory has no entries, where that alone is seen of it.
fn add_empty(
    words: &mut Vec<u8>,
    body: &Option<Option<BodyRow>>,
    empty: Option<Option<bool>>,
) -> Result<(), AllocError>
    ensures { OnOk result (words.new.items ≡ with_part words.old.items (empty_part body.now empty)) }
{
    let (None, Some(Some(empty))) = (body, empty) else {
        return Ok(());
    };
    part(words)?;
    words.extend_from_slice(empty_text(empty))
}

/// Adds the part of an open's node, where the open is seen.
fn add_on(
    alloc: Global,
    words: &mut Vec<u8>,
    view: &View,
    name: Name,
    row: &Option<OpenRow>,
) -> Result<(), AllocError>
    ensures { OnOk result (words.new.items ≡ with_part words.old.items (on_part view.now name row.now)) }
{
    if row.is_none() {
        return Ok(());
    }
    let Some(node) = opened_by_tasks(name, view.seats.as_slice()) else {
        return Ok(());
    };
    let path = node_path(alloc, view, node)?;
    part(words)?;
    words.extend_from_slice(b"on ")?;
    words.extend_from_slice(path.as_slice())
}

/// Adds the part of an open's cursor, where the open is seen.
fn add_cursor(words: &mut Vec<u8>, row: &Option<OpenRow>) -> Result<(), AllocError>
    ensures { OnOk result (words.new.items ≡ with_part words.old.items (option_map cursor_text row.now)) }
{
    let Some(row) = row else {
        return Ok(());
    };
    part(words)?;
    push_cursor(words, row)
}

/// Adds the part of how many hold an open, where it is seen.
fn add_held(words: &mut Vec<u8>, row: &Option<OpenRow>) -> Result<(), AllocError>
    ensures { OnOk result (words.new.items ≡ with_part words.old.items (option_map held_text row.now)) }
{
    let Some(row) = row else {
        return Ok(());
    };
    part(words)?;
    push_held(words, row)
}

/// Adds the parts of a server, where it is seen.
fn add_server(
    alloc: Global,
    words: &mut Vec<u8>,
    view: &View,
    server: &Option<Option<ServerRow>>,
) -> Result<(), AllocError>
    ensures { OnOk result (words.new.items ≡ server_parts view.now words.old.items server.now) }
{
    match server {
        Some(Some(server)) => add_server_row(alloc, words, view, server),
        Some(None) => add_part(words, b"gone"),
        None => Ok(()),
    }
}

/// Adds a number by its word, where it is seen.
fn add_number(words: &mut Vec<u8>, word: &[u8], number: Option<u128>) -> Result<(), AllocError>
    ensures { OnOk result (words.new.items ≡ with_part words.old.items (option_map (number_text word.now) number)) }
{
    let Some(number) = number else {
        return Ok(());
    };
    part(words)?;
    words.extend_from_slice(word)?;
    push_long_number(words, number)
}

/// What is seen of a node, by its parts.
fn node_of(alloc: Global, view: &View, name: Name, row: &Row) -> Result<Vec<u8>, AllocError>
    ensures { IfOk result (λ words. words.items ≡ node_parts view.now name row.now) }
{
    let mut words = Vec::new(alloc);
    add_node(&mut words, &row.attributes)?;
    add_home(alloc, &mut words, view, &row.attributes)?;
    add_active(alloc, &mut words, view, &row.attributes)?;
    add_ends(&mut words, row.ends)?;
    add_parent(alloc, &mut words, view, &row.attributes)?;
    add_body(
        &mut words,
        program_of(view, name, &row.attributes),
        &row.body,
    )?;
    add_empty(&mut words, &row.body, row.empty)?;
    Ok(words)
}

/// What is seen under a name, by its parts.
pub(crate) fn seen_of(
    alloc: Global,
    view: &View,
    name: Name,
    row: &Row,
) -> Result<Vec<u8>, AllocError>
    ensures { IfOk result (λ words. words.items ≡ seen_of view.now name row.now) }
{
    let mut words = node_of(alloc, view, name, row)?;
    add_on(alloc, &mut words, view, name, &row.opened)?;
    add_cursor(&mut words, &row.opened)?;
    add_held(&mut words, &row.opened)?;
    add_server(alloc, &mut words, view, &row.server)?;
    add_text(&mut words, &row.text)?;
    add_number(&mut words, b"users", row.users)?;
    add_number(&mut words, b"total", row.total)?;
    Ok(words)
}
