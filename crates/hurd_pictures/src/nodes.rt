//! A node in its server's box, and the arrows to its entries.
ghost use Rattle.std.specs.Prelude.{◌≡◌, ◌++◌, option_copied, OnOk};
ghost use Rattle.hurd_views.specs.Views.{row_at};
ghost use Rattle.hurd_pictures.specs.Labels.{arrow_text};
ghost use Rattle.hurd_pictures.specs.Nodes.{attrs_text, box_end, box_text, bytes_line, bytes_word, content_text, ends_text, entries_text, entry_text, font_text, has_body, inside_text, is_seen, italics_text, label_text, listing_text, look_text, mark_in, mark_of, mark_style, mark_with, name_at, node_text, passive_text, server_box, shape, short_mode, shows_more, size_text, stub_text, unseen_text};

use crate::bytes::{push_short, push_shown, push_text};
use crate::names::{
    Titles, is_title, listed_in, push_count, push_node_name, push_numbers, push_plain_title,
    push_title, push_words,
};
use bitflags::Flags;
use hurd_creds::{Attrs, Bytes, Kind, Mode, Name, NodeName, ServerName};
use hurd_ports::Ends;
use hurd_views::{BodyRow, EntryRow, NodeRow, Row, View};
use hurd_words::printing::{kind_letter, octal_digit, push_long_number, push_mode};
use std::alloc::AllocError;

/// How much of a node is seen by those who are marked.
#[derive(Clone, Copy)]
pub(crate) enum Mark {
    /// Nobody is marked.
    Plain,
    /// Nothing of it.
    Unseen,
    /// Its attributes.
    Outside,
    /// What is in it.
    Inside,
    /// Others could show more of it.
    Helped,
}

/// How much of what has this row is seen.
fn mark_in(row: &Row) -> Mark
    ensures { result ≡ mark_in row.now }
{
    if row.body.is_some() {
        Mark::Inside
    } else if row.attributes.is_some() {
        Mark::Outside
    } else {
        Mark::Unseen
    }
}

/// How much of a node is seen by those whose view this is.
fn mark_at(view: &View, name: Name) -> Mark
    ensures { result ≡ mark_in (row_at view.now.rows name) }
{
    match view.rows.get(name) {
        Some(row) => mark_in(row),
        None => Mark::Unseen,
    }
}

/// Whether a wider view shows more of a node than another: what is in it, or its attributes.
fn shows_more(wide: &View, view: &View, name: Name) -> bool
    ensures { result ≡ shows_more (row_at wide.now.rows name) (row_at view.now.rows name) }
{
    has_body(wide, name) && !has_body(view, name) || is_seen(wide, name) && !is_seen(view, name)
}

/// How much of a node is seen by those whose view this is, or, by a wider view, that others could show more of it.
fn mark_with(view: &View, wide: Option<&View>, name: Name) -> Mark
    ensures { result ≡ mark_with (row_at view.now.rows name) (option_copied wide.entry) name }
{
    let Some(wide) = wide else {
        return mark_at(view, name);
    };
    if shows_more(wide, view, name) {
        return Mark::Helped;
    }
    mark_at(view, name)
}

/// The same by the view of those who are marked, if any are.
pub(crate) fn mark_of(theirs: Option<&View>, wide: Option<&View>, name: Name) -> Mark
    ensures { result ≡ mark_of (option_copied theirs.entry) (option_copied wide.entry) name }
{
    match theirs {
        Some(view) => mark_with(view, wide, name),
        None => Mark::Plain,
    }
}

/// The colours of a node.
fn mark_style(mark: Mark) -> &'static [u8]
    ensures { result.now ≡ mark_style mark }
{
    match mark {
        Mark::Plain => b"",
        Mark::Unseen => {
            b", fillcolor=\"#ececec\", color=\"#9a9a9a\", fontcolor=\"#6a6a6a\", style=\"filled,dashed\""
        }
        Mark::Outside => b", fillcolor=white, color=\"#c98a00\", penwidth=2",
        Mark::Inside => b", fillcolor=\"#ffe08a\", color=\"#c98a00\", penwidth=2",
        Mark::Helped => b", fillcolor=\"#d3e4f8\", color=\"#0b5cad\", penwidth=2",
    }
}

/// The shape of a kind.
fn shape(kind: Kind) -> &'static [u8]
    ensures { result.now ≡ shape kind }
{
    match kind {
        Kind::File => b"note",
        Kind::Dir => b"folder",
        Kind::Link => b"cds, margin=\"0.25,0.1\"",
        Kind::Fifo => b"cylinder",
        Kind::Char => b"component",
    }
}

/// Adds a mode by three octal digits, or as many more as it wants.
fn push_short_mode(text: &mut Vec<u8>, mode: Mode) -> Result<(), AllocError>
    ensures { OnOk result (text.new.items ≡ text.old.items ++ short_mode mode.0) }
{
    let bits = mode.bits();
    if bits >= 0o10000 {
        return push_mode(text, mode);
    }
    if bits >= 0o1000 {
        text.push(octal_digit(bits / 0o1000))?;
    }
    push_text(
        text,
        &[
            octal_digit(bits / 0o100),
            octal_digit(bits / 0o10),
            octal_digit(bits),
        ],
    )
}

/// The word after a number of bytes.
fn bytes_word(count: u64) -> &'static [u8]
    ensures { result.now ≡ bytes_word count }
{
    if count == 1 { b" byte" } else { b" bytes" }
}

/// Adds the size of what is no directory.
fn push_size(text: &mut Vec<u8>, attrs: &Attrs) -> Result<(), AllocError>
    ensures { OnOk result (text.new.items ≡ text.old.items ++ size_text attrs.now) }
{
    if kind_letter(attrs.kind) == b'd' {
        return Ok(());
    }
    push_text(text, b", ")?;
    push_count(text, attrs.size)?;
    push_text(text, bytes_word(attrs.size))
}

/// Adds a node's kind, mode, owner and group, and its size.
fn push_attrs(text: &mut Vec<u8>, titles: &Titles, attrs: &Attrs) -> Result<(), AllocError>
    ensures { OnOk result (text.new.items ≡ text.old.items ++ attrs_text titles.now attrs.now) }
{
    text.push(kind_letter(attrs.kind))?;
    push_short_mode(text, attrs.mode)?;
    text.push(b' ')?;
    titles.push_owner(text, attrs.owner)?;
    text.push(b':')?;
    push_count(text, attrs.group as u64)?;
    push_size(text, attrs)
}

/// Adds how many opens read a node and how many write it, where that is seen.
fn push_ends(text: &mut Vec<u8>, ends: Option<Option<Ends>>) -> Result<(), AllocError>
    ensures { OnOk result (text.new.items ≡ text.old.items ++ ends_text ends) }
{
    let Some(Some(ends)) = ends else {
        return Ok(());
    };
    push_text(text, b"<br/>readers")?;
    push_long_number(text, ends.readers)?;
    push_text(text, b", writers")?;
    push_long_number(text, ends.writers)
}

/// Adds a line of a label with the first of some bytes.
fn push_font(text: &mut Vec<u8>, bytes: &[u8]) -> Result<(), AllocError>
    ensures { OnOk result (text.new.items ≡ text.old.items ++ font_text bytes.now) }
{
    push_text(text, b"<br/><font face=\"monospace\">")?;
    push_short(text, bytes)?;
    push_text(text, b"</font>")
}

/// The same, where there are any bytes.
fn push_bytes_line(text: &mut Vec<u8>, bytes: &[u8]) -> Result<(), AllocError>
    ensures { OnOk result (text.new.items ≡ text.old.items ++ bytes_line bytes.now) }
{
    if bytes.is_empty() {
        return Ok(());
    }
    push_font(text, bytes)
}

/// Adds the same of what is seen in a node.
fn push_content(text: &mut Vec<u8>, body: &Option<Option<BodyRow>>) -> Result<(), AllocError>
    ensures { OnOk result (text.new.items ≡ text.old.items ++ content_text body.now) }
{
    match body {
        Some(Some(BodyRow::Bytes(bytes))) => push_bytes_line(text, bytes.as_slice()),
        _ => Ok(()),
    }
}

/// Adds who reads and writes a node, and what is in it.
fn push_inside(text: &mut Vec<u8>, row: &Row) -> Result<(), AllocError>
    ensures { OnOk result (text.new.items ≡ text.old.items ++ inside_text row.now) }
{
    push_ends(text, row.ends)?;
    push_content(text, &row.body)
}

/// Adds a line of a label with these words of a passive translator.
fn push_italics(text: &mut Vec<u8>, words: &[Bytes]) -> Result<(), AllocError>
    ensures { OnOk result (text.new.items ≡ text.old.items ++ italics_text words.now) }
{
    push_text(text, b"<br/><i>passive ")?;
    push_words(text, words)?;
    push_text(text, b"</i>")
}

/// The same, where there are any words.
fn push_passive(text: &mut Vec<u8>, words: &[Bytes]) -> Result<(), AllocError>
    ensures { OnOk result (text.new.items ≡ text.old.items ++ passive_text words.now) }
{
    if words.is_empty() {
        return Ok(());
    }
    push_italics(text, words)
}

/// Adds the begin of a server's box.
fn push_server_box(text: &mut Vec<u8>, server: ServerName) -> Result<(), AllocError>
    ensures { OnOk result (text.new.items ≡ text.old.items ++ server_box server) }
{
    push_text(text, b"  subgraph cluster_")?;
    push_numbers(text, server)?;
    push_text(text, b" { cluster=true; ")
}

/// The same, if there is a server.
pub(crate) fn push_box(text: &mut Vec<u8>, server: Option<ServerName>) -> Result<(), AllocError>
    ensures { OnOk result (text.new.items ≡ text.old.items ++ box_text server) }
{
    match server {
        Some(server) => push_server_box(text, server),
        None => push_text(text, b"  "),
    }
}

/// What is at the end of it.
pub(crate) fn box_end(server: Option<ServerName>) -> &'static [u8]
    ensures { result.now ≡ box_end server }
{
    match server {
        Some(_) => b" }\n",
        None => b"\n",
    }
}

/// Adds the label of a node that is there.
fn push_label_of(
    text: &mut Vec<u8>,
    titles: &Titles,
    view: &View,
    name: NodeName,
    node: &NodeRow,
    attrs: &Attrs,
    row: &Row,
) -> Result<(), AllocError>
    ensures { OnOk result (text.new.items ≡ text.old.items ++ label_text titles.now view.now name node.now attrs.now row.now) }
{
    push_text(text, b"<<b>")?;
    push_title(text, view, name, node.home)?;
    push_text(text, b"</b><br/>")?;
    push_attrs(text, titles, attrs)?;
    push_inside(text, row)?;
    push_passive(text, node.words.as_slice())?;
    push_text(text, b">")
}

/// Adds how a node looks.
fn push_look(
    text: &mut Vec<u8>,
    titles: &Titles,
    view: &View,
    mark: Mark,
    name: NodeName,
    node: &NodeRow,
    row: &Row,
) -> Result<(), AllocError>
    ensures { OnOk result (text.new.items ≡ text.old.items ++ look_text titles.now view.now mark name node.now node.now.attrs row.now) }
{
    let Some(attrs) = &node.attrs else {
        return push_text(
            text,
            b" [shape=box, style=\"filled,dashed\", label=<gone>];",
        );
    };
    push_text(text, b" [shape=")?;
    push_text(text, shape(attrs.kind))?;
    push_text(text, b", label=")?;
    push_label_of(text, titles, view, name, node, attrs, row)?;
    push_text(text, mark_style(mark))?;
    push_text(text, b"];")
}

/// Adds a node in the box of its server, where the node is seen.
pub(crate) fn push_node(
    text: &mut Vec<u8>,
    titles: &Titles,
    view: &View,
    mark: Mark,
    name: NodeName,
    row: &Row,
) -> Result<(), AllocError>
    ensures { OnOk result (text.new.items ≡ text.old.items ++ node_text titles.now view.now mark name row.now.attributes row.now) }
{
    let Some(node) = &row.attributes else {
        return Ok(());
    };
    push_box(text, node.home)?;
    push_node_name(text, name)?;
    push_look(text, titles, view, mark, name, node, row)?;
    push_text(text, box_end(node.home))
}

/// Adds an arrow between two nodes.
pub(crate) fn push_arrow(text: &mut Vec<u8>, from: NodeName, to: NodeName) -> Result<(), AllocError>
    ensures { OnOk result (text.new.items ≡ text.old.items ++ arrow_text from to) }
{
    push_text(text, b"  ")?;
    push_node_name(text, from)?;
    push_text(text, b" -> ")?;
    push_node_name(text, to)
}

/// Whether a node's attributes are seen.
fn is_seen(view: &View, node: NodeName) -> bool
    ensures { result ≡ is_seen view.now node }
{
    match view.rows.get(node) {
        Some(row) => row.attributes.is_some(),
        None => false,
    }
}

/// Whether it is seen what is in a node.
fn has_body(view: &View, node: NodeName) -> bool
    ensures { result ≡ has_body view.now node }
{
    match view.rows.get(node) {
        Some(row) => row.body.is_some(),
        None => false,
    }
}

/// Adds a node by its name, as one of which no attributes are seen.
#[tactic(auto, unfolding(crate::specs::Nodes::stub_text))]
fn push_stub(text: &mut Vec<u8>, view: &View, node: NodeName) -> Result<(), AllocError>
    ensures { OnOk result (text.new.items ≡ text.old.items ++ stub_text view.now node) }
{
    push_text(text, b"  ")?;
    push_node_name(text, node)?;
    push_text(text, b" [shape=box, style=\"filled,dashed\", label=<<b>")?;
    push_plain_title(text, view, node)?;
    push_text(text, b"</b><br/>not seen>];\n")
}

/// The same, where none are seen: without it Graphviz draws a node by itself.
#[tactic(auto, unfolding(crate::specs::Nodes::unseen_text))]
pub(crate) fn push_unseen(text: &mut Vec<u8>, view: &View, node: NodeName) -> Result<(), AllocError>
    ensures { OnOk result (text.new.items ≡ text.old.items ++ unseen_text view.now node) }
{
    if is_seen(view, node) {
        return Ok(());
    }
    push_stub(text, view, node)
}

/// Adds the name of an entry at its arrow, unless the node is called so.
fn push_name_at(text: &mut Vec<u8>, called: bool, name: &[u8]) -> Result<(), AllocError>
    ensures { OnOk result (text.new.items ≡ text.old.items ++ name_at called name.now) }
{
    if called {
        return Ok(());
    }
    push_text(text, b" [label=<")?;
    push_shown(text, name)?;
    push_text(text, b">]")
}

/// Adds an arrow from a directory to an entry.
#[tactic(auto, unfolding(crate::specs::Nodes::entry_text))]
fn push_entry(
    text: &mut Vec<u8>,
    view: &View,
    directory: NodeName,
    entry: &EntryRow,
) -> Result<(), AllocError>
    ensures { OnOk result (text.new.items ≡ text.old.items ++ entry_text view.now directory entry.now) }
{
    push_unseen(text, view, entry.node)?;
    push_arrow(text, directory, entry.node)?;
    push_name_at(
        text,
        is_title(view, directory, entry),
        entry.name.as_slice(),
    )?;
    push_text(text, b";\n")
}

/// Adds an arrow from a directory to each of these entries.
fn push_entries(
    text: &mut Vec<u8>,
    view: &View,
    directory: NodeName,
    entries: &[EntryRow],
) -> Result<(), AllocError>
    ensures { OnOk result (text.new.items ≡ text.old.items ++ entries_text view.now directory entries.now) }
{
    for entry in entries {
        push_entry(text, view, directory, entry)?;
    }
    Ok(())
}

/// Adds an arrow to each entry that is seen of a directory.
pub(crate) fn push_listing(
    text: &mut Vec<u8>,
    view: &View,
    name: NodeName,
    row: &Row,
) -> Result<(), AllocError>
    ensures { OnOk result (text.new.items ≡ text.old.items ++ listing_text view.now name row.now.body) }
{
    push_entries(text, view, name, listed_in(&row.body))
}
