//! What things are called: in the text of a picture, and in its labels.
ghost use Rattle.std.specs.Prelude.{◌≡◌, ◌∷◌, ◌++◌, OnOk, decimal};
ghost use Rattle.hurd_creds.specs.Access.{least_uid};
ghost use Rattle.hurd_views.specs.Views.{row_at};
ghost use Rattle.hurd_pictures.specs.Labels.{more_words, node_name, numbers_text, owner_text, runner_text, task_text, words_text};
ghost use Rattle.hurd_pictures.specs.Found.{active_of, entry_name, entry_title, first_sought, has_entry, is_it, is_nameless, is_sought, is_title, is_tree_root, listed_in, name_in, plain_title, root_in, root_of, root_title, title_text};

use crate::bytes::{push_short, push_shown, push_text};
use hurd_creds::{Bytes, Ids, Name, NodeName, ServerName, TaskId};
use hurd_sight::Why;
use hurd_views::{BodyRow, EntryRow, NodeRow, Row, ServerRow, View};
use itoa::Buffer;
use std::alloc::AllocError;

/// What tasks and owners are called.
#[derive(Drop)]
pub struct Titles {
    /// Of each task, by its number; a task beyond them is called by its number.
    pub tasks: Vec<Bytes>,
    /// Of some uids; the first that has a uid counts, and one that none has is called by its number.
    pub owners: Vec<Owner>,
}

/// What a uid is called.
#[derive(Drop)]
pub struct Owner {
    pub uid: u32,
    pub name: Bytes,
}

/// What is looked for among the nodes of a view.
#[derive(Clone, Copy)]
pub(crate) enum Sought {
    /// A directory with an entry that names this node.
    Directory(NodeName),
    /// A node on which this server is active.
    Seat(ServerName),
}

/// Adds a number.
pub(crate) fn push_count(text: &mut Vec<u8>, number: u64) -> Result<(), AllocError>
    ensures { OnOk result (text.new.items ≡ text.old.items ++ decimal number) }
{
    push_text(text, Buffer::new().format(number).as_bytes())
}

/// Adds the two numbers of a name, as `1_4`.
pub(crate) fn push_numbers(text: &mut Vec<u8>, name: Name) -> Result<(), AllocError>
    ensures { OnOk result (text.new.items ≡ text.old.items ++ numbers_text name) }
{
    push_count(text, name.task.0 as u64)?;
    text.push(b'_')?;
    push_count(text, name.count)
}

/// Adds the name of a node in the picture's text, as `n1_4`.
pub(crate) fn push_node_name(text: &mut Vec<u8>, node: NodeName) -> Result<(), AllocError>
    ensures { OnOk result (text.new.items ≡ text.old.items ++ node_name node) }
{
    text.push(b'n')?;
    push_numbers(text, node)
}

/// Adds words, each after a space.
pub(crate) fn push_more_words(text: &mut Vec<u8>, words: &[Bytes]) -> Result<(), AllocError>
    ensures { OnOk result (text.new.items ≡ text.old.items ++ more_words words.now) }
{
    for word in words {
        text.push(b' ')?;
        push_short(text, word.as_slice())?;
    }
    Ok(())
}

/// Adds words with a space between them, or that there are none.
pub(crate) fn push_words(text: &mut Vec<u8>, words: &[Bytes]) -> Result<(), AllocError>
    ensures { OnOk result (text.new.items ≡ text.old.items ++ words_text words.now) }
{
    match words.split_first() {
        Some((first, more)) => {
            push_short(text, first.as_slice())?;
            push_more_words(text, more)
        }
        None => push_text(text, b"(none)"),
    }
}

impl Titles {
    /// Adds what the least of some ids is called, or that there is none.
    pub(crate) fn push_runner(&self, text: &mut Vec<u8>, ids: &Ids) -> Result<(), AllocError>
        ensures { OnOk result (text.new.items ≡ text.old.items ++ runner_text self.now (least_uid ids.now)) }
    {
        match ids.least_uid() {
            Some(uid) => self.push_owner(text, uid),
            None => push_text(text, b"nobody"),
        }
    }

    /// Adds what a uid is called.
    pub(crate) fn push_owner(&self, text: &mut Vec<u8>, uid: u32) -> Result<(), AllocError>
        ensures { OnOk result (text.new.items ≡ text.old.items ++ owner_text self.now uid) }
    {
        for owner in &self.owners {
            if owner.uid == uid {
                return push_shown(text, owner.name.as_slice());
            }
        }
        push_count(text, uid as u64)
    }

    /// Adds what a task is called.
    pub(crate) fn push_task(&self, text: &mut Vec<u8>, task: TaskId) -> Result<(), AllocError>
        ensures { OnOk result (text.new.items ≡ text.old.items ++ task_text self.now task.0) }
    {
        match self.tasks.get(task.0 as usize) {
            Some(name) => push_shown(text, name.as_slice()),
            None => push_count(text, task.0 as u64),
        }
    }
}

/// Whether a name is the one that may be there.
fn is_it(name: Name, other: Option<Name>) -> bool
    ensures { result ≡ is_it name other }
{
    match other {
        Some(other) => name == other,
        None => false,
    }
}

/// Whether one of these entries names a node.
fn has_entry(entries: &[EntryRow], node: NodeName) -> bool
    ensures { result ≡ has_entry entries.now node }
{
    for entry in entries {
        if entry.node == node {
            return true;
        }
    }
    false
}

/// The name of the first entry that has a node; none where there is no such entry.
fn entry_name(entries: &[EntryRow], node: NodeName) -> &[u8]
    ensures { result.now ≡ entry_name entries.now node }
{
    for entry in entries {
        if entry.node == node {
            return entry.name.as_slice();
        }
    }
    b""
}

/// The entries that are seen of a directory.
pub(crate) fn listed_in(body: &Option<Option<BodyRow>>) -> &[EntryRow]
    ensures { result.now ≡ listed_in body.now }
{
    match body {
        Some(Some(BodyRow::Entries(entries))) => entries.as_slice(),
        _ => &[],
    }
}

/// The server that is active on a node, where that is seen.
pub(crate) fn active_of(row: &Option<NodeRow>) -> Option<ServerName>
    ensures { result ≡ active_of row.now }
{
    match row {
        Some(row) => row.active,
        None => None,
    }
}

impl Sought {
    /// Whether what has this row is looked for.
    fn is_sought(self, row: &Row) -> bool
        ensures { result ≡ is_sought self row.now }
    {
        match self {
            Sought::Directory(node) => has_entry(listed_in(&row.body), node),
            Sought::Seat(server) => is_it(server, active_of(&row.attributes)),
        }
    }

    /// The same of what has a name.
    fn is_at(self, view: &View, name: Name) -> bool
        ensures { result ≡ is_sought self (row_at view.now.rows name) }
    {
        match view.rows.get(name) {
            Some(row) => self.is_sought(row),
            None => false,
        }
    }

    /// The first of what is looked for, in the order of the view.
    fn first(self, view: &View) -> Option<NodeName>
        ensures { result ≡ first_sought view.now self view.now.rows }
    {
        for i in 0..view.rows.len() {
            let Some(name) = view.rows.name_at(i) else {
                return None;
            };
            if self.is_at(view, name) {
                return Some(name);
            }
        }
        None
    }
}

/// The name under which a directory has a node; none where it has it not.
fn name_in(view: &View, directory: NodeName, node: NodeName) -> &[u8]
    ensures { result.now ≡ name_in view.now directory node }
{
    match view.rows.get(directory) {
        Some(row) => entry_name(listed_in(&row.body), node),
        None => b"",
    }
}

/// The root of a server, where the server is seen.
fn root_in(server: &Option<Option<ServerRow>>) -> Option<NodeName>
    ensures { result ≡ root_in server.now }
{
    match server {
        Some(Some(server)) => Some(server.root),
        _ => None,
    }
}

/// The same of a server by its name.
pub(crate) fn root_of(view: &View, server: ServerName) -> Option<NodeName>
    ensures { result ≡ root_of view.now server }
{
    match view.rows.get(server) {
        Some(row) => root_in(&row.server),
        None => None,
    }
}

/// Whether a node is the root of the tree.
fn is_tree_root(view: &View, node: NodeName) -> bool
    ensures { result ≡ is_tree_root view.now node }
{
    match view.sight.nodes().why(node) {
        Some(Why::Root) => true,
        _ => false,
    }
}

/// Whether a node is neither the root of the tree nor an entry.
fn is_nameless(view: &View, node: NodeName) -> bool
    ensures { result ≡ is_nameless view.now node }
{
    !is_tree_root(view, node) && Sought::Directory(node).first(view).is_none()
}

/// Whether a node is called by this entry of a directory.
pub(crate) fn is_title(view: &View, directory: NodeName, entry: &EntryRow) -> bool
    ensures { result ≡ is_title view.now directory entry.now }
{
    !is_tree_root(view, entry.node)
        && is_it(directory, Sought::Directory(entry.node).first(view))
        && name_in(view, directory, entry.node) == entry.name.as_slice()
}

/// Adds what a node is called in a directory, if there is one.
fn push_entry_title(
    text: &mut Vec<u8>,
    view: &View,
    node: NodeName,
    directory: Option<NodeName>,
) -> Result<(), AllocError>
    ensures { OnOk result (text.new.items ≡ text.old.items ++ entry_title view.now node directory) }
{
    match directory {
        Some(directory) => push_shown(text, name_in(view, directory, node)),
        None => push_text(text, b"(no name)"),
    }
}

/// Adds what a node is called by itself: the root of the tree by its path, any other by the first entry that has it.
#[tactic(auto, unfolding(crate::specs::Found::plain_title))]
pub(crate) fn push_plain_title(
    text: &mut Vec<u8>,
    view: &View,
    node: NodeName,
) -> Result<(), AllocError>
    ensures { OnOk result (text.new.items ≡ text.old.items ++ plain_title view.now node) }
{
    if is_tree_root(view, node) {
        return push_text(text, b"/");
    }
    push_entry_title(text, view, node, Sought::Directory(node).first(view))
}

/// Adds what the root of a server is called: by the node on which the server is active.
fn push_root_title(text: &mut Vec<u8>, view: &View, server: ServerName) -> Result<(), AllocError>
    ensures { OnOk result (text.new.items ≡ text.old.items ++ root_title view.now server) }
{
    let Some(seat) = Sought::Seat(server).first(view) else {
        return push_text(text, b"(no name)");
    };
    push_text(text, b"root of ")?;
    push_plain_title(text, view, seat)
}

/// Adds what a node of this server is called.
pub(crate) fn push_title(
    text: &mut Vec<u8>,
    view: &View,
    node: NodeName,
    home: Option<ServerName>,
) -> Result<(), AllocError>
    ensures { OnOk result (text.new.items ≡ text.old.items ++ title_text view.now node home) }
{
    let Some(server) = home else {
        return push_plain_title(text, view, node);
    };
    if is_nameless(view, node) && is_it(node, root_of(view, server)) {
        return push_root_title(text, view, server);
    }
    push_plain_title(text, view, node)
}
