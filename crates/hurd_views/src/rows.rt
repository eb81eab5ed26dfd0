//! What is seen of things that have a name, as it can be kept and compared.
ghost use Rattle.std.specs.Prelude.{◌≡◌, ◌↔◌, IfOk, IsTrue};
ghost use Rattle.hurd_views.specs.Marks.{text_mark};
ghost use Rattle.hurd_views.specs.Views.{HaveSameAccess, HaveSameMarks, HaveSameNode, HaveSamePlace, HaveSameServer, no_row, row_tells};

use hurd_creds::{Attrs, Bytes, Ids, Name, NodeName, Same, ServerName, all_same};
use hurd_ports::{Ends, Opened};
use hurd_sight::SeenPart;
use hurd_trans_iface::Words;
use std::alloc::{AllocError, Global};
use std::marker::Model;

/// The program of a tree, whose text is its limit.
const TREE: &[u8] = b"/hurd/tmpfs";

/// A node beside what is in it.
#[derive(Debug, Drop)]
pub struct NodeRow {
    /// Its attributes, if it is there; `empty` is never set.
    pub attrs: Option<Attrs>,
    /// The words of its passive translator; none where it has none.
    pub words: Words,
    /// Its server, if it has one.
    pub home: Option<ServerName>,
    /// The server that is active on it, if one is.
    pub active: Option<ServerName>,
}

/// An entry of a directory.
#[derive(Debug, Drop)]
pub struct EntryRow {
    pub name: Bytes,
    pub node: NodeName,
}

/// The entries of a directory, in order of making.
#[derive(Debug, Drop)]
pub struct EntryRows {
    pub(crate) items: Vec<EntryRow>,
}

impl Model for EntryRows {
    ghost use Rattle.std.specs.Prelude.{List};
    ghost use Rattle.hurd_views.specs.declared.rows.EntryRow.{EntryRow};

    ghost Value = { List EntryRow };

    ghost view = { λ r. r.items.items };
}

/// What is in a node.
#[derive(Debug, Drop)]
pub enum BodyRow {
    Bytes(Bytes),
    Entries(EntryRows),
}

/// An open, and how many rights hold it.
#[derive(Clone, Copy, Debug, PartialEq, Eq)]
pub struct OpenRow {
    pub opened: Option<Opened>,
    pub holders: u128,
}

/// Names of nodes, in their order.
#[derive(Debug, Drop)]
pub struct NodeNames {
    items: Vec<NodeName>,
}

impl Model for NodeNames {
    ghost use Rattle.std.specs.Prelude.{List};
    ghost use Rattle.hurd_creds.specs.declared.name.Name.{Name};

    ghost Value = { List Name };

    ghost view = { λ n. n.items.items };
}

/// A server, as whoever knows it sees it.
#[derive(Debug, Drop)]
pub struct ServerRow {
    /// The name of its program.
    pub program: Bytes,
    /// Its text, if it is a link or a tree; else none.
    pub text: Bytes,
    pub root: NodeName,
    pub ids: Ids,
    /// The nodes that it aims at.
    pub targets: NodeNames,
}

/// The text of a server.
#[derive(Debug, Drop)]
pub struct TextRow {
    /// The program and its words, as they would be given to make such a server.
    pub options: Words,
    /// The text that these give it.
    pub text: Bytes,
}

/// All that is seen under a name; none of what is not seen. Within, none stands for what is not there.
#[derive(Debug, Drop)]
pub struct Row {
    pub attributes: Option<NodeRow>,
    /// Whether a directory has no entries.
    pub empty: Option<Option<bool>>,
    pub body: Option<Option<BodyRow>>,
    /// How many opens read a node, and how many write it, where its server is told.
    pub ends: Option<Option<Ends>>,
    pub opened: Option<OpenRow>,
    pub server: Option<Option<ServerRow>>,
    pub text: Option<Option<TextRow>>,
    /// How many rights there are on a server's nodes.
    pub users: Option<u128>,
    /// What the files of a server that entries name have in all.
    pub total: Option<u128>,
}

impl EntryRows {
    /// The entries.
    pub fn as_slice(&self) -> &[EntryRow]
        ensures { result.now ≡ self.now }
    {
        self.items.as_slice()
    }

    /// Whether these are the same entries in the same order. Takes no memory.
    fn is_same(&self, other: &EntryRows) -> bool
        ensures { IsTrue result ↔ (self.now ≡ other.now) }
    {
        all_same(self.as_slice(), other.as_slice())
    }
}

impl EntryRow {
    /// Whether these are the same. Takes no memory.
    fn is_same(&self, other: &EntryRow) -> bool
        ensures { IsTrue result ↔ (self.now ≡ other.now) }
    {
        self.node == other.node && self.name.is_same(&other.name)
    }
}

impl Same for EntryRow {
    fn same(&self, other: &EntryRow) -> bool {
        self.is_same(other)
    }
}

impl NodeNames {
    /// A copy of these names.
    pub(crate) fn copied(alloc: Global, names: &[NodeName]) -> Result<NodeNames, AllocError>
        ensures { IfOk result (λ copy. copy ≡ names.now) }
    {
        Ok(NodeNames {
            items: Vec::from_slice(alloc, names)?,
        })
    }

    /// The names.
    pub fn as_slice(&self) -> &[NodeName]
        ensures { result.now ≡ self.now }
    {
        self.items.as_slice()
    }

    /// Whether these are the same names in the same order. Takes no memory.
    fn is_same(&self, other: &NodeNames) -> bool
        ensures { IsTrue result ↔ (self.now ≡ other.now) }
    {
        self.as_slice() == other.as_slice()
    }
}

impl NodeRow {
    /// Whether these are the same. Takes no memory.
    fn is_same(&self, other: &NodeRow) -> bool
        ensures { IsTrue result ↔ (self.now ≡ other.now) }
    {
        same_attrs(&self.attrs, &other.attrs)
            && same_name(&self.home, &other.home)
            && same_name(&self.active, &other.active)
            && self.words.is_same(&other.words)
    }
}

/// Whether these are the same attributes, if they are there.
fn same_attrs(attrs: &Option<Attrs>, other: &Option<Attrs>) -> bool
    ensures { IsTrue result ↔ (attrs.now ≡ other.now) }
{
    match (attrs, other) {
        (Some(attrs), Some(other)) => same_attributes(attrs, other),
        (None, None) => true,
        _ => false,
    }
}

/// Whether these are the same attributes.
pub fn same_attributes(attrs: &Attrs, other: &Attrs) -> bool
    ensures { IsTrue result ↔ (attrs.now ≡ other.now) }
{
    same_access(attrs, other) && same_place(attrs, other) && same_marks(attrs, other)
}

/// Whether the same may do the same with nodes of these attributes.
fn same_access(attrs: &Attrs, other: &Attrs) -> bool
    ensures { IsTrue result ↔ HaveSameAccess attrs.now other.now }
{
    attrs.kind == other.kind
        && attrs.owner == other.owner
        && attrs.group == other.group
        && attrs.mode == other.mode
}

/// Whether these say the same of where a node hangs, and of its size.
fn same_place(attrs: &Attrs, other: &Attrs) -> bool
    ensures { IsTrue result ↔ HaveSamePlace attrs.now other.now }
{
    attrs.links == other.links
        && attrs.size == other.size
        && attrs.empty == other.empty
        && attrs.parent == other.parent
}

/// Whether these say the same of translators.
fn same_marks(attrs: &Attrs, other: &Attrs) -> bool
    ensures { IsTrue result ↔ HaveSameMarks attrs.now other.now }
{
    attrs.passive == other.passive && attrs.active == other.active
}

/// Whether these are the same name, if they are there.
fn same_name(name: &Option<Name>, other: &Option<Name>) -> bool
    ensures { IsTrue result ↔ (name.now ≡ other.now) }
{
    *name == *other
}

impl BodyRow {
    /// Whether these are the same. Takes no memory.
    fn is_same(&self, other: &BodyRow) -> bool
        ensures { IsTrue result ↔ (self.now ≡ other.now) }
    {
        match (self, other) {
            (BodyRow::Bytes(bytes), BodyRow::Bytes(others)) => bytes.is_same(others),
            (BodyRow::Entries(entries), BodyRow::Entries(others)) => entries.is_same(others),
            (BodyRow::Bytes(_), BodyRow::Entries(_)) => false,
            (BodyRow::Entries(_), BodyRow::Bytes(_)) => false,
        }
    }
}

impl ServerRow {
    /// What comes before its text where that is told after its program: `--size=` if it is a tree, and else nothing.
    pub fn text_mark(&self) -> &[u8]
        ensures { result.now ≡ text_mark self.now.program }
    {
        if self.program.as_slice() == TREE {
            b"--size="
        } else {
            b""
        }
    }

    /// Whether these are the same. Takes no memory.
    fn is_same(&self, other: &ServerRow) -> bool
        ensures { IsTrue result ↔ (self.now ≡ other.now) }
    {
        self.root == other.root
            && self.ids.is_same(&other.ids)
            && self.targets.is_same(&other.targets)
            && self.text.is_same(&other.text)
            && self.program.is_same(&other.program)
    }
}

impl TextRow {
    /// Whether these are the same. Takes no memory.
    fn is_same(&self, other: &TextRow) -> bool
        ensures { IsTrue result ↔ (self.now ≡ other.now) }
    {
        self.text.is_same(&other.text) && self.options.is_same(&other.options)
    }
}

impl Same for NodeRow {
    fn same(&self, other: &NodeRow) -> bool {
        self.is_same(other)
    }
}

impl Same for BodyRow {
    fn same(&self, other: &BodyRow) -> bool {
        self.is_same(other)
    }
}

impl Same for OpenRow {
    fn same(&self, other: &OpenRow) -> bool {
        *self == *other
    }
}

impl Same for ServerRow {
    fn same(&self, other: &ServerRow) -> bool {
        self.is_same(other)
    }
}

impl Same for TextRow {
    fn same(&self, other: &TextRow) -> bool {
        self.is_same(other)
    }
}

impl Row {
    /// Whether these are the same. Takes no memory.
    pub fn is_same(&self, other: &Row) -> bool
        ensures { IsTrue result ↔ (self.now ≡ other.now) }
    {
        self.has_same_node(other) && self.has_same_server(other)
    }

    /// Whether these say the same of a node or an open.
    fn has_same_node(&self, other: &Row) -> bool
        ensures { IsTrue result ↔ HaveSameNode self.now other.now }
    {
        self.attributes.same(&other.attributes)
            && self.empty == other.empty
            && self.body.same(&other.body)
            && self.ends == other.ends
            && self.opened == other.opened
    }

    /// Whether these say the same of a server.
    fn has_same_server(&self, other: &Row) -> bool
        ensures { IsTrue result ↔ HaveSameServer self.now other.now }
    {
        self.server.same(&other.server)
            && self.text.same(&other.text)
            && self.users == other.users
            && self.total == other.total
    }
}

impl Row {
    /// Whether nothing is seen. Takes no memory.
    pub(crate) fn is_none(&self) -> bool
        ensures { IsTrue result ↔ (self.now ≡ no_row) }
    {
        self.attributes.is_none()
            && self.empty.is_none()
            && self.body.is_none()
            && self.ends.is_none()
            && self.opened.is_none()
            && self.server.is_none()
            && self.text.is_none()
            && self.users.is_none()
            && self.total.is_none()
    }

    /// Whether there is a part of this kind. Takes no memory.
    pub(crate) fn tells(&self, part: SeenPart) -> bool
        ensures { result ≡ row_tells self.now part }
    {
        match part {
            SeenPart::Attributes(_) => self.attributes.is_some(),
            SeenPart::Empty(_) => self.empty.is_some(),
            SeenPart::Body(_) => self.body.is_some(),
            SeenPart::Ends(_) => self.ends.is_some(),
            SeenPart::Open(_) => self.opened.is_some(),
            SeenPart::Options(_) => self.server.is_some(),
            SeenPart::Text(_) => self.text.is_some(),
            SeenPart::Users(_) => self.users.is_some(),
            SeenPart::Total(_) => self.total.is_some(),
            SeenPart::Task(_) => false,
        }
    }
}
