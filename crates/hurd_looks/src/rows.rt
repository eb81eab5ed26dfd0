//! What is seen under names of two views.
ghost use Rattle.std.specs.Prelude.{◌≡◌, ◌↔◌, IsTrue};
ghost use Rattle.hurd_views.specs.Views.{no_row};
ghost use Rattle.hurd_looks.specs.Renamed.{HaveSameBeside, HaveSameProgram, with_parent};

use crate::meet::{Meet, meet_all};
use crate::pairs::Pairs;
use hurd_creds::{Attrs, Same};
use hurd_ports::Opened;
use hurd_views::{BodyRow, EntryRow, NodeRow, OpenRow, Row, ServerRow, same_attributes};
use std::alloc::AllocError;

/// Whether attributes are the same except for the parent. Takes no memory.
fn same_but_parent(attrs: &Attrs, other: &Attrs) -> bool
    ensures { IsTrue result ↔ (with_parent other.now.parent attrs.now ≡ other.now) }
{
    let parent = other.parent;
    same_attributes(&Attrs { parent, ..*attrs }, other)
}

impl Meet for Attrs {
    ghost use Rattle.hurd_looks.specs.Renamed.{attrs_renamed};

    ghost renamed = { attrs_renamed };

    fn meet(&self, other: &Attrs, pairs: &mut Pairs) -> Result<bool, AllocError> {
        if !same_but_parent(self, other) {
            return Ok(false);
        }
        self.parent.meet(&other.parent, pairs)
    }
}

impl Meet for NodeRow {
    ghost use Rattle.hurd_looks.specs.Renamed.{node_row_renamed};

    ghost renamed = { node_row_renamed };

    fn meet(&self, other: &NodeRow, pairs: &mut Pairs) -> Result<bool, AllocError> {
        if !self.words.is_same(&other.words) {
            return Ok(false);
        }
        if !self.attrs.meet(&other.attrs, pairs)? {
            return Ok(false);
        }
        if !self.home.meet(&other.home, pairs)? {
            return Ok(false);
        }
        self.active.meet(&other.active, pairs)
    }
}

impl Meet for EntryRow {
    ghost use Rattle.hurd_looks.specs.Renamed.{entry_row_renamed};

    ghost renamed = { entry_row_renamed };

    fn meet(&self, other: &EntryRow, pairs: &mut Pairs) -> Result<bool, AllocError> {
        if !self.name.is_same(&other.name) {
            return Ok(false);
        }
        self.node.meet(&other.node, pairs)
    }
}

impl Meet for BodyRow {
    ghost use Rattle.hurd_looks.specs.Renamed.{body_row_renamed};

    ghost renamed = { body_row_renamed };

    fn meet(&self, other: &BodyRow, pairs: &mut Pairs) -> Result<bool, AllocError> {
        match (self, other) {
            (BodyRow::Bytes(bytes), BodyRow::Bytes(others)) => Ok(bytes.is_same(others)),
            (BodyRow::Entries(entries), BodyRow::Entries(others)) => {
                meet_all(entries.as_slice(), others.as_slice(), pairs)
            }
            _ => Ok(false),
        }
    }
}

/// Whether two opens are the same except for the node. Takes no memory.
fn same_but_node(opened: &Opened, other: &Opened) -> bool
    ensures { IsTrue result ↔ ((opened.now.cursor ≡ other.now.cursor) × (opened.now.modes ≡ other.now.modes)) }
{
    opened.cursor == other.cursor && opened.modes == other.modes
}

impl Meet for Opened {
    ghost use Rattle.hurd_machine.specs.Renamed.{open_renamed};

    ghost renamed = { open_renamed };

    fn meet(&self, other: &Opened, pairs: &mut Pairs) -> Result<bool, AllocError> {
        if !same_but_node(self, other) {
            return Ok(false);
        }
        self.node.meet(&other.node, pairs)
    }
}

impl Meet for OpenRow {
    ghost use Rattle.hurd_looks.specs.Renamed.{open_row_renamed};

    ghost renamed = { open_row_renamed };

    fn meet(&self, other: &OpenRow, pairs: &mut Pairs) -> Result<bool, AllocError> {
        if self.holders != other.holders {
            return Ok(false);
        }
        self.opened.meet(&other.opened, pairs)
    }
}

/// Whether two servers as they are seen are the same beside the nodes that they name. Takes no memory.
fn same_program(server: &ServerRow, other: &ServerRow) -> bool
    ensures { IsTrue result ↔ HaveSameProgram server.now other.now }
{
    server.ids.is_same(&other.ids)
        && server.text.is_same(&other.text)
        && server.program.is_same(&other.program)
}

impl Meet for ServerRow {
    ghost use Rattle.hurd_looks.specs.Renamed.{server_row_renamed};

    ghost renamed = { server_row_renamed };

    fn meet(&self, other: &ServerRow, pairs: &mut Pairs) -> Result<bool, AllocError> {
        if !same_program(self, other) {
            return Ok(false);
        }
        if !self.root.meet(&other.root, pairs)? {
            return Ok(false);
        }
        meet_all(self.targets.as_slice(), other.targets.as_slice(), pairs)
    }
}

/// Whether what is seen under two names, and has no names in it, is the same. Takes no memory.
fn same_beside(row: &Row, other: &Row) -> bool
    ensures { IsTrue result ↔ HaveSameBeside row.now other.now }
{
    row.empty == other.empty
        && row.text.same(&other.text)
        && row.ends == other.ends
        && row.users == other.users
        && row.total == other.total
}

impl Meet for Row {
    ghost use Rattle.hurd_looks.specs.Renamed.{row_renamed};

    ghost renamed = { row_renamed };

    fn meet(&self, other: &Row, pairs: &mut Pairs) -> Result<bool, AllocError> {
        if !same_beside(self, other) {
            return Ok(false);
        }
        if !self.attributes.meet(&other.attributes, pairs)? {
            return Ok(false);
        }
        if !self.body.meet(&other.body, pairs)? {
            return Ok(false);
        }
        if !self.opened.meet(&other.opened, pairs)? {
            return Ok(false);
        }
        self.server.meet(&other.server, pairs)
    }
}

/// Nothing is seen.
pub(crate) fn nothing() -> Row
    ensures { result ≡ no_row }
{
    Row {
        attributes: None,
        empty: None,
        body: None,
        ends: None,
        opened: None,
        server: None,
        text: None,
        users: None,
        total: None,
    }
}
