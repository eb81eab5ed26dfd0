//! What is open, by name.
ghost use Rattle.std.specs.Prelude.{◌≡◌, ◌≤◌, ◌<◌, ◌+◌, ◌&&◌, None, OnOk};
ghost use Rattle.std.specs.FinMap as fin;
ghost use Rattle.indexmap.specs.IndexMap.{spare};
ghost use Rattle.hurd_creds.specs.Bits.{READ, WRITE};
ghost use Rattle.hurd_creds.specs.Counts.{counted};
ghost use Rattle.hurd_creds.specs.NameMaps.{edit};
ghost use Rattle.hurd_creds.specs.Names.{same_name};
ghost use Rattle.hurd_creds.specs.Weights.{one_if};
ghost use Rattle.hurd_creds.specs.declared.name.Name.{Name};
ghost use Rattle.hurd_ports.specs.Tables.{ends};
ghost use Rattle.hurd_ports.specs.Steps.{appending, at_cursor, new_open};

use crate::table::Opened;
use hurd_creds::counts::{Counts, add, count, subtract};
use hurd_creds::{NodeName, OpenFlags, OpenName};
use indexmap::IndexMap;
use std::alloc::{AllocError, Global};
use std::marker::Model;

/// What is open, each open under its name, and how many opens of each node are to read it, and to write it.
#[derive(Drop)]
pub(crate) struct Opens {
    table: IndexMap<OpenName, Opened>,
    readers: Counts,
    writers: Counts,
}

impl Model for Opens {
    ghost use Rattle.hurd_ports.specs.OpenTables.{OpenTable, coded_open_table, opens_of, least, AreEnds};
    ghost use Rattle.indexmap.specs.IndexMap.{spare};

    ghost Value = { OpenTable };

    ghost coded = { coded_open_table };

    ghost view = { λ o. record { all = opens_of o.table.entries; room = least (spare o.table) (least (spare o.readers) (spare o.writers)) } };

    ghost invariant = { λ o. AreEnds (opens_of o.table.entries) o.readers.entries o.writers.entries };
}

impl Opens {
    /// Nothing is open. Takes no memory.
    pub(crate) fn new(alloc: Global) -> Opens
        ensures { result.all ≡ fin.empty }
    {
        Opens {
            table: IndexMap::new(alloc),
            readers: Counts::new(alloc),
            writers: Counts::new(alloc),
        }
    }

    /// Takes room for one open more.
    pub(crate) fn reserve(&mut self) -> Result<(), AllocError>
        ensures kept { self.new.all ≡ self.old.all }
        ensures room { OnOk result (0 < self.new.room) }
    {
        self.table.reserve(1)?;
        self.readers.reserve(1)?;
        self.writers.reserve(1)
    }

    /// What the open of this name is.
    pub(crate) fn opened(&self, name: OpenName) -> Option<Opened>
        ensures { result ≡ fin.get self.now.all name }
    {
        self.table.get(&name).copied()
    }

    /// How many opens of the node are to read it.
    pub(crate) fn reader_count(&self, node: NodeName) -> u128
        ensures { result ≡ ends self.now.all node READ }
    {
        count(&self.readers, node)
    }

    /// How many opens of the node are to write it.
    pub(crate) fn writer_count(&self, node: NodeName) -> u128
        ensures { result ≡ ends self.now.all node WRITE }
    {
        count(&self.writers, node)
    }

    /// Adds an open of a node, from its beginning. There is room for one more, and none has its name.
    #[inline(always)]
    pub(crate) fn add(&mut self, name: OpenName, node: NodeName, modes: OpenFlags)
        requires room { 0 < self.old.room }
        requires fresh { fin.get self.old.all name ≡ None }
        ensures { self.new.all ≡ fin.insert self.old.all name (new_open node modes) }
    {
        // fewer than 2^64, so that a count of some of them fits
        let _ = self.table.len();
        let opened = Opened {
            node,
            cursor: 0,
            modes,
        };
        self.table.insert(name, opened).unwrap();
        add_if(&mut self.readers, node, modes.asks(OpenFlags::READ));
        add_if(&mut self.writers, node, modes.asks(OpenFlags::WRITE));
    }

    /// Takes out the open of this name.
    #[inline(always)]
    pub(crate) fn remove(&mut self, name: OpenName)
        ensures { self.new.all ≡ fin.remove self.old.all name }
    {
        if let Some(opened) = self.table.swap_remove(&name) {
            let modes = opened.modes;
            subtract_if(&mut self.readers, opened.node, modes.asks(OpenFlags::READ));
            subtract_if(&mut self.writers, opened.node, modes.asks(OpenFlags::WRITE));
        }
    }

    /// Moves the cursor of the open of this name, if it is there.
    pub(crate) fn move_cursor(&mut self, name: OpenName, cursor: u64)
        ensures moved { self.new.all ≡ edit name (at_cursor cursor) self.old.all }
        ensures room { self.new.room ≡ self.old.room }
    {
        if let Some(opened) = self.table.get_mut(&name) {
            opened.cursor = cursor;
        }
    }

    /// Lets the open of this name append, or not, if it is there.
    pub(crate) fn set_append(&mut self, name: OpenName, append: bool)
        ensures set { self.new.all ≡ edit name (appending append) self.old.all }
        ensures room { self.new.room ≡ self.old.room }
    {
        if let Some(opened) = self.table.get_mut(&name) {
            opened.modes = opened.modes.with_append(append);
        }
    }
}

/// Counts a node once more, if the open is for this. There is room for one name more.
fn add_if(counts: &mut Counts, node: NodeName, is_for: bool)
    requires room { 0 < spare counts.old }
    requires fits { counted counts.old.entries node < u128.MAX }
    ensures { (n : Name) → counted counts.new.entries n ≡ counted counts.old.entries n + one_if (same_name n node && is_for) }
{
    if is_for {
        add(counts, node, 1);
    }
}

/// Counts a node once less, if the open is for this.
fn subtract_if(counts: &mut Counts, node: NodeName, is_for: bool)
    requires { one_if is_for ≤ counted counts.old.entries node }
    ensures { (n : Name) → counted counts.new.entries n + one_if (same_name n node && is_for) ≡ counted counts.old.entries n }
{
    if is_for {
        subtract(counts, node, 1);
    }
}
