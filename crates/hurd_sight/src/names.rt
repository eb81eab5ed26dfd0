//! Sets of names.
ghost use Rattle.std.specs.Prelude.{◌≡◌, [], length, slice_get, OnOk};
ghost use Rattle.hurd_sight.specs.Parts.{is_in, named_more};

use hurd_creds::Name;
use indexmap::IndexSet;
use std::alloc::{AllocError, Global};
use std::marker::Model;

/// Names, each once.
#[derive(Drop)]
pub struct NameSet {
    names: IndexSet<Name>,
}

impl Model for NameSet {
    ghost use Rattle.std.specs.Prelude.{List};
    ghost use Rattle.hurd_creds.specs.declared.name.Name.{Name};

    ghost Value = { List Name };

    ghost view = { λ s. s.names.keys };
}

impl NameSet {
    /// No names.
    pub(crate) fn new(alloc: Global) -> NameSet
        ensures { result ≡ [] }
    {
        NameSet {
            names: IndexSet::new(alloc),
        }
    }

    /// Whether a name is one of them.
    pub fn has(&self, name: Name) -> bool
        ensures { result ≡ is_in name self.now }
    {
        self.names.contains(&name)
    }

    /// How many there are.
    pub fn len(&self) -> usize
        ensures { result ≡ length self.now }
    {
        self.names.len()
    }

    /// The name at an index, if there are so many.
    pub fn get(&self, index: usize) -> Option<Name>
        ensures { result ≡ slice_get self.now index }
    {
        self.names.get_index(index).copied()
    }

    /// One name more, unless it is there.
    pub(crate) fn add(&mut self, name: Name) -> Result<(), AllocError>
        ensures { OnOk result (self.new ≡ named_more name self.old) }
    {
        self.names.reserve(1)?;
        self.names.insert(name).unwrap();
        Ok(())
    }
}
