//! Lists of names as one.
ghost use Rattle.std.specs.Prelude.{◌≡◌, IfOk, OnOk};
ghost use Rattle.hurd_union.specs.Merge.{merge, with_name};
ghost use Rattle.hurd_union.specs.There.{Notes, Tells};

use hurd_creds::Bytes;
use hurd_trans_iface::Names;
use indexmap::IndexSet;
use std::alloc::{AllocError, Global};
use std::marker::Model;

/// The names that are there.
type There = IndexSet<Vec<u8>>;

/// One more name that is there.
fn note(alloc: Global, there: &mut There, name: &[u8]) -> Result<(), AllocError>
    ensures { OnOk result (Notes name.now there.old.keys there.new.keys) }
{
    there.insert(Vec::from_slice(alloc, name)?)?;
    Ok(())
}

/// The names of a list.
fn noted(alloc: Global, names: &Names) -> Result<There, AllocError>
    ensures { IfOk result (λ there. Tells there.keys names.now) }
{
    let mut there = IndexSet::new(alloc);
    for name in names.as_slice() {
        note(alloc, &mut there, name.as_slice())?;
    }
    Ok(there)
}

/// One more name after those that a set has, where it is not there yet.
fn add(alloc: Global, there: &mut There, all: &mut Names, name: Bytes) -> Result<(), AllocError>
    requires { Tells there.now.keys all.now }
    ensures tells { OnOk result (Tells there.new.keys all.new) }
    ensures adds { OnOk result (all.new ≡ with_name name all.old) }
{
    if there.contains(name.as_slice()) {
        return Ok(());
    }
    note(alloc, there, name.as_slice())?;
    all.push(name)
}

/// Names to which more are added, each where it is not there yet: of those that are the same the first stays, in order.
///
/// It keeps them in a set too, and so searches no list for each.
#[derive(Drop)]
pub struct Merged {
    names: Names,
    there: There,
}

impl Model for Merged {
    ghost use Rattle.std.specs.Prelude.{ℕ, List};
    ghost use Rattle.hurd_union.specs.There.{Tells};

    ghost Value = { List (List ℕ) };

    ghost view = { λ m. m.names };

    ghost invariant = { λ m. Tells m.there.keys m.names };
}

impl Merged {
    /// These names.
    pub fn new(alloc: Global, names: Names) -> Result<Merged, AllocError>
        ensures { IfOk result (λ merged. merged ≡ names) }
    {
        let there = noted(alloc, &names)?;
        Ok(Merged { names, there })
    }

    /// With more names after them.
    pub fn with_names(self, alloc: Global, more: Names) -> Result<Merged, AllocError>
        ensures { IfOk result (λ merged. merged ≡ merge self more) }
    {
        let Merged {
            mut names,
            mut there,
        } = self;
        for name in more.into_vec() {
            add(alloc, &mut there, &mut names, name)?;
        }
        Ok(Merged { names, there })
    }

    /// The names alone.
    pub fn into_names(self) -> Names
        ensures { result ≡ self }
    {
        let Merged { names, .. } = self;
        names
    }
}
