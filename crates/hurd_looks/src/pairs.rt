//! Names of two views that stand in the same places, in pairs.
ghost use Rattle.std.specs.Prelude.{◌≡◌, ◌↔◌, ◌∷◌, ◌++◌, [], true, false, Some, None, IfOk, OnOk, IsTrue, map, slice_get};
ghost use Rattle.std.specs.Map.{lookup};
ghost use Rattle.hurd_creds.specs.declared.name.Name.{Name};
ghost use Rattle.hurd_creds.specs.Names.{same_name};
ghost use Rattle.hurd_nodes.specs.Shown.{boot_name};
ghost use Rattle.hurd_sight.specs.Parts.{is_in};
ghost use Rattle.hurd_sight.specs.Reach.{among};
ghost use Rattle.hurd_looks.specs.Pairings.{IsOneToOne, KeepOwn, PairUp};

use hurd_creds::{Name, TaskId};
use hurd_nodes::BOOT_NAME;
use indexmap::{IndexMap, IndexSet};
use std::alloc::{AllocError, Global};
use std::marker::Model;

/// Each name with what it is called in the other view: no name of either is in two pairs, and what has both was made by one task.
#[derive(Drop)]
pub(crate) struct Pairs {
    pairs: IndexMap<Name, Name>,
    taken: IndexSet<Name>,
}

impl Model for Pairs {
    ghost use Rattle.std.specs.Prelude.{◌≡◌, List, map};
    ghost use Rattle.hurd_creds.specs.declared.name.Name.{Name};
    ghost use Rattle.hurd_looks.specs.Pairings.{IsOneToOne};

    ghost Value = { List (Name × Name) };

    ghost view = { λ p. p.pairs.entries };

    ghost invariant = { λ p. (p.taken.keys ≡ map (λ (e : Name × Name). e.1) p.pairs.entries) × IsOneToOne p.pairs.entries };
}

impl Pairs {
    /// The boot root alone, which keeps its name. Fails only if memory runs out.
    pub(crate) fn new(alloc: Global) -> Result<Pairs, AllocError>
        ensures { IfOk result (λ pairs. pairs ≡ (boot_name, boot_name) ∷ []) }
    {
        let mut pairs = IndexMap::new(alloc);
        let mut taken = IndexSet::new(alloc);
        pairs.reserve(1)?;
        taken.reserve(1)?;
        pairs.insert(BOOT_NAME, BOOT_NAME).unwrap();
        taken.insert(BOOT_NAME).unwrap();
        Ok(Pairs { pairs, taken })
    }

    /// One pair more. Fails only if memory runs out.
    fn add(&mut self, name: Name, other: Name) -> Result<(), AllocError>
        requires new { lookup (same_name name) self.now ≡ None }
        requires free { is_in other (map (λ (e : Name × Name). e.1) self.now) ≡ false }
        requires maker { name.task ≡ other.task }
        ensures { OnOk result (self.new ≡ self.old ++ (name, other) ∷ []) }
    {
        self.pairs.reserve(1)?;
        self.taken.reserve(1)?;
        self.pairs.insert(name, other).unwrap();
        self.taken.insert(other).unwrap();
        Ok(())
    }

    /// Pairs two names that stand in the same place; whether they can be. Fails only if memory runs out.
    pub(crate) fn pair(&mut self, name: Name, other: Name) -> Result<bool, AllocError>
        ensures { IfOk result (λ met. PairUp (λ f n. f n) name other self.old met self.new) }
    {
        if name.task != other.task {
            return Ok(false);
        }
        if let Some(paired) = self.pairs.get(&name) {
            return Ok(*paired == other);
        }
        if self.taken.contains(&other) {
            return Ok(false);
        }
        self.add(name, other)?;
        Ok(true)
    }

    /// Whether what some tasks made has the same name in both views. Takes no memory.
    pub(crate) fn keep_own(&self, tasks: &[TaskId]) -> bool
        ensures keep { IsTrue result ↔ KeepOwn (among tasks.now) self.now }
        ensures one { IsOneToOne self.now }
    {
        for i in 0..self.pairs.len() {
            if !self.keeps_own_at(tasks, i) {
                return false;
            }
        }
        true
    }

    /// Whether that holds of the pair at an index, if there are so many.
    fn keeps_own_at(&self, tasks: &[TaskId], index: usize) -> bool
        ensures { IsTrue result ↔ ((p : Name × Name) → slice_get self.now index ≡ Some p → among tasks.now p.0.task.0 ≡ true → p.0 ≡ p.1) }
    {
        match self.pairs.get_index(index) {
            Some((name, other)) => *name == *other || !is_among(tasks, name.task),
            None => true,
        }
    }
}

/// Whether a task is one of these.
fn is_among(tasks: &[TaskId], task: TaskId) -> bool
    ensures { result ≡ among tasks.now task.0 }
{
    for one in tasks {
        if one.0 == task.0 {
            return true;
        }
    }
    false
}
