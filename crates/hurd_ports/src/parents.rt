//! The ways back from a port.
ghost use Rattle.std.specs.Prelude.{◌≡◌, ◌≤◌, ◌<◌, ◌↔◌, [], ◌∷◌, length, drop, not, nat_lt, slice_get, IsTrue, IfOk};
ghost use Rattle.hurd_ports.specs.Limits.{most_parents};

use hurd_creds::{NodeName, Same, all_same};
use std::alloc::{AllocError, Global};
use std::marker::Model;

/// So many ways a port can have come in by.
pub(crate) const MOST_PARENTS: usize = 64;

/// A way in: at the root of a translator, and from which node it was entered.
#[derive(Clone, Copy, Debug, PartialEq, Eq)]
pub struct Parent {
    pub at: NodeName,
    pub parent: NodeName,
}

impl Same for Parent {
    fn same(&self, other: &Parent) -> bool {
        *self == *other
    }
}

/// The ways that a port came in by, the latest first: `..` goes back by them. At most 64.
#[derive(Debug, Drop)]
pub struct Parents {
    ways: Vec<Parent>,
}

impl Model for Parents {
    ghost use Rattle.std.specs.Prelude.{List};
    ghost use Rattle.hurd_ports.specs.declared.parents.Parent.{Parent};

    ghost Value = { List Parent };

    ghost view = { λ p. p.ways.items };

    ghost use Rattle.std.specs.Prelude.{◌≤◌, length};
    ghost use Rattle.hurd_ports.specs.Limits.{most_parents};

    ghost invariant = { λ p. length p.ways.items ≤ most_parents };
}

impl Parents {
    /// No way back: of a port of the boot server's tree. Takes no memory.
    pub fn none(alloc: Global) -> Parents
        ensures { result ≡ [] }
    {
        Parents {
            ways: Vec::new(alloc),
        }
    }

    /// The same ways once more.
    pub fn copied(&self, alloc: Global) -> Result<Parents, AllocError>
        ensures { IfOk result (λ p. p ≡ self.now) }
    {
        Ok(Parents {
            ways: Vec::from_slice(alloc, self.ways.as_slice())?,
        })
    }

    /// Whether these are the same ways. Takes no memory.
    pub(crate) fn is_same(&self, other: &Parents) -> bool
        ensures { IsTrue result ↔ (self.now ≡ other.now) }
    {
        all_same(self.ways.as_slice(), other.ways.as_slice())
    }

    /// Whether there are as many ways as a port can have.
    pub fn is_full(&self) -> bool
        ensures { result ≡ not (nat_lt (length self.now) most_parents) }
    {
        self.ways.len() >= MOST_PARENTS
    }

    /// The same ways after another, which is the latest.
    pub fn entered(&self, alloc: Global, way: Parent) -> Result<Parents, AllocError>
        requires { length self.now < most_parents }
        ensures { IfOk result (λ p. p ≡ way ∷ self.now) }
    {
        let mut ways = Vec::with_capacity(alloc, self.ways.len() + 1)?;
        ways.push(way)?;
        ways.extend_from_slice(self.ways.as_slice())?;
        Ok(Parents { ways })
    }

    /// The ways without the latest.
    pub fn left(&self, alloc: Global) -> Result<Parents, AllocError>
        ensures { IfOk result (λ p. p ≡ drop 1 self.now) }
    {
        let ways = match self.ways.as_slice() {
            [] => Vec::new(alloc),
            [_, others @ ..] => Vec::from_slice(alloc, others)?,
        };
        Ok(Parents { ways })
    }

    /// The latest way, if there is one.
    pub fn first(&self) -> Option<Parent>
        ensures { result ≡ slice_get self.now 0 }
    {
        self.ways.first().copied()
    }

    /// The ways, the latest first.
    pub fn as_slice(&self) -> &[Parent]
        ensures is { result.now ≡ self.now }
        ensures limit { length result.now ≤ most_parents }
    {
        self.ways.as_slice()
    }
}
