//! A few parts.
ghost use Rattle.std.specs.Prelude.{◌≡◌, [], ◌∷◌, ◌++◌, IsTrue};
ghost use Rattle.hurd_machine.specs.World.{IsAmong};

use hurd_creds::TaskId;
use hurd_sight::SeenPart;
use std::marker::Model;

/// So many parts fit into a list.
const MOST: usize = 32;

/// Parts, which lie in the value itself: no more than fit.
#[derive(Drop)]
pub struct PartList {
    cells: [SeenPart; MOST],
    len: usize,
}

impl Model for PartList {
    ghost use Rattle.std.specs.Prelude.{◌≡◌, ◌≤◌, List, length, take};
    ghost use Rattle.hurd_sight.specs.declared.parts.SeenPart.TheVariants.{the_data as SeenPart};

    ghost Value = { List SeenPart };

    ghost view = { λ l. take l.len l.cells };

    ghost invariant = { λ l. l.len ≤ 32 };
}

impl PartList {
    /// No parts.
    pub(crate) fn none() -> PartList
        ensures { result ≡ [] }
    {
        PartList {
            cells: [SeenPart::Task(TaskId(0)); MOST],
            len: 0,
        }
    }

    /// The parts.
    pub(crate) fn as_slice(&self) -> &[SeenPart]
        ensures { result.now ≡ self.now }
    {
        &self.cells[..self.len]
    }

    /// Whether a part is one of them.
    pub(crate) fn has(&self, part: SeenPart) -> bool
        ensures { IsTrue result → IsAmong part self.now }
    {
        self.as_slice().contains(&part)
    }

    /// Adds a part, where one more fits: whether it does.
    pub(crate) fn push(&mut self, part: SeenPart) -> bool
        ensures { IsTrue result → self.new ≡ self.old ++ part ∷ [] }
    {
        let len = self.len;
        if len >= MOST {
            return false;
        }
        self.cells[len] = part;
        self.len = len + 1;
        true
    }
}
