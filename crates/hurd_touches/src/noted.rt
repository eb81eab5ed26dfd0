//! Parts that calls touch.
ghost use Rattle.std.specs.Prelude.{◌≡◌, [], option_copied};
ghost use Rattle.hurd_sight.specs.Parts.{part_of};
ghost use Rattle.hurd_touches.specs.Touched.{Adds, is_all, listed};

use crate::part_list::PartList;
use hurd_sight::SeenPart;

/// Parts that calls touch: some, or it isn't known which. Takes no memory.
#[derive(Drop)]
pub enum Noted {
    /// Any part may be touched.
    All,
    /// No others than these.
    These(PartList),
}

impl Noted {
    /// No part.
    pub fn none() -> Noted
        ensures { result ≡ Noted.These [] }
    {
        Noted::These(PartList::none())
    }

    /// Whether it may be any part.
    pub fn is_all(&self) -> bool
        ensures { result ≡ is_all self.now }
    {
        matches!(self, Noted::All)
    }

    /// The parts, if it is known which.
    pub fn parts(&self) -> Option<&[SeenPart]>
        ensures { option_copied result ≡ listed self.now }
    {
        match self {
            Noted::All => None,
            Noted::These(parts) => Some(parts.as_slice()),
        }
    }

    /// One part more; any, where no more parts fit.
    pub(crate) fn add(&mut self, part: SeenPart)
        ensures { Adds (λ p. p ≡ part_of part) self.old self.new }
    {
        let Noted::These(parts) = self else {
            return;
        };
        if parts.has(part) || parts.push(part) {
            return;
        }
        *self = Noted::All;
    }

    /// Any part, from now on.
    pub(crate) fn add_all(&mut self)
        ensures { self.new ≡ Noted.All }
    {
        *self = Noted::All;
    }
}
