//! Where two texts differ for some tasks, and why two texts are not compared.
ghost use Rattle.std.specs.Prelude.{◌≡◌};

use hurd_creds::Bytes;
use hurd_terminal::Fault;
use std::alloc::AllocError;

/// A difference: how many parts were told before it in each text, and what is said of it.
#[derive(Debug, Drop)]
pub struct Difference {
    pub one: usize,
    pub two: usize,
    pub said: Bytes,
}

/// What came of comparing two texts.
#[derive(Debug, Drop)]
pub struct Compared {
    /// Where something different is seen first.
    pub seen: Option<Difference>,
    /// Where a different reply comes first.
    pub told: Option<Difference>,
}

/// Whether some users get the same replies in two scripts.
#[derive(Clone, Copy, Debug, PartialEq, Eq)]
pub enum Verdict {
    Same,
    Different,
}

/// Why two scripts are no pair for some users.
#[derive(Clone, Copy, Debug, PartialEq, Eq)]
pub enum Mismatch {
    /// Their users are others.
    Users,
    /// Those give other commands: how many commands stand before the first that is another, or in all, where no more of theirs come.
    Commands { one: usize, two: usize },
}

/// Why two scripts are not compared to their end. ENOMEM, and that the output can't be written, is told as the first's.
#[derive(Clone, Copy, Debug, PartialEq, Eq)]
pub enum PairFault {
    First(Fault),
    Second(Fault),
    NoPair(Mismatch),
}

impl From<AllocError> for PairFault {
    ghost use Rattle.hurd_pairs.specs.declared.difference.PairFault.TheVariants.{First};
    ghost use Rattle.hurd_terminal.specs.declared.fault.Fault.TheVariants.{Memory};

    ghost from_gives = { λ _ fault. fault ≡ First Memory };

    fn from(_error: AllocError) -> PairFault {
        PairFault::First(Fault::Memory)
    }
}
