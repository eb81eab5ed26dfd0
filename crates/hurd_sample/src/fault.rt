//! Why a sample was not made.
use std::alloc::AllocError;

/// Why a sample was not made.
#[derive(Clone, Copy, Debug, PartialEq, Eq)]
pub enum SampleFault {
    /// So many have no room in 1,048,576 bytes.
    TooLong,
    Memory,
    /// What was drawn is no list of so many calls: no seed is known that comes to this.
    Unread,
}

impl From<AllocError> for SampleFault {
    ghost use Rattle.std.specs.Prelude.{◌≡◌};
    ghost use Rattle.hurd_sample.specs.declared.fault.SampleFault.TheVariants.{Memory};

    ghost from_gives = { λ _ e. e ≡ Memory };

    fn from(_error: AllocError) -> SampleFault {
        SampleFault::Memory
    }
}
