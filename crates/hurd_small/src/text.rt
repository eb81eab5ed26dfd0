//! Reading of a text.
ghost use Rattle.std.specs.Prelude.{◌≡◌, [], take, drop, Ok};
ghost use Rattle.hurd_creds.specs.Memory.{Meets};

use hurd_creds::{Bytes, Errno};
use std::alloc::Global;

/// A copy of at most so many bytes of a text from a place on; where there are none, no memory is taken.
///
/// Errors: `ENOMEM`.
pub(crate) fn read(alloc: Global, text: &[u8], at: u64, amount: u64) -> Result<Bytes, Errno>
    ensures given { Meets (Ok (take amount (drop at text.now))) result }
    ensures nothing { take amount (drop at text.now) ≡ [] → result ≡ Ok [] }
{
    Ok(Bytes::part(alloc, text, at, amount)?)
}
