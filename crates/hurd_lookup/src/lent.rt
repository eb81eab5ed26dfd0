//! With which ids the targets of a server are found.
ghost use Rattle.std.specs.Prelude.{◌≡◌, Ok};
ghost use Rattle.hurd_lookup.specs.Lent.{is_lent, lent};

use hurd_creds::{Errno, Ids};
use std::alloc::Global;

/// Whether these ids hold the uid of a node's owner, or uid 0.
fn is_lent(ids: &Ids, owner: u32) -> bool
    ensures { result ≡ is_lent ids.now owner }
{
    ids.holds_uid(owner) || ids.holds_uid(0)
}

/// With which ids a server's targets are found: those of the owner of its node, where they are lent to these; else none. Takes no memory.
pub fn lent(alloc: Global, ids: &Ids, owner: u32) -> Result<Ids, Errno>
    ensures { result ≡ Ok (lent ids.now owner) }
{
    if is_lent(ids, owner) {
        Ids::new(alloc, &[owner], &[])
    } else {
        Ids::new(alloc, &[], &[])
    }
}
