//! A union of directories.
ghost use Rattle.std.specs.Prelude.{◌≡◌, Some, None, IfOk, IfErr, MatchOption};
ghost use Rattle.hurd_trans_iface.specs.Kinds.Union.{text_of};
ghost use Rattle.hurd_trans_iface.specs.Meaning.{begin, begin_as, new_server};
ghost use Rattle.hurd_trans_iface.specs.declared.begun.ServerKind.TheVariants.{Union as UnionKind};
ghost use Rattle.hurd_trans_iface.specs.Sayings.{Fits};
ghost use Rattle.hurd_union.specs.Union.{union_meaning};

use crate::branches::{Branches, copies};
use crate::coded::coded;
use hurd_creds::{Bytes, Errno};
use hurd_small::{Lone, Still};
use hurd_trans_iface::{ServerKind, Words, begun_by};
use std::alloc::{AllocError, Global};

/// A directory that shows what several others have (the Hurd's `/hurd/unionfs`).
pub type Union = Lone<Still<Branches>>;

/// The server that these words make: `/hurd/union` and 1 to 16 paths from the root of the tree, each of at most 1,024 bytes. It has no root until one is named.
///
/// Errors, in order: `EINVAL` other words; `ENOMEM`.
pub fn new_union(alloc: Global, words: &Words) -> Result<Union, Errno>
    ensures ok { IfOk result (λ s. begin_as UnionKind words.now ≡ Some (union_meaning s)) }
    ensures begins { IfOk result (λ s. begin words.now ≡ Some (union_meaning s)) }
    ensures rootless { IfOk result (λ s. (union_meaning s).root ≡ None) }
    ensures err { IfErr result
        (λ e. MatchOption (begin_as UnionKind words.now) (e ≡ Errno.EINVAL) (λ _. e ≡ Errno.ENOMEM)) }
{
    words.known();
    let Some(begun) = begun_by(words.as_slice()) else {
        return Err(Errno::EINVAL);
    };
    match begun.kind {
        ServerKind::Union => Ok(union_of(alloc, begun.paths)?),
        _ => Err(Errno::EINVAL),
    }
}

/// The union of the directories of these paths. It has no root until one is named.
pub fn union_of(alloc: Global, paths: &[Bytes]) -> Result<Union, AllocError>
    requires { Fits UnionKind (text_of paths.now) }
    ensures { IfOk result (λ s. union_meaning s ≡ new_server UnionKind (text_of paths.now)) }
{
    let text = coded(alloc, paths)?;
    Ok(Lone::unnamed(Branches {
        paths: copies(alloc, paths)?,
        text,
    }))
}
