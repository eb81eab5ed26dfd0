//! The names in a directory, and in those that it shows as one.
ghost use Rattle.std.specs.Prelude.{◌≡◌, IfOk};
ghost use Rattle.hurd_trans_iface.specs.Answers.{names_of};
ghost use Rattle.hurd_machine.specs.World.{body_at, header_at};
ghost use Rattle.hurd_core.specs.Core.{world_of};
ghost use Rattle.hurd_files.specs.Listing.{all_names, names_by, names_or};

use hurd_core::Core;
use hurd_creds::{Errno, Ids, NodeName, Want};
use hurd_trans_iface::{Names, Server};
use hurd_union::merge::Merged;
use std::alloc::{AllocError, Global};

/// The names in a directory: none where there is none.
fn names_told<S: Server>(core: &Core<S>, alloc: Global, dir: NodeName) -> Result<Names, AllocError>
    ensures { IfOk result (λ names. names ≡ names_or (names_of (body_at (world_of S.meaning core.now) dir))) }
{
    match core.names(alloc, dir) {
        Ok(names) => Ok(names),
        Err(Errno::ENOMEM) => Err(AllocError),
        Err(_) => Ok(Names::new(alloc)),
    }
}

/// The names in a branch: none where it is gone or no directory, or these ids may not read it.
fn branch_names<S: Server>(
    core: &Core<S>,
    alloc: Global,
    ids: &Ids,
    branch: NodeName,
) -> Result<Names, AllocError>
    ensures { let w = world_of S.meaning core.now in
        IfOk result (λ names. names ≡ names_by w ids.now branch (header_at w branch)) }
{
    let Some(attrs) = core.attrs(branch) else {
        return Ok(Names::new(alloc));
    };
    if !ids.may(&attrs, Want::Read) {
        return Ok(Names::new(alloc));
    }
    names_told(core, alloc, branch)
}

/// After these names those in some directories, in order, each once.
pub(crate) fn all_names<S: Server>(
    core: &Core<S>,
    alloc: Global,
    ids: &Ids,
    branches: &[NodeName],
    own: Names,
) -> Result<Names, AllocError>
    ensures { IfOk result (λ all. all ≡ all_names (world_of S.meaning core.now) ids.now branches.now own) }
{
    if branches.is_empty() {
        return Ok(own);
    }
    let mut all = Merged::new(alloc, own)?;
    for branch in branches {
        let more = branch_names(core, alloc, ids, *branch)?;
        all = all.with_names(alloc, more)?;
    }
    Ok(all.into_names())
}
