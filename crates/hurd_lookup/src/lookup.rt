//! One lookup.
ghost use Rattle.std.specs.Prelude.{◌≡◌};
ghost use Rattle.hurd_machine.specs.declared.call.Reply.TheVariants.{Found};
ghost use Rattle.hurd_core.specs.Core.{world_of};
ghost use Rattle.hurd_lookup.specs.Lacking.{PlannedOr};
ghost use Rattle.hurd_lookup.specs.Lookup.{found_asks};
ghost use Rattle.hurd_lookup.specs.Seeking.{FindsSooner, LookupLacks, plan_lookup};
ghost use Rattle.hurd_lookup.specs.Ends.{CanBe, Finds, found_of};

use crate::authority::Authority;
use crate::end::Outcome;
use crate::found::FoundAt;
use crate::here::Here;
use crate::nested::first_unstarted;
use crate::path;
use crate::request::Request;
use crate::walk::walk;
use hurd_core::Core;
use hurd_creds::{Errno, Mode, OpenFlags, TaskId};
use hurd_machine::Lookup;
use hurd_trans_iface::Server;
use std::alloc::Global;

/// Goes from the node of a port along a path to its end. Takes no memory.
///
/// Errors, in order: `ESRCH`, `EBADF`, `EDIED`, `ENAMETOOLONG`, those of `walk`.
#[tactic(auto, unfolding(hurd_machine::specs::Plan::on, hurd_machine::specs::Plan::given, hurd_machine::specs::Plan::first))]
#[inline(always)]
pub(crate) fn found_asked<'a, 'p, S: Server>(
    core: &'a Core<S>,
    task: TaskId,
    dir: u64,
    path: &'p [u8],
    request: Request,
) -> Result<FoundAt<'a, 'p>, Errno>
    ensures { let w = world_of S.meaning core.entry.now in
        Finds (found_of w) (CanBe w) (found_asks w task.0 dir path.entry.now request) result }
{
    let right = core.io_right(task, dir)?;
    let here = Here::at(core, right.node);
    if here.attrs.is_none() {
        return Err(Errno::EDIED);
    }
    if !path::is_short(path) {
        return Err(Errno::ENAMETOOLONG);
    }
    let authority = Authority {
        ids: &right.ids,
        ways: &right.parents,
    };
    let outcome = walk(core, authority, request, here, path)?;
    Ok(FoundAt { authority, outcome })
}

/// In place of a translator that waits, the one that is to be started first by the task, with its own ids.
///
/// Errors: `ESRCH` no such task, those of `first_unstarted`.
#[tactic(auto, unfolding(hurd_machine::specs::Plan::on, hurd_machine::specs::Plan::first))]
#[inline(always)]
fn sooner<'a, 'p, S: Server>(
    core: &Core<S>,
    alloc: Global,
    task: TaskId,
    found: FoundAt<'a, 'p>,
) -> Result<FoundAt<'a, 'p>, Errno>
    requires { CanBe (world_of S.meaning core.now) found }
    ensures { let w = world_of S.meaning core.now in FindsSooner w task.0 (found_of w found.entry) result }
{
    match found.outcome {
        Outcome::Opens(_, _) | Outcome::Makes(_) | Outcome::Retries(_) => Ok(found),
        Outcome::Starts(node) => {
            let ids = core.ids(task)?;
            let first = first_unstarted(core, alloc, ids, node)?;
            Ok(FoundAt {
                authority: found.authority,
                outcome: Outcome::Starts(first),
            })
        }
    }
}

/// Looks a path up from a directory that a port names, and opens what it comes to, or makes a file there; or tells which name is
/// left, and where that is looked up (GNU Hurd Reference Manual, Files and Translators; `fs.defs`).
///
/// The names are the parts between slashes, but empty ones; a path has at most 1,024 bytes, a name 255. A file that is
/// made belongs to the least uid, and to its directory's group; it is opened without a test of its mode.
///
/// A server that is active on a node is crossed, unless the node is the last and `NOTRANS` is set. At its root the last node is
/// opened, and more names are left for a retry at the root, with the port's ids. Where none is active, but a passive translator
/// waits, that is to be started first, or where one of its targets ends at another that waits, that one, and so on: it is what the task is to start from now on, in place of what it was to start before. At a
/// link, unless it is the last and `NOLINK` is set, the link's text is left, with the names that follow: for a retry at the link's
/// directory, without ids, or from the root of the tree. `..` at the root by which the port came into a server is left for a retry
/// at the directory from which it came, without ids.
///
/// Errors, in order: `ESRCH` no such task, `EBADF` no such port, or one that controls a server, `EDIED` no such node,
/// `ENAMETOOLONG`. Then at each name `EDIED`, `ENOTDIR` no directory, `EACCES` the ids may not search it, `EDIED` the directory
/// is gone to which `..` goes back, `ENOENT` no such entry, and it is not to be made, or `..` in a removed directory; of the last
/// one with a server to be crossed, or a translator to be started, `EEXIST` with `CREATE` and `EXCL`; at a crossing `EDIED`,
/// `ENAMETOOLONG` a link's text with the names that follow is longer than a path, `ELOOP` the port came in by 64 ways. Then of a
/// node that is there `EEXIST` with `CREATE` and `EXCL`, `EDIED`, `ENOTDIR` a directory is asked for, `EISDIR` to write a
/// directory, `EROFS` to write a node of a server that only gives its text, `EACCES`; of one to be made `EROFS` a server that
/// keeps no tree, `EACCES` the ids may not write the directory, or have no uids, `ENOENT` a removed directory; where a translator is to be started, `ELOOP` nine
/// others are needed for it, one for the other. Last `EOVERFLOW`, unless it makes no port, and `ENOMEM`, which may come in place of that `ELOOP`. A refused call changes nothing.
#[tactic(auto, unfolding(hurd_machine::specs::Plan::answered, hurd_machine::specs::Plan::first))]
pub fn dir_lookup<S: Server>(
    core: &mut Core<S>,
    alloc: Global,
    task: TaskId,
    dir: u64,
    path: &[u8],
    flags: OpenFlags,
    mode: Mode,
) -> Result<Lookup, Errno>
    ensures { let w = world_of S.meaning core.old in
        PlannedOr (LookupLacks w task.0 dir path.now flags mode) w (plan_lookup w task.0 dir path.now flags mode) Found result (world_of S.meaning core.new) }
{
    let request = Request::new(path, flags, mode);
    let found = found_asked(core, task, dir, path, request)?;
    let sought = sooner(core, alloc, task, found)?;
    let ready = sought.ready(core, alloc, task)?;
    ready.done(core, alloc, task, flags)
}
