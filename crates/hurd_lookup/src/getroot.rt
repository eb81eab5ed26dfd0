//! Opening the root of a server that a port controls.
ghost use Rattle.std.specs.Prelude.{◌≡◌};
ghost use Rattle.hurd_machine.specs.Plan.{Planned};
ghost use Rattle.hurd_machine.specs.declared.call.Reply.TheVariants.{Found};
ghost use Rattle.hurd_core.specs.Core.{world_of};
ghost use Rattle.hurd_lookup.specs.Getroot.{entrance_asks, getroot_asks, plan_getroot, root_request};
ghost use Rattle.hurd_lookup.specs.Ends.{CanBe, Finds, entered, found_of};

use crate::authority::Authority;
use crate::cross::cross;
use crate::found::FoundAt;
use crate::request::Request;
use bitflags::Flags;
use hurd_core::Core;
use hurd_creds::{Errno, Kind, Mode, NodeName, OpenFlags, TaskId};
use hurd_machine::Lookup;
use hurd_trans_iface::Server;
use std::alloc::Global;

/// The root of a server, and from where and by what it is entered.
#[derive(Clone, Copy, Debug)]
pub(crate) struct Entrance<'a> {
    root: NodeName,
    start: NodeName,
    authority: Authority<'a>,
}

/// A port that controls a server, and a port on a directory, which is entered from with the task's own ids.
///
/// Errors, in order: `ESRCH`, `EBADF`, `EBADF`, `EDIED` the server is gone, `EDIED` the directory is, `ENOTDIR`.
#[tactic(auto, unfolding(hurd_machine::specs::Plan::on, hurd_machine::specs::Plan::given, hurd_machine::specs::Plan::first))]
fn entrance_asked<S: Server>(
    core: &Core<S>,
    task: TaskId,
    control: u64,
    dir: u64,
) -> Result<Entrance, Errno>
    ensures { entered result ≡ entrance_asks (world_of S.meaning core.entry.now) task.0 control dir }
{
    let server = core.control(task, control)?;
    let right = core.io_right(task, dir)?;
    let Some(root) = core.root_of(server) else {
        return Err(Errno::EDIED);
    };
    let Some(attrs) = core.attrs(right.node) else {
        return Err(Errno::EDIED);
    };
    let Kind::Dir = attrs.kind else {
        return Err(Errno::ENOTDIR);
    };
    let ids = core.ids(task)?;
    Ok(Entrance {
        root,
        start: right.node,
        authority: Authority {
            ids,
            ways: &right.parents,
        },
    })
}

impl Request {
    /// What is asked for by flags, without a path.
    fn of_root(flags: OpenFlags) -> Request
        ensures { result ≡ root_request flags }
    {
        Request {
            flags,
            mode: Mode::from_bits_retain(0),
            wants_dir: flags.asks(OpenFlags::DIRECTORY),
            slash: false,
        }
    }
}

/// Crosses the root of a server that a port controls. Takes no memory.
///
/// Errors, in order: those of `entrance_asked`, those of `cross`.
#[tactic(auto, unfolding(hurd_machine::specs::Plan::first))]
fn root_asked<'a, S: Server>(
    core: &'a Core<S>,
    task: TaskId,
    control: u64,
    dir: u64,
    request: Request,
) -> Result<FoundAt<'a, 'static>, Errno>
    ensures { let w = world_of S.meaning core.entry.now in
        Finds (found_of w) (CanBe w) (getroot_asks w task.0 control dir request) result }
{
    let Entrance {
        root,
        start,
        authority,
    } = entrance_asked(core, task, control, dir)?;
    let outcome = cross(core, authority, request, start, root, &[])?;
    Ok(FoundAt { authority, outcome })
}

/// Opens the root of a server that a port controls, as where the server is active on the last node of a path in a directory that a
/// port names; with the task's own ids (GNU Hurd Reference Manual, Translators; `fsys.defs`).
///
/// Errors, in order: `ESRCH` no such task, `EBADF` no such port, or one to use a node, `EBADF` no such port `dir`, or one that controls
/// a server, `EDIED` the server is gone, `EDIED` no such node, `ENOTDIR` no directory; `EDIED` the root is gone, `ENAMETOOLONG`, `ELOOP`
/// the port `dir` came in by 64 ways; `EDIED`, `ENOTDIR` a directory is asked for, `EISDIR` to write a directory, `EROFS` to write a node
/// of a server that only gives its text, `EACCES`. Last `EOVERFLOW`, unless it makes no port, and `ENOMEM`. A refused call changes
/// nothing.
#[tactic(auto, unfolding(hurd_machine::specs::Plan::answered, hurd_machine::specs::Plan::first))]
pub fn fsys_getroot<S: Server>(
    core: &mut Core<S>,
    alloc: Global,
    task: TaskId,
    control: u64,
    dir: u64,
    flags: OpenFlags,
) -> Result<Lookup, Errno>
    ensures { let w = world_of S.meaning core.old in
        Planned w (plan_getroot w task.0 control dir flags) Found result (world_of S.meaning core.new) }
{
    let request = Request::of_root(flags);
    let found = root_asked(core, task, control, dir, request)?;
    let ready = found.ready(core, alloc, task)?;
    ready.done(core, alloc, task, flags)
}
