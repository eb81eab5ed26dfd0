//! The row of each call.
ghost use Rattle.hurd_core.specs.Core.{world_of};
ghost use Rattle.hurd_laws.specs.Called.{Called};
ghost use Rattle.hurd_machine.specs.Calls.{BringsBegun, call_by, reply_by};
ghost use Rattle.hurd_world.specs.Held.{ComesBack};

use crate::lent::lent;
use crate::replies;
use hurd_core::Core;
use hurd_creds::TaskId;
use hurd_fsys::{setting, starting};
use hurd_io::sharing;
use hurd_machine::{Call, PlainCall, Reply};
use hurd_rights::rights;
use hurd_trans_iface::Server;
use std::alloc::Global;

/// Hands one call of a task to its row.
pub(crate) fn dispatch<S: Server>(
    core: &mut Core<S>,
    alloc: Global,
    task: TaskId,
    call: Call<S>,
) -> Reply<S>
    requires { BringsBegun (call_by S.meaning call) }
    ensures { Called (world_of S.meaning core.old) task.0 (call_by S.meaning call) (reply_by S.meaning result) (world_of S.meaning core.new) × ComesBack call result }
{
    match call {
        Call::Plain(PlainCall::AuthMakeauth { ids }) => replies::done(rights::auth_makeauth(
            core, task, ids,
        )),
        Call::Plain(PlainCall::IoRestrictAuth { port, ids }) => {
            replies::port(sharing::io_restrict_auth(core, alloc, task, port, ids))
        }
        Call::Plain(call) => lent(core, alloc, task, &call),
        Call::FileSetTranslator {
            port,
            setting,
            words,
            server,
        } => replies::set(setting::file_set_translator(
            core, alloc, task, port, setting, words, server,
        )),
        Call::FsysStartup { server } => replies::started(starting::fsys_startup(
            core, alloc, task, server,
        )),
    }
}
