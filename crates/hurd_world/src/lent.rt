//! The rows of calls that take nothing over: what such a call says is lent.
ghost use Rattle.std.specs.Prelude.{◌≡◌, false};
ghost use Rattle.hurd_core.specs.Core.{world_of};
ghost use Rattle.hurd_laws.specs.Called.{Called};
ghost use Rattle.hurd_machine.specs.Calls.{call_by, reply_by};
ghost use Rattle.hurd_machine.specs.declared.call.Call.{Call};
ghost use Rattle.hurd_world.specs.Held.{ComesBack, takes_ids};

use crate::replies;
use hurd_core::Core;
use hurd_creds::TaskId;
use hurd_dirs::{file, link, make, remove, rename};
use hurd_files::{access, files};
use hurd_fsys::{fsys, setting, starting};
use hurd_io::{io, opens, sharing};
use hurd_lookup::{getroot, lookup};
use hurd_machine::{PlainCall, Reply};
use hurd_rights::rights;
use hurd_trans_iface::Server;
use std::alloc::Global;

/// Hands one call of a task to its row: one that brings no server, and whose ids nobody takes over.
pub(crate) fn lent<S: Server>(
    core: &mut Core<S>,
    alloc: Global,
    task: TaskId,
    call: &PlainCall,
) -> Reply<S>
    requires { takes_ids call.now ≡ false }
    ensures { Called (world_of S.meaning core.old) task.0 (call_by S.meaning (Call.Plain call.now)) (reply_by S.meaning result) (world_of S.meaning core.new)
        × ComesBack (Call.Plain call.now) result }
{
    match call {
        PlainCall::PortDeallocate { port } => replies::done(rights::port_deallocate(
            core, task, *port,
        )),
        PlainCall::PortSend { port, to } => replies::done(rights::port_send(
            core, alloc, task, *port, *to,
        )),
        PlainCall::PortReceive => replies::port(rights::port_receive(core, task)),
        PlainCall::DirLookup {
            dir,
            path,
            flags,
            mode,
        } => replies::found(lookup::dir_lookup(
            core,
            alloc,
            task,
            *dir,
            path.as_slice(),
            *flags,
            *mode,
        )),
        PlainCall::IoRead {
            port,
            amount,
            offset,
        } => replies::data(io::io_read(core, alloc, task, *port, *amount, *offset)),
        PlainCall::IoWrite {
            port,
            bytes,
            offset,
        } => replies::count(io::io_write(core, task, *port, bytes.as_slice(), *offset)),
        PlainCall::IoSeek {
            port,
            offset,
            whence,
        } => replies::count(opens::io_seek(core, task, *port, *offset, *whence)),
        PlainCall::IoStat { port } => replies::stat(io::io_stat(core, task, *port)),
        PlainCall::IoReadable { port } => replies::count(opens::io_readable(core, task, *port)),
        PlainCall::IoGetOpenmodes { port } => replies::modes(opens::io_get_openmodes(
            core, task, *port,
        )),
        PlainCall::IoSetAllOpenmodes { port, flags } => {
            replies::done(opens::io_set_all_openmodes(core, task, *port, *flags))
        }
        PlainCall::IoDuplicate { port } => replies::port(sharing::io_duplicate(
            core, alloc, task, *port,
        )),
        PlainCall::IoReauthenticate { port } => {
            replies::port(sharing::io_reauthenticate(core, alloc, task, *port))
        }
        PlainCall::IoIdentity { port, other } => replies::same(sharing::io_identity(
            core, task, *port, *other,
        )),
        PlainCall::FileSetSize { port, size } => replies::done(files::file_set_size(
            core, task, *port, *size,
        )),
        PlainCall::FileChmod { port, mode } => replies::done(access::file_chmod(
            core, task, *port, *mode,
        )),
        PlainCall::FileChown { port, owner, group } => {
            replies::done(access::file_chown(core, task, *port, *owner, *group))
        }
        PlainCall::FileCheckAccess { port } => replies::modes(access::file_check_access(
            core, task, *port,
        )),
        PlainCall::FileGetTranslator { port } => replies::words(setting::file_get_translator(
            core, alloc, task, *port,
        )),
        PlainCall::FileGetTranslatorCntl { port } => {
            replies::port(fsys::file_get_translator_cntl(core, task, *port))
        }
        PlainCall::FileGetcontrol { port } => replies::port(fsys::file_getcontrol(
            core, task, *port,
        )),
        PlainCall::StartFailed => replies::done(starting::start_failed(core, task)),
        PlainCall::FsysGetroot {
            control,
            dir,
            flags,
        } => replies::found(getroot::fsys_getroot(core, alloc, task, *control, *dir, *flags)),
        PlainCall::FsysGoaway { control, flags } => replies::done(fsys::fsys_goaway(
            core, task, *control, *flags,
        )),
        PlainCall::FsysGetOptions { control } => replies::words(fsys::fsys_get_options(
            core, alloc, task, *control,
        )),
        PlainCall::FsysSetOptions { control, words } => replies::done(fsys::fsys_set_options(
            core, alloc, task, *control, words,
        )),
        PlainCall::DirReaddir { port } => replies::names(files::dir_readdir(
            core, alloc, task, *port,
        )),
        PlainCall::DirMkdir { dir, name, mode } => {
            replies::done(make::dir_mkdir(core, alloc, task, *dir, name.as_slice(), *mode))
        }
        PlainCall::DirMkfile { dir, flags, mode } => {
            replies::port(file::dir_mkfile(core, alloc, task, *dir, *flags, *mode))
        }
        PlainCall::DirRmdir { dir, name } => {
            replies::done(remove::dir_rmdir(core, task, *dir, name.as_slice()))
        }
        PlainCall::DirUnlink { dir, name } => {
            replies::done(remove::dir_unlink(core, task, *dir, name.as_slice()))
        }
        PlainCall::DirLink { dir, name, file } => {
            replies::done(link::dir_link(core, alloc, task, *dir, name.as_slice(), *file))
        }
        PlainCall::DirRename { dir, name, to, new } => {
            let (name, new) = (name.as_slice(), new.as_slice());
            replies::done(rename::dir_rename(core, alloc, task, *dir, name, *to, new))
        }
        PlainCall::AuthMakeauth { .. } | PlainCall::IoRestrictAuth { .. } => unreachable!(),
    }
}
