//! Parts that calls touch.
ghost use Rattle.hurd_machine.specs.Calls.{call_by};
ghost use Rattle.hurd_machine.specs.declared.call.Call.TheVariants as Variants;
ghost use Rattle.hurd_laws.specs.Step.{touches};
ghost use Rattle.hurd_core.specs.Core.{world_of};
ghost use Rattle.hurd_touches.specs.Touched.{Adds, Notes};

use crate::noted::Noted;
use hurd_core::Core;
use hurd_creds::TaskId;
use hurd_lookup::touches::dir_lookup_touches;
use hurd_machine::{Call, PlainCall};
use hurd_sight::SeenPart;
use hurd_trans_iface::Server;

impl Noted {
    /// Notes a call of a task before it is made: the task, and all parts that the call touches, as the world stands. Takes no memory.
    pub fn note<S: Server>(&mut self, core: &Core<S>, task: TaskId, call: &Call<S>)
        ensures { Notes (world_of S.meaning core.now) task.0 (call_by S.meaning call.now) self.old self.new }
    {
        if self.is_all() {
            return;
        }
        self.add(SeenPart::Task(task));
        self.add_touched(core, task, call);
    }

    /// All parts that a call of a task touches, beside the task.
    fn add_touched<S: Server>(&mut self, core: &Core<S>, task: TaskId, call: &Call<S>)
        ensures { Adds (touches (world_of S.meaning core.now) task.0 (call_by S.meaning call.now)) self.old self.new }
    {
        match call {
            Call::Plain(call) => self.add_touched_plainly(core, task, call),
            Call::FsysStartup { .. } => self.add_started(core, task),
            Call::FileSetTranslator { .. } => self.add_all(),
        }
    }

    /// The same of a call that brings no server.
    fn add_touched_plainly<S: Server>(&mut self, core: &Core<S>, task: TaskId, call: &PlainCall)
        ensures { Adds (touches (world_of S.meaning core.now) task.0 (Variants.Plain call.now)) self.old self.new }
    {
        match call {
            PlainCall::PortReceive
            | PlainCall::AuthMakeauth { .. }
            | PlainCall::IoStat { .. }
            | PlainCall::IoReadable { .. }
            | PlainCall::IoGetOpenmodes { .. }
            | PlainCall::IoIdentity { .. }
            | PlainCall::FileCheckAccess { .. }
            | PlainCall::FileGetTranslator { .. }
            | PlainCall::FileGetTranslatorCntl { .. }
            | PlainCall::FileGetcontrol { .. }
            | PlainCall::StartFailed
            | PlainCall::FsysGetOptions { .. }
            | PlainCall::DirReaddir { .. } => {}
            PlainCall::PortDeallocate { port } => self.add_deallocated(core, task, *port),
            PlainCall::PortSend { port, to } => self.add_sent(core, task, *port, *to),
            PlainCall::DirLookup {
                dir,
                path,
                flags,
                mode,
            } => {
                let touching = dir_lookup_touches(core, task, *dir, path.as_slice(), *flags, *mode);
                self.add_looked_up(core, touching);
            }
            PlainCall::IoRead { port, .. } => self.add_read(core, task, *port),
            PlainCall::IoWrite { port, .. } => self.add_written(core, task, *port),
            PlainCall::IoSeek { port, .. } => self.add_open(core, task, *port),
            PlainCall::IoSetAllOpenmodes { port, .. } => self.add_open(core, task, *port),
            PlainCall::IoDuplicate { port } => self.add_shared(core, task, *port),
            PlainCall::IoReauthenticate { port } => self.add_shared(core, task, *port),
            PlainCall::IoRestrictAuth { port, .. } => self.add_shared(core, task, *port),
            PlainCall::FileSetSize { port, .. } => self.add_resized(core, task, *port),
            PlainCall::FileChmod { port, .. } => self.add_attributes(core, task, *port),
            PlainCall::FileChown { port, .. } => self.add_attributes(core, task, *port),
            PlainCall::FsysGetroot { .. }
            | PlainCall::FsysGoaway { .. }
            | PlainCall::FsysSetOptions { .. } => self.add_all(),
            PlainCall::DirMkdir { dir, .. } => self.add_entries(core, task, *dir),
            PlainCall::DirMkfile { dir, .. } => self.add_made(core, task, *dir),
            PlainCall::DirRmdir { dir, name } => self.add_taken(core, task, *dir, name),
            PlainCall::DirUnlink { dir, name } => self.add_taken(core, task, *dir, name),
            PlainCall::DirLink { dir, file, .. } => self.add_named(core, task, *dir, *file),
            PlainCall::DirRename { dir, name, to, new } => {
                self.add_renamed(core, task, *dir, name, *to, new);
            }
        }
    }
}
