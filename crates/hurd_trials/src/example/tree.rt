//! A world of root and alice, and the calls that they make in it.
ghost use Rattle.std.specs.Prelude.{◌≡◌};
ghost use Rattle.hurd_trans_iface.specs.Meaning.{Begins};
ghost use Rattle.hurd_tmpfs.specs.Tree.{new_tmpfs};

use bitflags::Flags;
use hurd_creds::{Bytes, Errno, GoawayFlags, Ids, Mode, OpenFlags, TaskId, TransFlags};
use hurd_machine::Setting;
use hurd_trans_iface::{Server, Words};
use hurd_world::{Call, Lookup, PlainCall, Reply, World};
use std::alloc::Global;

pub const ROOT: TaskId = TaskId(0);

pub const ALICE: TaskId = TaskId(1);

/// Each task's port on its working directory.
const HERE: u64 = 2;

/// A world, and where it gets memory from.
#[derive(Drop)]
pub struct Tree<S: Server> {
    alloc: Global,
    world: World<S>,
}

impl<S: Server> Tree<S> {
    /// Begins a world over an empty tree.
    #[tactic(auto, using(hurd_tmpfs::proofs::Beginning::begins_tree))]
    pub fn begin(alloc: Global, root: S) -> Result<Tree<S>, Errno>
        requires { S.meaning root ≡ new_tmpfs }
    {
        let operator = Ids::new(alloc, &[0], &[0])?;
        let alice = Ids::new(alloc, &[1000], &[1000])?;
        let users = Vec::from_array(alloc, [operator, alice]).map_err(|_| Errno::ENOMEM)?;
        match World::boot(alloc, root, users) {
            Ok(world) => Ok(Tree { alloc, world }),
            Err((errno, _root)) => Err(errno),
        }
    }

    /// Opens a file; a new one may be written by its owner, and read by all.
    pub fn open(&mut self, task: TaskId, path: &str, flags: OpenFlags) -> Result<u64, Errno> {
        let call = Call::Plain(PlainCall::DirLookup {
            dir: HERE,
            path: Bytes::copied(self.alloc, path.as_bytes())?,
            flags,
            mode: Mode::from_bits_truncate(0o644),
        });
        match self.world.call(self.alloc, task, call) {
            Reply::Found(Lookup::Done(port)) => Ok(port),
            Reply::Refused(errno) => Err(errno),
            _ => Err(Errno::EIO),
        }
    }

    /// Writes a text to a new file.
    pub fn write(&mut self, task: TaskId, path: &str, text: &str) -> Result<(), Errno> {
        let call = Call::Plain(PlainCall::IoWrite {
            port: self.open(task, path, OpenFlags::WRITE.union(OpenFlags::CREATE))?,
            bytes: Bytes::copied(self.alloc, text.as_bytes())?,
            offset: 0,
        });
        match self.world.call(self.alloc, task, call) {
            Reply::Count(_) => Ok(()),
            Reply::Refused(errno) => Err(errno),
            _ => Err(Errno::EIO),
        }
    }

    /// Reads the first hundred bytes of a file.
    pub fn read(&mut self, task: TaskId, path: &str) -> Result<String, Errno> {
        let call = Call::Plain(PlainCall::IoRead {
            port: self.open(task, path, OpenFlags::READ)?,
            amount: 100,
            offset: 0,
        });
        match self.world.call(self.alloc, task, call) {
            Reply::Data(text) => String::from_utf8(text.into_vec()).map_err(|_| Errno::EIO),
            Reply::Refused(errno) => Err(errno),
            _ => Err(Errno::EIO),
        }
    }

    /// Puts a server, which some words made, on a new file.
    pub fn attach(&mut self, task: TaskId, path: &str, server: S) -> Result<(), Errno>
        requires { Begins (S.meaning server) }
    {
        let call = Call::FileSetTranslator {
            port: self.open(task, path, OpenFlags::NOTRANS.union(OpenFlags::CREATE))?,
            setting: Setting {
                passive: TransFlags::empty(),
                active: TransFlags::SET,
                goaway: GoawayFlags::empty(),
            },
            words: Words::none(self.alloc),
            server: Some(server),
        };
        match self.world.call(self.alloc, task, call) {
            Reply::Done => Ok(()),
            Reply::Back(errno, _server) => Err(errno),
            _ => Err(Errno::EIO),
        }
    }
}
