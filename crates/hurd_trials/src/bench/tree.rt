//! A world of root and one user, and the work that the user does in it.
ghost use Rattle.std.specs.Prelude.{◌≡◌, ◌<◌};
ghost use Rattle.hurd_trans_iface.specs.Meaning.{Begins};
ghost use Rattle.hurd_tmpfs.specs.Tree.{new_tmpfs};

use crate::bench::files::{
    Files, directory_name, directory_of, file_name, file_path, new_name, served_name, served_path,
};
use crate::bench::work::Work;
use bitflags::Flags;
use hurd_creds::{Bytes, Errno, GoawayFlags, Ids, Mode, OpenFlags, TaskId, TransFlags};
use hurd_machine::Setting;
use hurd_trans_iface::{Server, Words};
use hurd_world::{Call, Lookup, PlainCall, Reply, World};
use std::alloc::Global;

const ROOT: TaskId = TaskId(0);

const USER: TaskId = TaskId(1);

/// Each task's port on its working directory, the root of the tree.
const HERE: u64 = 2;

/// What is written to a file.
const CONTENTS: &[u8] = b"contents";

/// A world, and where it gets memory from.
#[derive(Drop)]
pub struct Tree<S: Server> {
    alloc: Global,
    world: World<S>,
}

/// What a call answered that gives nothing.
fn done<S: Server>(reply: Reply<S>) -> Result<(), Errno> {
    match reply {
        Reply::Done => Ok(()),
        Reply::Refused(errno) => Err(errno),
        Reply::Back(errno, _server) => Err(errno),
        _ => Err(Errno::EIO),
    }
}

impl<S: Server> Tree<S> {
    /// Begins a world over an empty tree.
    #[tactic(auto, using(hurd_tmpfs::proofs::Beginning::begins_tree))]
    pub fn begin(alloc: Global, root: S) -> Result<Tree<S>, Errno>
        requires { S.meaning root ≡ new_tmpfs }
    {
        let operator = Ids::new(alloc, &[0], &[0])?;
        let user = Ids::new(alloc, &[1000], &[1000])?;
        let users = Vec::from_array(alloc, [operator, user]).map_err(|_| Errno::ENOMEM)?;
        match World::boot(alloc, root, users) {
            Ok(world) => Ok(Tree { alloc, world }),
            Err((errno, _root)) => Err(errno),
        }
    }

    /// Makes the directories, in which everybody may make files.
    pub fn make_directories(&mut self, count: usize) -> Result<(), Errno> {
        for directory in 0..count {
            let call = Call::Plain(PlainCall::DirMkdir {
                dir: HERE,
                name: directory_name(self.alloc, directory)?,
                mode: Mode::from_bits_truncate(0o777),
            });
            done(self.world.call(self.alloc, ROOT, call))?;
        }
        Ok(())
    }

    /// Does the work on the files that are taken for it; answers how many. Of servers see `serve` and `send_all_away`.
    pub fn repeat(&mut self, work: Work, files: Files) -> Result<u64, Errno> {
        let mut times = 0u64;
        for number in (0..files.count).step_by(files.stride(work)) {
            self.once(work, number)?;
            times = times.saturating_add(1);
        }
        Ok(times)
    }

    /// Sends so many servers away, those that came first, in the order in which they came, each so many files after the last.
    pub fn send_all_away(&mut self, files: usize, stride: usize, served: u64) -> Result<(), Errno>
        requires { 0 < stride }
    {
        let mut times = 0u64;
        for number in (0..files).step_by(stride) {
            if times < served {
                self.once(Work::SendAway, number)?;
                times = times.saturating_add(1);
            }
        }
        Ok(())
    }

    /// Does the work on one file.
    fn once(&mut self, work: Work, file: usize) -> Result<(), Errno> {
        match work {
            Work::Create => self.create(file),
            Work::Read => self.read(file),
            Work::Stat => self.stat(file),
            Work::Rename => self.rename(file),
            Work::Unlink => self.unlink(file),
            Work::SendAway => self.send_away(file),
            Work::Serve => Err(Errno::EINVAL),
        }
    }

    /// Opens a path as the user.
    fn open(&mut self, path: Bytes, flags: OpenFlags) -> Result<u64, Errno> {
        let call = Call::Plain(PlainCall::DirLookup {
            dir: HERE,
            path,
            flags,
            mode: Mode::from_bits_truncate(0o644),
        });
        match self.world.call(self.alloc, USER, call) {
            Reply::Found(Lookup::Done(port)) => Ok(port),
            Reply::Refused(errno) => Err(errno),
            _ => Err(Errno::EIO),
        }
    }

    /// Opens the directory of a file.
    fn open_directory(&mut self, file: usize) -> Result<u64, Errno> {
        let path = directory_name(self.alloc, directory_of(file))?;
        self.open(path, OpenFlags::DIRECTORY)
    }

    /// Gives a port up.
    fn close(&mut self, port: u64) -> Result<(), Errno> {
        done(
            self.world.call(
                self.alloc,
                USER,
                Call::Plain(PlainCall::PortDeallocate { port }),
            ),
        )
    }

    fn create(&mut self, file: usize) -> Result<(), Errno> {
        let path = file_path(self.alloc, file)?;
        let port = self.open(path, OpenFlags::WRITE.union(OpenFlags::CREATE))?;
        let call = Call::Plain(PlainCall::IoWrite {
            port,
            bytes: Bytes::copied(self.alloc, CONTENTS)?,
            offset: 0,
        });
        match self.world.call(self.alloc, USER, call) {
            Reply::Count(_) => self.close(port),
            Reply::Refused(errno) => Err(errno),
            _ => Err(Errno::EIO),
        }
    }

    fn read(&mut self, file: usize) -> Result<(), Errno> {
        let path = file_path(self.alloc, file)?;
        let port = self.open(path, OpenFlags::READ)?;
        let call = Call::Plain(PlainCall::IoRead {
            port,
            amount: 100,
            offset: 0,
        });
        match self.world.call(self.alloc, USER, call) {
            Reply::Data(bytes) => self.close_read(port, bytes),
            Reply::Refused(errno) => Err(errno),
            _ => Err(Errno::EIO),
        }
    }

    /// Gives a port up that gave these bytes. `EIO` where they are not what was written.
    fn close_read(&mut self, port: u64, bytes: Bytes) -> Result<(), Errno> {
        if !bytes.is(CONTENTS) {
            return Err(Errno::EIO);
        }
        self.close(port)
    }

    fn stat(&mut self, file: usize) -> Result<(), Errno> {
        let path = file_path(self.alloc, file)?;
        let port = self.open(path, OpenFlags::empty())?;
        match self
            .world
            .call(self.alloc, USER, Call::Plain(PlainCall::IoStat { port }))
        {
            Reply::Stat(_) => self.close(port),
            Reply::Refused(errno) => Err(errno),
            _ => Err(Errno::EIO),
        }
    }

    fn rename(&mut self, file: usize) -> Result<(), Errno> {
        let port = self.open_directory(file)?;
        let call = Call::Plain(PlainCall::DirRename {
            dir: port,
            name: file_name(self.alloc, file)?,
            to: port,
            new: new_name(self.alloc, file)?,
        });
        done(self.world.call(self.alloc, USER, call))?;
        self.close(port)
    }

    fn unlink(&mut self, file: usize) -> Result<(), Errno> {
        let name = new_name(self.alloc, file)?;
        self.take_away(file, name)
    }

    fn send_away(&mut self, file: usize) -> Result<(), Errno> {
        let name = served_name(self.alloc, file)?;
        self.take_away(file, name)
    }

    /// Takes a name out of the directory of a file.
    fn take_away(&mut self, file: usize, name: Bytes) -> Result<(), Errno> {
        let port = self.open_directory(file)?;
        done(
            self.world.call(
                self.alloc,
                USER,
                Call::Plain(PlainCall::DirUnlink { dir: port, name }),
            ),
        )?;
        self.close(port)
    }

    /// Puts a server, which some words made, on a new file beside this one.
    pub fn serve(&mut self, file: usize, server: S) -> Result<(), Errno>
        requires { Begins (S.meaning server) }
    {
        let path = served_path(self.alloc, file)?;
        let port = self.open(path, OpenFlags::NOTRANS.union(OpenFlags::CREATE))?;
        let call = Call::FileSetTranslator {
            port,
            setting: Setting {
                passive: TransFlags::empty(),
                active: TransFlags::SET,
                goaway: GoawayFlags::empty(),
            },
            words: Words::none(self.alloc),
            server: Some(server),
        };
        done(self.world.call(self.alloc, USER, call))?;
        self.close(port)
    }
}
