//! What a pipe holds.
ghost use Rattle.std.specs.Prelude.{◌≡◌, ◌≤◌, ◌+◌, [], ◌++◌, drop, length, refl};
ghost use Rattle.arrayvec.specs.ArrayVec.{array_vec_len};
ghost use Rattle.hurd_trans_iface.specs.declared.begun.ServerKind.TheVariants.{Fifo as FifoKind};

use crate::keeper::Keeper;
use crate::words::no_options;
use arrayvec::ArrayVec;
use hurd_creds::{Bytes, Errno, Kind, MOST_SIZE};
use hurd_trans_iface::{Names, Root, Words};
use std::alloc::Global;

/// The bytes between those who write and those who read.
#[derive(Drop)]
pub struct Pipe {
    pub(crate) held: ArrayVec<u8, 4096>,
}

impl Pipe {
    /// A pipe that holds nothing.
    pub(crate) fn empty() -> Pipe
        ensures { result.held.items ≡ [] }
    {
        Pipe {
            held: ArrayVec::new(),
        }
    }
}

/// Puts bytes after those that are held.
fn put(held: &mut ArrayVec<u8, 4096>, bytes: &[u8])
    requires { array_vec_len held.old + length bytes.now ≤ 4096 }
    ensures { held.new.items ≡ held.old.items ++ bytes.now }
{
    let _put = held.try_extend_from_slice(bytes);
}

/// The bytes after the first ones.
fn behind(bytes: &[u8], count: usize) -> ArrayVec<u8, 4096>
    requires few { length bytes.now ≤ 4096 }
    requires within { count ≤ length bytes.now }
    ensures { result.items ≡ drop count bytes.now }
{
    let mut rest = ArrayVec::new();
    put(&mut rest, &bytes[count..]);
    rest
}

#[tactic(auto, unfolding(crate::specs::Calls::AnswersSo, crate::specs::Calls::Tries, crate::specs::Calls::TakesNone, crate::specs::Calls::Readable))]
impl Keeper for Pipe {
    ghost kind = { λ _. FifoKind };

    ghost text = { λ _. [] };

    ghost held = { λ s. s.held.items };

    ghost no_tree = { λ _. refl };

    fn root(&self) -> Root {
        Root {
            is_stream: true,
            ..Root::plain(Kind::Fifo)
        }
    }

    fn said(&self) -> &[u8] {
        &[]
    }

    fn options(&self, alloc: Global) -> Result<Words, Errno> {
        Words::named(alloc, b"/hurd/fifo")
    }

    fn set_options(&mut self, _alloc: Global, words: &Words) -> Result<(), Errno> {
        no_options(words)
    }

    fn targets(&self, alloc: Global) -> Result<Names, Errno> {
        Ok(Names::new(alloc))
    }

    fn begin(&mut self) {
        self.held.clear();
    }

    fn size(&self) -> u64 {
        0
    }

    fn bytes(&self) -> &[u8] {
        self.held.as_slice()
    }

    fn read(
        &mut self,
        alloc: Global,
        _at: u64,
        amount: u64,
        writers: u128,
    ) -> Result<Bytes, Errno> {
        if amount == 0 {
            return Ok(Bytes::new(Vec::new(alloc)));
        }
        if self.held.is_empty() {
            if writers > 0 {
                return Err(Errno::EWOULDBLOCK);
            }
            return Ok(Bytes::new(Vec::new(alloc)));
        }
        let count = amount.min(self.held.len() as u64) as usize;
        let first = Bytes::copied(alloc, &self.held.as_slice()[..count])?;
        self.held = behind(self.held.as_slice(), count);
        Ok(first)
    }

    fn write(&mut self, _at: u64, bytes: &[u8], readers: u128) -> Result<u64, Errno> {
        if readers == 0 {
            return Err(Errno::EPIPE);
        }
        if bytes.is_empty() {
            return Ok(0);
        }
        let room = self.held.remaining_capacity();
        if room == 0 {
            return Err(Errno::EWOULDBLOCK);
        }
        let count = room.min(bytes.len());
        put(&mut self.held, &bytes[..count]);
        Ok(count as u64)
    }

    fn set_size(&mut self, size: u64) -> Result<(), Errno> {
        if size > MOST_SIZE {
            return Err(Errno::EFBIG);
        }
        Ok(())
    }

    fn readable(&self, _at: u64) -> u64 {
        self.held.len() as u64
    }

    fn counts(&self) -> bool {
        true
    }
}
