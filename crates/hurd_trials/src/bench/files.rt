//! The files of a run: how many, in which directories, under which names, and which of them a kind of work is done on.
ghost use Rattle.std.specs.Prelude.{◌<◌};

use crate::bench::work::Work;
use hurd_creds::Bytes;
use itoa::Buffer;
use std::alloc::{AllocError, Global};

/// The most files of a directory.
const DIRECTORY_SIZE: usize = 1000;

/// Files by their numbers, from 0 on.
#[derive(Clone, Copy)]
pub struct Files {
    pub count: usize,
}

impl Files {
    /// How many directories they stand in.
    pub fn directories(self) -> usize {
        self.count.saturating_add(999) / DIRECTORY_SIZE
    }

    /// The step from one file that the work is done on to the next. All files are made; of other work at most 10,000 are
    /// taken, and for servers at most every hundredth.
    pub fn stride(self, work: Work) -> usize
        ensures { 0 < result }
    {
        let sparse = match self.count {
            0..=10_000 => 1,
            10_001..=100_000 => 10,
            100_001..=1_000_000 => 100,
            _ => 1000,
        };
        match work {
            Work::Create => 1,
            Work::Serve if sparse < 100 => 100,
            _ => sparse,
        }
    }
}

/// The number of a file's directory.
pub fn directory_of(file: usize) -> usize {
    file / DIRECTORY_SIZE
}

/// So many bytes have room for the longest path.
const PATH_ROOM: usize = 24;

/// A letter with a number after a text.
fn push_numbered(text: &mut Vec<u8>, letter: u8, number: usize) -> Result<(), AllocError> {
    let mut buffer = Buffer::new();
    text.push(letter)?;
    text.extend_from_slice(buffer.format(number).as_bytes())
}

/// A letter with a number.
fn numbered(alloc: Global, letter: u8, number: usize) -> Result<Bytes, AllocError> {
    let mut text = Vec::with_capacity(alloc, PATH_ROOM)?;
    push_numbered(&mut text, letter, number)?;
    Ok(Bytes::new(text))
}

/// A letter with a file's number, in the file's directory.
fn path_to(alloc: Global, letter: u8, file: usize) -> Result<Bytes, AllocError> {
    let mut text = Vec::with_capacity(alloc, PATH_ROOM)?;
    push_numbered(&mut text, b'd', directory_of(file))?;
    text.push(b'/')?;
    push_numbered(&mut text, letter, file)?;
    Ok(Bytes::new(text))
}

/// The name of a directory.
pub fn directory_name(alloc: Global, directory: usize) -> Result<Bytes, AllocError> {
    numbered(alloc, b'd', directory)
}

/// The name of a file in its directory.
pub fn file_name(alloc: Global, file: usize) -> Result<Bytes, AllocError> {
    numbered(alloc, b'f', file)
}

/// The name that a file is given in place of its own.
pub fn new_name(alloc: Global, file: usize) -> Result<Bytes, AllocError> {
    numbered(alloc, b'g', file)
}

/// The name of the file beside it, for a server.
pub fn served_name(alloc: Global, file: usize) -> Result<Bytes, AllocError> {
    numbered(alloc, b'h', file)
}

/// The path of a file.
pub fn file_path(alloc: Global, file: usize) -> Result<Bytes, AllocError> {
    path_to(alloc, b'f', file)
}

/// The path of the file beside it, for a server.
pub fn served_path(alloc: Global, file: usize) -> Result<Bytes, AllocError> {
    path_to(alloc, b'h', file)
}
