//! Where reads and writes begin and end.
ghost use Rattle.std.specs.Prelude.{◌≡◌};
ghost use Rattle.hurd_core.specs.Core.{world_of};
ghost use Rattle.hurd_machine.specs.Change.{apply_all};
ghost use Rattle.hurd_io.specs.Io.{i64_greatest, io_at, moved, offset_of, past, place_of};

use hurd_core::Core;
use hurd_creds::{Errno, NodeName, OpenName};
use hurd_machine::Handle;
use hurd_trans_iface::Server;

/// The greatest place.
pub(crate) const MOST_PLACE: u64 = 9223372036854775807;

/// Where a call is to begin: at a place, or at the open's cursor.
#[derive(Clone, Copy, Debug, PartialEq, Eq)]
pub(crate) enum Offset {
    At(u64),
    Cursor,
}

impl Offset {
    /// The offset that a caller gives; -1 is the cursor. `EINVAL`: any other below 0.
    pub(crate) fn new(offset: i64) -> Result<Offset, Errno>
        ensures { result ≡ offset_of offset }
    {
        match offset {
            -1 => Ok(Offset::Cursor),
            0.. => Ok(Offset::At(offset as u64)),
            _ => Err(Errno::EINVAL),
        }
    }

    /// The place, where the cursor is at `cursor`.
    fn place(self, cursor: u64) -> u64
        ensures { result ≡ place_of self cursor }
    {
        match self {
            Offset::At(place) => place,
            Offset::Cursor => cursor,
        }
    }
}

/// The place so many bytes on, but not past the greatest.
fn past(at: u64, count: u64) -> u64
    ensures { result ≡ past at count }
{
    at.saturating_add(count).min(MOST_PLACE)
}

/// Where a read or a write begins, and the open whose cursor it may move.
#[derive(Clone, Copy, Debug)]
pub(crate) struct IoAt {
    pub(crate) node: NodeName,
    pub(crate) open_name: OpenName,
    pub(crate) is_stream: bool,
    pub(crate) offset: Offset,
    pub(crate) at: u64,
}

impl IoAt {
    /// Where a call on what a port has open begins, if the cursor is at `cursor`.
    pub(crate) fn new(handle: Handle, is_stream: bool, cursor: u64, offset: Offset) -> IoAt
        ensures { result ≡ io_at handle is_stream cursor offset }
    {
        IoAt {
            node: handle.node,
            open_name: handle.open_name,
            is_stream,
            offset,
            at: offset.place(cursor),
        }
    }

    /// Moves the cursor past so many bytes, where the call began there; on a stream it stays.
    pub(crate) fn advance<S: Server>(self, core: &mut Core<S>, count: u64)
        ensures { world_of S.meaning core.new
            ≡ apply_all (moved self.offset self.is_stream self.open_name (past self.at count)) (world_of S.meaning core.old) }
    {
        match self.offset {
            Offset::At(_) => {}
            Offset::Cursor => {
                if !self.is_stream {
                    core.move_cursor(self.open_name, past(self.at, count));
                }
            }
        }
    }
}
