//! Replies as numbers and bytes.
ghost use Rattle.std.specs.Prelude.{◌≡◌, ◌++◌, IfOk, OnOk};
ghost use Rattle.hurd_machine.specs.Calls.{reply_by};
ghost use Rattle.hurd_numbers.specs.Figures.{figures_of, found_figures, kind_number, number_if, plain, retry_number, reply_bytes, stat_figures, translators_of};
ghost use Rattle.hurd_numbers.specs.Words.{zero_ended};

use bitflags::Flags;
use hurd_creds::{Bytes, Kind, Stat};
use hurd_machine::{Lookup, Reply, RetryKind};
use hurd_trans_iface::Server;
use std::alloc::{AllocError, Global};

/// The numbers of a reply. Those that a reply has no use for are 0.
#[repr(C)]
#[derive(Clone, Copy, Debug)]
pub struct Figures {
    /// Which reply: 1 done, 2 a lookup is done, 3 it goes on, 4 a translator is to be started first, 5 a port, 6 data, 7 a count, 8 names, 9 words, 10 attributes,
    /// 11 modes, 12 whether two ports are on one node, 13 refused, 14 refused, and the server that was brought is dropped.
    pub which: u32,
    /// The number of the error that it was refused by.
    pub error: u32,
    /// How a lookup goes on: 0 at the port, 1 at the port that `io_reauthenticate` makes of it, 2 at the task itself.
    pub retry: u32,
    /// The kind of a node: 0 a file, 1 a directory, 2 a symbolic link, 3 a pipe, 4 a device.
    pub kind: u32,
    pub mode: u32,
    pub owner: u32,
    pub group: u32,
    pub links: u32,
    /// 1 if the node has a passive translator, and 2 more if a server is active on it.
    pub translators: u32,
    /// The port; the count; how many bytes, names or words there are; the bits of modes; 1 if two ports are on one node.
    pub number: u64,
    /// The size of a node.
    pub size: u64,
}

/// The numbers of no reply.
pub fn no_figures() -> Figures
    ensures { result ≡ plain 0 0 }
{
    plain(0, 0)
}

/// A reply with a number.
fn plain(which: u32, number: u64) -> Figures
    ensures { result ≡ plain which number }
{
    Figures {
        which,
        error: 0,
        retry: 0,
        kind: 0,
        mode: 0,
        owner: 0,
        group: 0,
        links: 0,
        translators: 0,
        number,
        size: 0,
    }
}

/// How a lookup goes on.
fn retry_number(kind: RetryKind) -> u32
    ensures { result ≡ retry_number kind }
{
    match kind {
        RetryKind::Normal => 0,
        RetryKind::Reauth => 1,
        RetryKind::Magical => 2,
    }
}

/// The kind of a node.
fn kind_number(kind: Kind) -> u32
    ensures { result ≡ kind_number kind }
{
    match kind {
        Kind::File => 0,
        Kind::Dir => 1,
        Kind::Link => 2,
        Kind::Fifo => 3,
        Kind::Char => 4,
    }
}

/// A number, if something holds; else 0.
fn number_if(holds: bool, number: u32) -> u32
    ensures { result ≡ number_if holds number }
{
    if holds { number } else { 0 }
}

/// Which translators a node has.
fn translators_of(stat: &Stat) -> u32
    ensures { result ≡ translators_of stat.now }
{
    number_if(stat.passive, 1) + number_if(stat.active, 2)
}

/// The numbers of attributes.
fn stat_figures(stat: &Stat) -> Figures
    ensures { result ≡ stat_figures stat.now }
{
    Figures {
        which: 10,
        error: 0,
        retry: 0,
        kind: kind_number(stat.kind),
        mode: stat.mode.bits(),
        owner: stat.owner,
        group: stat.group,
        links: stat.links,
        translators: translators_of(stat),
        number: 0,
        size: stat.size,
    }
}

/// The numbers of what a lookup found.
fn found_figures(found: &Lookup) -> Figures
    ensures { result ≡ found_figures found.now }
{
    match found {
        Lookup::Done(port) => plain(2, *port),
        Lookup::Retry {
            kind,
            name: _,
            port,
        } => Figures {
            retry: retry_number(*kind),
            ..plain(3, port.unwrap_or(0))
        },
        Lookup::Start { words } => plain(4, words.as_slice().len() as u64),
    }
}

/// The numbers of a reply.
pub fn figures_of<S: Server>(reply: &Reply<S>) -> Figures
    ensures { result ≡ figures_of (reply_by S.meaning reply.now) }
{
    match reply {
        Reply::Done => plain(1, 0),
        Reply::Found(found) => found_figures(found),
        Reply::Port(port) => plain(5, *port),
        Reply::Data(bytes) => plain(6, bytes.as_slice().len() as u64),
        Reply::Count(count) => plain(7, *count),
        Reply::Names(names) => plain(8, names.as_slice().len() as u64),
        Reply::Words(words) => plain(9, words.as_slice().len() as u64),
        Reply::Stat(stat) => stat_figures(stat),
        Reply::Modes(flags) => plain(11, u64::from(flags.bits())),
        Reply::Same(same) => plain(12, u64::from(number_if(*same, 1))),
        Reply::Refused(errno) => Figures {
            error: errno.number(),
            ..plain(13, 0)
        },
        Reply::Back(errno, _) => Figures {
            error: errno.number(),
            ..plain(14, 0)
        },
    }
}

/// Adds words, each ended by a zero byte.
fn push_zero_ended(text: &mut Vec<u8>, words: &[Bytes]) -> Result<(), AllocError>
    ensures { OnOk result (text.new.items ≡ text.old.items ++ zero_ended words.now) }
{
    for word in words {
        text.extend_from_slice(word.as_slice())?;
        text.push(0)?;
    }
    Ok(())
}

/// Words one after another, each ended by a zero byte. Fails only if memory runs out.
fn zero_ended(alloc: Global, words: &[Bytes]) -> Result<Bytes, AllocError>
    ensures { IfOk result (λ bytes. bytes ≡ zero_ended words.now) }
{
    let mut text = Vec::new(alloc);
    push_zero_ended(&mut text, words)?;
    Ok(Bytes::new(text))
}

/// The bytes of a reply: its data; the name that a lookup goes on with; names or words, each ended by a zero byte. If one of these has a zero byte in it, there are
/// more zero bytes than `number` says. Fails only if memory runs out.
pub fn bytes_of<S: Server>(alloc: Global, reply: Reply<S>) -> Result<Bytes, AllocError>
    ensures { IfOk result (λ bytes. bytes ≡ reply_bytes (reply_by S.meaning reply)) }
{
    match reply {
        Reply::Data(bytes) => Ok(bytes),
        Reply::Found(Lookup::Retry { name, .. }) => Ok(name),
        Reply::Found(Lookup::Start { words }) => zero_ended(alloc, words.as_slice()),
        Reply::Names(names) => zero_ended(alloc, names.as_slice()),
        Reply::Words(words) => zero_ended(alloc, words.as_slice()),
        _ => Ok(Bytes::new(Vec::new(alloc))),
    }
}
