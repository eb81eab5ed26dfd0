//! What is read of the replies to calls of an opening.
ghost use Rattle.std.specs.Prelude.{◌≡◌, Option, Some, None};
ghost use Rattle.hurd_machine.specs.Calls.{reply_by};
ghost use Rattle.hurd_client.specs.Looking.{looked_of};
ghost use Rattle.hurd_client.specs.Programs.{port_of, set_of, started, started_of};

use hurd_creds::{Bytes, Errno};
use hurd_machine::{Lookup, Reply, RetryKind};
use hurd_trans_iface::{Server, Words};

/// Where a lookup goes on.
#[derive(Debug, Drop)]
pub(crate) enum NextLookup {
    /// At this port.
    Normal { name: Bytes, port: u64 },
    /// At the port that `io_reauthenticate` makes of this one.
    Reauth { name: Bytes, port: u64 },
    /// At the root, or where the name says.
    Magical { name: Bytes },
}

/// What a lookup was answered.
#[derive(Debug, Drop)]
pub(crate) enum LookupAnswer {
    /// The node's port.
    Opened(u64),
    Retried(NextLookup),
    /// A translator of these words is to be started.
    Started(Words),
}

/// A retry, which has a port unless it is magical.
fn retry_of(kind: RetryKind, name: Bytes, port: Option<u64>) -> Result<LookupAnswer, Errno>
    ensures { result ≡ looked_of (Reply.Found (Lookup.Retry kind name port)) }
{
    match (kind, port) {
        (RetryKind::Normal, Some(port)) => Ok(LookupAnswer::Retried(NextLookup::Normal {
            name,
            port,
        })),
        (RetryKind::Reauth, Some(port)) => Ok(LookupAnswer::Retried(NextLookup::Reauth {
            name,
            port,
        })),
        (RetryKind::Magical, None) => Ok(LookupAnswer::Retried(NextLookup::Magical { name })),
        (RetryKind::Normal, None) | (RetryKind::Reauth, None) | (RetryKind::Magical, Some(_)) => {
            Err(Errno::EIO)
        }
    }
}

/// What a lookup was answered.
pub(crate) fn looked_of<S: Server>(reply: Reply<S>) -> Result<LookupAnswer, Errno>
    ensures { result ≡ looked_of (reply_by S.meaning reply) }
{
    match reply {
        Reply::Found(Lookup::Done(port)) => Ok(LookupAnswer::Opened(port)),
        Reply::Found(Lookup::Retry { kind, name, port }) => retry_of(kind, name, port),
        Reply::Found(Lookup::Start { words }) => Ok(LookupAnswer::Started(words)),
        Reply::Refused(errno) => Err(errno),
        Reply::Done
        | Reply::Port(_)
        | Reply::Data(_)
        | Reply::Count(_)
        | Reply::Names(_)
        | Reply::Stat(_)
        | Reply::Words(_)
        | Reply::Modes(_)
        | Reply::Same(_)
        | Reply::Back(_, _) => Err(Errno::EIO),
    }
}

/// The port that was made of another. A reply of another sort, which can't come, would be EIO.
pub fn port_of<S: Server>(reply: Reply<S>) -> Result<u64, Errno>
    ensures { result ≡ port_of (reply_by S.meaning reply) }
{
    match reply {
        Reply::Port(port) => Ok(port),
        Reply::Refused(errno) => Err(errno),
        Reply::Done
        | Reply::Found(_)
        | Reply::Data(_)
        | Reply::Count(_)
        | Reply::Names(_)
        | Reply::Stat(_)
        | Reply::Words(_)
        | Reply::Modes(_)
        | Reply::Same(_)
        | Reply::Back(_, _) => Err(Errno::EIO),
    }
}

/// What is read of the reply to a call that brings a server: one that comes back is dropped.
pub fn set_of<S: Server>(reply: Reply<S>) -> Result<(), Errno>
    ensures { result ≡ set_of (reply_by S.meaning reply) }
{
    match reply {
        Reply::Done => Ok(()),
        Reply::Refused(errno) | Reply::Back(errno, _) => Err(errno),
        Reply::Found(_)
        | Reply::Port(_)
        | Reply::Data(_)
        | Reply::Count(_)
        | Reply::Names(_)
        | Reply::Stat(_)
        | Reply::Words(_)
        | Reply::Modes(_)
        | Reply::Same(_) => Err(Errno::EIO),
    }
}

/// A start that another was quicker with is as good as one's own.
pub fn started(answer: Result<(), Errno>) -> Result<(), Errno>
    ensures { result ≡ started answer }
{
    match answer {
        Err(Errno::EBUSY) => Ok(()),
        answer => answer,
    }
}

/// What is read of the reply to a call that starts a translator.
pub fn started_of<S: Server>(reply: Reply<S>) -> Result<(), Errno>
    ensures { result ≡ started_of (reply_by S.meaning reply) }
{
    started(set_of(reply))
}
