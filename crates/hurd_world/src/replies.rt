//! Replies, as calls answer them.
ghost use Rattle.std.specs.Prelude.{◌≡◌};
ghost use Rattle.hurd_world.specs.Held.{set_told, start_told, told_of};

use hurd_creds::{Bytes, Errno, OpenFlags, Stat};
use hurd_machine::{Lookup, Reply};
use hurd_trans_iface::{Names, Words};

/// Of a call that only changes something.
pub(crate) fn done<S>(answer: Result<(), Errno>) -> Reply<S>
    ensures { result ≡ told_of (λ _. Reply.Done) answer }
{
    match answer {
        Ok(()) => Reply::Done,
        Err(errno) => Reply::Refused(errno),
    }
}

/// Of a call that gives a port.
pub(crate) fn port<S>(answer: Result<u64, Errno>) -> Reply<S>
    ensures { result ≡ told_of (λ x. Reply.Port x) answer }
{
    match answer {
        Ok(port) => Reply::Port(port),
        Err(errno) => Reply::Refused(errno),
    }
}

/// Of a lookup.
pub(crate) fn found<S>(answer: Result<Lookup, Errno>) -> Reply<S>
    ensures { result ≡ told_of (λ x. Reply.Found x) answer }
{
    match answer {
        Ok(found) => Reply::Found(found),
        Err(errno) => Reply::Refused(errno),
    }
}

/// Of a read.
pub(crate) fn data<S>(answer: Result<Bytes, Errno>) -> Reply<S>
    ensures { result ≡ told_of (λ x. Reply.Data x) answer }
{
    match answer {
        Ok(bytes) => Reply::Data(bytes),
        Err(errno) => Reply::Refused(errno),
    }
}

/// Of a call that counts bytes.
pub(crate) fn count<S>(answer: Result<u64, Errno>) -> Reply<S>
    ensures { result ≡ told_of (λ x. Reply.Count x) answer }
{
    match answer {
        Ok(count) => Reply::Count(count),
        Err(errno) => Reply::Refused(errno),
    }
}

/// Of a call that tells of a node.
pub(crate) fn stat<S>(answer: Result<Stat, Errno>) -> Reply<S>
    ensures { result ≡ told_of (λ x. Reply.Stat x) answer }
{
    match answer {
        Ok(stat) => Reply::Stat(stat),
        Err(errno) => Reply::Refused(errno),
    }
}

/// Of a call that tells modes.
pub(crate) fn modes<S>(answer: Result<OpenFlags, Errno>) -> Reply<S>
    ensures { result ≡ told_of (λ x. Reply.Modes x) answer }
{
    match answer {
        Ok(flags) => Reply::Modes(flags),
        Err(errno) => Reply::Refused(errno),
    }
}

/// Of a comparison.
pub(crate) fn same<S>(answer: Result<bool, Errno>) -> Reply<S>
    ensures { result ≡ told_of (λ x. Reply.Same x) answer }
{
    match answer {
        Ok(same) => Reply::Same(same),
        Err(errno) => Reply::Refused(errno),
    }
}

/// Of a call that lists names.
pub(crate) fn names<S>(answer: Result<Names, Errno>) -> Reply<S>
    ensures { result ≡ told_of (λ x. Reply.Names x) answer }
{
    match answer {
        Ok(names) => Reply::Names(names),
        Err(errno) => Reply::Refused(errno),
    }
}

/// Of a call that tells words.
pub(crate) fn words<S>(answer: Result<Words, Errno>) -> Reply<S>
    ensures { result ≡ told_of (λ x. Reply.Words x) answer }
{
    match answer {
        Ok(words) => Reply::Words(words),
        Err(errno) => Reply::Refused(errno),
    }
}

/// Of a call that brings a server, which comes back with a refusal.
pub(crate) fn started<S>(answer: Result<(), (Errno, S)>) -> Reply<S>
    ensures { result ≡ start_told answer }
{
    match answer {
        Ok(()) => Reply::Done,
        Err((errno, server)) => Reply::Back(errno, server),
    }
}

/// Of a call that may bring a server, which comes back with a refusal.
pub(crate) fn set<S>(answer: Result<(), (Errno, Option<S>)>) -> Reply<S>
    ensures { result ≡ set_told answer }
{
    match answer {
        Ok(()) => Reply::Done,
        Err((errno, None)) => Reply::Refused(errno),
        Err((errno, Some(server))) => Reply::Back(errno, server),
    }
}
