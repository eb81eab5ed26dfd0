//! The text of replies.
ghost use Rattle.std.specs.Prelude.{◌≡◌, ◌++◌, ◌∷◌, [], if◌then◌else◌, List, ℕ, IfOk, OnOk};
ghost use Rattle.hurd_machine.specs.Calls.{reply_by};
ghost use Rattle.hurd_lists.specs.Replies.{flags_text, high_digit, high_digits, kind_name, listed_flags, lookup_text, port_text, reply_text, retry_name, shown, shown_names, mode_text, stat_rest, stat_text, answered};

use bitflags::Flags;
use hurd_creds::{Bytes, Kind, Mode, OpenFlags, Stat};
use hurd_machine::{Lookup, Reply, RetryKind};
use hurd_trans_iface::Server;
use hurd_words::answers::{Answer, Content, Ending};
use hurd_words::escapes::push_escaped;
use hurd_words::printing::{octal_digit, push_if, push_mode, push_number};
use std::alloc::{AllocError, Global};

/// Prints bytes after `=`.
fn push_bytes(text: &mut Vec<u8>, bytes: &[u8]) -> Result<(), AllocError>
    ensures { OnOk result (text.new.items ≡ text.old.items ++ shown bytes.now) }
{
    text.push(b'=')?;
    push_escaped(text, bytes)
}

/// Prints names or words, each after a space.
fn push_names(text: &mut Vec<u8>, names: &[Bytes]) -> Result<(), AllocError>
    ensures { OnOk result (text.new.items ≡ text.old.items ++ shown_names names.now) }
{
    for name in names {
        push_spaced(text, name.as_slice())?;
    }
    Ok(())
}

/// Prints bytes after `=`, after a space.
fn push_spaced(text: &mut Vec<u8>, bytes: &[u8]) -> Result<(), AllocError>
    ensures { OnOk result (text.new.items ≡ text.old.items ++ 32 ∷ shown bytes.now) }
{
    text.push(b' ')?;
    push_bytes(text, bytes)
}

/// The name of a kind.
pub fn kind_name(kind: Kind) -> &'static str
    ensures { result.now ≡ kind_name kind }
{
    match kind {
        Kind::File => "File",
        Kind::Dir => "Dir",
        Kind::Link => "Link",
        Kind::Fifo => "Fifo",
        Kind::Char => "Char",
    }
}

/// Prints the last octal digit of a number, unless the number is zero.
fn push_high_digit(text: &mut Vec<u8>, number: u32) -> Result<(), AllocError>
    ensures { OnOk result (text.new.items ≡ text.old.items ++ high_digit number) }
{
    if number != 0 {
        text.push(octal_digit(number))?;
    }
    Ok(())
}

/// Prints the octal digits of a number above its last six, as far as it has them.
pub fn push_high_digits(text: &mut Vec<u8>, number: u32) -> Result<(), AllocError>
    ensures { OnOk result (text.new.items ≡ text.old.items ++ high_digits number) }
{
    push_high_digit(text, number / 0o10000000000)?;
    push_high_digit(text, number / 0o1000000000)?;
    push_high_digit(text, number / 0o100000000)?;
    push_high_digit(text, number / 0o10000000)?;
    push_high_digit(text, number / 0o1000000)
}

/// Prints a mode after a space, as six octal digits, or more where it has them.
#[tactic(auto, unfolding(crate::specs::Replies::mode_text))]
fn push_whole_mode(text: &mut Vec<u8>, mode: Mode) -> Result<(), AllocError>
    ensures { OnOk result (text.new.items ≡ text.old.items ++ mode_text mode.0) }
{
    text.push(b' ')?;
    push_high_digits(text, mode.bits())?;
    push_mode(text, mode)
}

/// Prints how many entries name a node, its size and its translators.
#[tactic(auto, unfolding(crate::specs::Replies::stat_rest))]
fn push_rest(text: &mut Vec<u8>, stat: &Stat) -> Result<(), AllocError>
    ensures { OnOk result (text.new.items ≡ text.old.items ++ stat_rest stat.now) }
{
    push_number(text, u64::from(stat.links))?;
    push_number(text, stat.size)?;
    push_if(text, stat.passive, " passive")?;
    push_if(text, stat.active, " active")
}

/// Prints attributes.
fn push_stat(text: &mut Vec<u8>, stat: &Stat) -> Result<(), AllocError>
    ensures { OnOk result (text.new.items ≡ text.old.items ++ stat_text stat.now) }
{
    text.extend_from_slice(b"Stat ")?;
    text.extend_from_slice(kind_name(stat.kind).as_bytes())?;
    push_number(text, u64::from(stat.owner))?;
    push_number(text, u64::from(stat.group))?;
    push_whole_mode(text, stat.mode)?;
    push_rest(text, stat)
}

/// Prints a name after a comma, and only the name where it is the first.
fn push_name(text: &mut Vec<u8>, first: bool, name: &str) -> Result<(), AllocError>
    ensures { OnOk result (text.new.items ≡ text.old.items ++ (if first then name.now else 44 ∷ name.now)) }
{
    if !first {
        text.push(b',')?;
    }
    text.extend_from_slice(name.as_bytes())?;
    Ok(())
}

/// Prints the name of a flag, if it is among these, and answers whether none was printed yet.
fn push_flag(
    text: &mut Vec<u8>,
    first: bool,
    flags: OpenFlags,
    flag: OpenFlags,
    name: &str,
) -> Result<bool, AllocError>
    ensures { IfOk result (λ none. (rows : List (ℕ × List ℕ)) → text.new.items ++ listed_flags none flags rows
        ≡ text.old.items ++ listed_flags first flags ((flag.0, name.now) ∷ rows)) }
{
    if !flags.asks(flag) {
        return Ok(first);
    }
    push_name(text, first, name)?;
    Ok(false)
}

/// Prints the names of flags, joined by commas, and answers whether there was none.
fn push_each_flag(text: &mut Vec<u8>, flags: OpenFlags) -> Result<bool, AllocError>
    ensures { IfOk result (λ none. text.new.items ++ listed_flags none flags [] ≡ text.old.items ++ flags_text flags) }
{
    let first = push_flag(text, true, flags, OpenFlags::READ, "READ")?;
    let first = push_flag(text, first, flags, OpenFlags::WRITE, "WRITE")?;
    let first = push_flag(text, first, flags, OpenFlags::EXEC, "EXEC")?;
    let first = push_flag(text, first, flags, OpenFlags::APPEND, "APPEND")?;
    let first = push_flag(text, first, flags, OpenFlags::CREATE, "CREATE")?;
    let first = push_flag(text, first, flags, OpenFlags::EXCL, "EXCL")?;
    let first = push_flag(text, first, flags, OpenFlags::NOTRANS, "NOTRANS")?;
    let first = push_flag(text, first, flags, OpenFlags::NOLINK, "NOLINK")?;
    push_flag(text, first, flags, OpenFlags::DIRECTORY, "DIRECTORY")
}

/// Prints the names of flags, joined by commas, or `-` for none.
pub fn push_flags(text: &mut Vec<u8>, flags: OpenFlags) -> Result<(), AllocError>
    ensures { OnOk result (text.new.items ≡ text.old.items ++ flags_text flags) }
{
    let none = push_each_flag(text, flags)?;
    if none {
        text.push(b'-')?;
    }
    Ok(())
}

/// The name of a kind of retry.
pub fn retry_name(kind: RetryKind) -> &'static str
    ensures { result.now ≡ retry_name kind }
{
    match kind {
        RetryKind::Normal => "NORMAL",
        RetryKind::Reauth => "REAUTH",
        RetryKind::Magical => "MAGICAL",
    }
}

/// Prints a port after a space, where there is one.
fn push_port(text: &mut Vec<u8>, port: Option<u64>) -> Result<(), AllocError>
    ensures { OnOk result (text.new.items ≡ text.old.items ++ port_text port) }
{
    match port {
        Some(port) => push_number(text, port),
        None => Ok(()),
    }
}

/// Prints what a lookup found.
fn push_lookup(text: &mut Vec<u8>, found: &Lookup) -> Result<(), AllocError>
    ensures { OnOk result (text.new.items ≡ text.old.items ++ lookup_text found.now) }
{
    match found {
        Lookup::Done(port) => {
            text.extend_from_slice(b"Done")?;
            push_number(text, *port)
        }
        Lookup::Retry { kind, name, port } => {
            text.extend_from_slice(b"Retry ")?;
            text.extend_from_slice(retry_name(*kind).as_bytes())?;
            push_spaced(text, name.as_slice())?;
            push_port(text, *port)
        }
        Lookup::Start { words } => {
            text.extend_from_slice(b"Start")?;
            push_names(text, words.as_slice())
        }
    }
}

/// Prints a reply.
fn push_reply<S: Server>(text: &mut Vec<u8>, reply: &Reply<S>) -> Result<(), AllocError>
    ensures { OnOk result (text.new.items ≡ text.old.items ++ reply_text (reply_by S.meaning reply.now)) }
{
    match reply {
        Reply::Done => text.extend_from_slice(b"Done"),
        Reply::Found(found) => {
            text.extend_from_slice(b"Found ")?;
            push_lookup(text, found)
        }
        Reply::Port(port) => {
            text.extend_from_slice(b"Port")?;
            push_number(text, *port)
        }
        Reply::Data(bytes) => {
            text.extend_from_slice(b"Data ")?;
            push_bytes(text, bytes.as_slice())
        }
        Reply::Count(count) => {
            text.extend_from_slice(b"Count")?;
            push_number(text, *count)
        }
        Reply::Names(names) => {
            text.extend_from_slice(b"Names")?;
            push_names(text, names.as_slice())
        }
        Reply::Words(words) => {
            text.extend_from_slice(b"Words")?;
            push_names(text, words.as_slice())
        }
        Reply::Stat(stat) => push_stat(text, stat),
        Reply::Modes(flags) => {
            text.extend_from_slice(b"Modes ")?;
            push_flags(text, *flags)
        }
        Reply::Same(true) => text.extend_from_slice(b"Same true"),
        Reply::Same(false) => text.extend_from_slice(b"Same false"),
        Reply::Refused(errno) => {
            text.extend_from_slice(b"Refused ")?;
            text.extend_from_slice(errno.name().as_bytes())
        }
        Reply::Back(errno, _) => {
            text.extend_from_slice(b"Back ")?;
            text.extend_from_slice(errno.name().as_bytes())
        }
    }
}

/// What a call is answered: to its line, its reply, on a line after two spaces. Of a box that comes back nothing is printed. Fails only if memory runs out.
pub fn answered<S: Server>(
    alloc: Global,
    line: Bytes,
    reply: &Reply<S>,
) -> Result<Answer, AllocError>
    ensures { IfOk result (λ answer. answer ≡ answered line (reply_by S.meaning reply.now)) }
{
    let mut text = Vec::from_slice(alloc, b"  ")?;
    push_reply(&mut text, reply)?;
    text.push(b'\n')?;
    Ok(Answer {
        line,
        content: Content::Text(Bytes::new(text)),
        ending: Ending::Done,
    })
}
