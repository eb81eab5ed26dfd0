//! What a command or a call is answered.
ghost use Rattle.std.specs.Prelude.{◌≡◌, ◌++◌, ◌∷◌, ◌↔◌, [], IfOk, IsTrue, OnOk, if◌then◌else◌};
ghost use Rattle.hurd_words.specs.Answers.{as_lines, ended_lines, ending_line, plain, plain_content};

use hurd_creds::{Bytes, Errno, Same, all_same};
use hurd_trans_iface::Names;
use std::alloc::{AllocError, Global};

/// What a command put out.
#[derive(Debug, Drop)]
pub enum Content {
    /// Bytes, none where it put out nothing.
    Text(Bytes),
    /// Names of entries, each kept apart.
    Names(Names),
}

/// What ended a command.
#[derive(Clone, Copy, Debug, PartialEq, Eq)]
pub enum Ending {
    /// Nothing did: it is done.
    Done,
    /// A call was refused.
    Refused(Errno),
    /// Its words are not those that such a command has.
    Usage,
}

/// What a command or a call is answered.
#[derive(Debug, Drop)]
pub struct Answer {
    /// Its line, without a newline: as `alice$ cat /motd`.
    pub line: Bytes,
    /// What it put out. Of a call that is its reply.
    pub content: Content,
    /// What ended it.
    pub ending: Ending,
}

impl Content {
    /// Whether the same was put out. Takes no memory.
    pub fn is_same(&self, other: &Content) -> bool
        ensures { IsTrue result ↔ (self.now ≡ other.now) }
    {
        match (self, other) {
            (Content::Text(one), Content::Text(other)) => one.is_same(other),
            (Content::Names(one), Content::Names(other)) => {
                all_same(one.as_slice(), other.as_slice())
            }
            _ => false,
        }
    }
}

impl Ending {
    /// Whether these are the same. Takes no memory.
    pub fn is_same(self, other: Ending) -> bool
        ensures { IsTrue result ↔ (self ≡ other) }
    {
        match (self, other) {
            (Ending::Done, Ending::Done) => true,
            (Ending::Usage, Ending::Usage) => true,
            (Ending::Refused(one), Ending::Refused(other)) => one == other,
            _ => false,
        }
    }
}

/// Whether a text lacks its last newline.
fn lacks_newline(text: &[u8]) -> bool
    ensures { ended_lines text.now ≡ (if result then text.now ++ 10 ∷ [] else text.now) }
{
    match text.last() {
        Some(last) => *last != b'\n',
        None => false,
    }
}

/// Adds a text, and a newline where it lacks one.
fn push_text(text: &mut Vec<u8>, bytes: &[u8]) -> Result<(), AllocError>
    ensures { OnOk result (text.new.items ≡ text.old.items ++ ended_lines bytes.now) }
{
    text.extend_from_slice(bytes)?;
    if lacks_newline(bytes) {
        text.push(b'\n')?;
    }
    Ok(())
}

/// Adds names, one a line.
fn push_names(text: &mut Vec<u8>, names: &[Bytes]) -> Result<(), AllocError>
    ensures { OnOk result (text.new.items ≡ text.old.items ++ as_lines names.now) }
{
    for name in names {
        text.extend_from_slice(name.as_slice())?;
        text.push(b'\n')?;
    }
    Ok(())
}

/// Adds what was put out, with a newline at its end.
fn push_content(text: &mut Vec<u8>, content: &Content) -> Result<(), AllocError>
    ensures { OnOk result (text.new.items ≡ text.old.items ++ plain_content content.now) }
{
    match content {
        Content::Text(bytes) => push_text(text, bytes.as_slice()),
        Content::Names(names) => push_names(text, names.as_slice()),
    }
}

/// Adds the word for what ended a command, on a line.
fn push_ending(text: &mut Vec<u8>, ending: Ending) -> Result<(), AllocError>
    ensures { OnOk result (text.new.items ≡ text.old.items ++ ending_line ending) }
{
    match ending {
        Ending::Done => Ok(()),
        Ending::Refused(errno) => {
            text.extend_from_slice(errno.name().as_bytes())?;
            text.push(b'\n')?;
            Ok(())
        }
        Ending::Usage => text.extend_from_slice(b"usage\n"),
    }
}

impl Answer {
    /// Whether this is the same answer. Takes no memory.
    pub fn is_same(&self, other: &Answer) -> bool
        ensures { IsTrue result ↔ (self.now ≡ other.now) }
    {
        self.line.is_same(&other.line)
            && self.content.is_same(&other.content)
            && self.ending.is_same(other.ending)
    }

    /// The answer as `hurd run` prints it: its line, what was put out, and what ended it. Fails only if memory runs out.
    pub fn plain(&self, alloc: Global) -> Result<Vec<u8>, AllocError>
        ensures { IfOk result (λ text. text.items ≡ plain self.now) }
    {
        let mut text = Vec::from_slice(alloc, self.line.as_slice())?;
        text.push(b'\n')?;
        push_content(&mut text, &self.content)?;
        push_ending(&mut text, self.ending)?;
        Ok(text)
    }
}

impl Same for Answer {
    fn same(&self, other: &Answer) -> bool {
        self.is_same(other)
    }
}
