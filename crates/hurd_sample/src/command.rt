//! Commands of a sample, and how they are written.
ghost use Rattle.std.specs.Prelude.{◌≡◌, ◌++◌, OnOk, map, string_bytes};
ghost use Rattle.hurd_sample.specs.Written.{command_text, spaced, user_word, verb_word, written, written_byte};

use hurd_script::Verb;
use std::alloc::{AllocError, Global};

/// Who gives a command: root, or one of the users that a sample declares.
#[derive(Clone, Copy, Debug, PartialEq, Eq)]
pub enum User {
    Root,
    Alice,
    Bob,
    Carol,
}

impl User {
    /// The name.
    fn word(self) -> &'static str
        ensures { result.now ≡ user_word self }
    {
        match self {
            User::Root => "root",
            User::Alice => "alice",
            User::Bob => "bob",
            User::Carol => "carol",
        }
    }
}

/// What a command is called.
fn verb_word(verb: Verb) -> &'static str
    ensures { result.now ≡ verb_word verb }
{
    match verb {
        Verb::Cat => "cat",
        Verb::Ls => "ls",
        Verb::Put => "put",
        Verb::Mkdir => "mkdir",
        Verb::Rm => "rm",
        Verb::Rmdir => "rmdir",
        Verb::Ln => "ln",
        Verb::Mv => "mv",
        Verb::Chmod => "chmod",
        Verb::Chown => "chown",
        Verb::Settrans => "settrans",
        Verb::Showtrans => "showtrans",
        Verb::Fsysopts => "fsysopts",
    }
}

/// A command that was drawn: its words are any texts.
#[derive(Debug, Drop)]
pub struct Drawn {
    pub user: User,
    pub verb: Verb,
    pub words: Vec<String>,
}

impl Drawn {
    /// A command with these words.
    pub fn new(alloc: Global, user: User, verb: Verb, words: &[&str]) -> Result<Drawn, AllocError> {
        let mut owned = Vec::new(alloc);
        for word in words {
            owned.push(String::from_str(alloc, word)?)?;
        }
        Ok(Drawn {
            user,
            verb,
            words: owned,
        })
    }

    /// One word more.
    pub fn with(mut self, word: String) -> Result<Drawn, AllocError> {
        self.words.push(word)?;
        Ok(self)
    }

    /// Writes the command on a line of its own.
    pub fn push(&self, text: &mut Vec<u8>) -> Result<(), AllocError>
        ensures { OnOk result (text.new.items ≡ text.old.items ++ command_text self.now) }
    {
        text.extend_from_slice(self.user.word().as_bytes())?;
        text.push(b' ')?;
        text.extend_from_slice(verb_word(self.verb).as_bytes())?;
        push_words(text, self.words.as_slice())?;
        text.push(b'\n')?;
        Ok(())
    }
}

/// Writes words, each after a space.
fn push_words(text: &mut Vec<u8>, words: &[String]) -> Result<(), AllocError>
    ensures { OnOk result (text.new.items ≡ text.old.items ++ spaced (map string_bytes words.now)) }
{
    for word in words {
        text.push(b' ')?;
        push_word(text, word.as_bytes())?;
    }
    Ok(())
}

/// Writes a word, as a script spells it.
fn push_word(text: &mut Vec<u8>, word: &[u8]) -> Result<(), AllocError>
    ensures { OnOk result (text.new.items ≡ text.old.items ++ written word.now) }
{
    for byte in word {
        push_byte(text, *byte)?;
    }
    Ok(())
}

/// Writes a byte of a word; a question mark stands for one that a script can't spell.
fn push_byte(text: &mut Vec<u8>, byte: u8) -> Result<(), AllocError>
    ensures { OnOk result (text.new.items ≡ text.old.items ++ written_byte byte) }
{
    match byte {
        b' ' => text.extend_from_slice(b"\\s")?,
        b'\n' => text.extend_from_slice(b"\\n")?,
        b'\\' => text.extend_from_slice(b"\\\\")?,
        33..=126 => text.push(byte)?,
        _ => text.push(b'?')?,
    }
    Ok(())
}
