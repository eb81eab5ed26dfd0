//! Commands and what they ask for.
ghost use Rattle.std.specs.Prelude.{◌≡◌, ◌↔◌, IfOk, IsTrue, map, string_bytes};
ghost use Rattle.hurd_script.specs.Actions.{action_of};
ghost use Rattle.hurd_script.specs.Commands.{CommandLine, verb_of};

use crate::actions;
use crate::places::EntryPlace;
use crate::settrans::SettransFlags;
use hurd_creds::{Bytes, Mode, TaskId};
use hurd_trans_iface::Words;
use std::alloc::{AllocError, Global};
use std::marker::Model;

/// What a command is called.
#[derive(Clone, Copy, Debug, PartialEq, Eq)]
pub enum Verb {
    Cat,
    Ls,
    Put,
    Mkdir,
    Rm,
    Rmdir,
    Ln,
    Mv,
    Chmod,
    Chown,
    Settrans,
    Showtrans,
    Fsysopts,
}

/// A command with its words.
#[derive(Debug, Drop)]
pub enum Action {
    Cat {
        node: Bytes,
    },
    Ls {
        node: Bytes,
    },
    /// `ls -d`: the node itself is shown, whatever kind it is of.
    Stat {
        node: Bytes,
    },
    Put {
        node: Bytes,
        text: Bytes,
    },
    Mkdir {
        place: EntryPlace,
    },
    Rm {
        place: EntryPlace,
    },
    Rmdir {
        place: EntryPlace,
    },
    /// A new entry for a file.
    Ln {
        file: Bytes,
        new: EntryPlace,
    },
    Mv {
        old: EntryPlace,
        new: EntryPlace,
    },
    Chmod {
        mode: Mode,
        node: Bytes,
    },
    Chown {
        owner: u32,
        group: u32,
        node: Bytes,
    },
    Showtrans {
        node: Bytes,
    },
    /// New options for the server of a node; without words its options are shown.
    Fsysopts {
        node: Bytes,
        words: Words,
    },
    /// A translator of these words on a node.
    Settrans {
        flags: SettransFlags,
        node: Bytes,
        words: Words,
    },
    /// The words are none that the command takes.
    Usage,
}

/// A command line of a script, with the task that makes it.
#[derive(Debug, Drop)]
pub struct Command {
    task: TaskId,
    header: Bytes,
    verb: Verb,
    words: Vec<String>,
}

impl Model for Command {
    ghost use Rattle.std.specs.Prelude.{map, string_bytes};
    ghost use Rattle.hurd_script.specs.Commands.{CommandLine, coded_command};

    ghost Value = { CommandLine };

    ghost coded = { coded_command };

    ghost view = { λ c. record { task = c.task.0; header = c.header; verb = c.verb; words = map string_bytes c.words.items } };
}

impl Command {
    /// A command of these parts.
    pub(crate) fn new(task: TaskId, header: Bytes, verb: Verb, words: Vec<String>) -> Command
        ensures { result ≡ record { task = task.0; header = header; verb = verb; words = map string_bytes words.items } }
    {
        Command {
            task,
            header,
            verb,
            words,
        }
    }

    /// The task that makes the command.
    pub fn task(&self) -> TaskId
        ensures { result.0 ≡ self.now.task }
    {
        self.task
    }

    /// What a transcript writes before the command's output.
    pub fn header(&self) -> &[u8]
        ensures { result.now ≡ self.now.header }
    {
        self.header.as_slice()
    }

    /// Whether these are the same command of the same task, written in the same way. Takes no memory.
    pub fn is_same(&self, other: &Command) -> bool
        ensures { IsTrue result ↔ (self.now ≡ other.now) }
    {
        self.task.0 == other.task.0
            && self.verb == other.verb
            && self.header.is_same(&other.header)
            && same_texts(self.words.as_slice(), other.words.as_slice())
    }

    /// What the words ask for. Clap reads those with flags.
    ///
    /// A word that begins with `-`, other than `-` itself, is a flag. `ls` takes the flag `-d`, once at most,
    /// `settrans` takes `-a`, `-p`, `-c`, `-x`, `-g`, `-k`, `-f` and `-o`, also joined as in `-ac`, each once at most
    /// and `-k` beside none of `-a`, `-g` and `-o`; no other command takes one. Flags may stand anywhere among the
    /// words; those of `settrans` stand in front of its node, and the words after the nodes of `settrans` and
    /// `fsysopts` are taken as they stand, at most 32 of 4,096 bytes in all.
    ///
    /// `cat`, `ls`, `mkdir`, `rm`, `rmdir` and `showtrans` take one node, `put` a node and a text, `ln` and `mv` two
    /// nodes, `chmod` a mode and a node, `chown` an owner, a group and a node. A mode is one to six octal digits of
    /// known bits, an owner or a group a decimal number below 2 to the 32nd; zeros may lead, and no sign. Any other
    /// words are `Usage`. Fails only if memory runs out.
    pub fn action(&self, alloc: Global) -> Result<Action, AllocError>
        ensures { IfOk result (λ action. action ≡ action_of self.now) }
    {
        let words = self.words.as_slice();
        match self.verb {
            Verb::Cat => actions::cat(alloc, words),
            Verb::Ls => actions::ls(alloc, words),
            Verb::Put => actions::put(alloc, words),
            Verb::Mkdir => actions::mkdir(alloc, words),
            Verb::Rm => actions::rm(alloc, words),
            Verb::Rmdir => actions::rmdir(alloc, words),
            Verb::Ln => actions::ln(alloc, words),
            Verb::Mv => actions::mv(alloc, words),
            Verb::Chmod => actions::chmod(alloc, words),
            Verb::Chown => actions::chown(alloc, words),
            Verb::Settrans => actions::settrans(alloc, words),
            Verb::Showtrans => actions::showtrans(alloc, words),
            Verb::Fsysopts => actions::fsysopts(alloc, words),
        }
    }
}

/// Whether these are the same text.
fn same_text(some: &String, other: &String) -> bool
    ensures { IsTrue result ↔ (string_bytes some.now ≡ string_bytes other.now) }
{
    some.as_bytes() == other.as_bytes()
}

/// Whether these are the same texts in the same order. Takes no memory.
pub fn same_texts(some: &[String], others: &[String]) -> bool
    ensures { IsTrue result ↔ (map string_bytes some.now ≡ map string_bytes others.now) }
{
    if some.len() != others.len() {
        return false;
    }
    for i in 0..some.len() {
        if !same_text(&some[i], &others[i]) {
            return false;
        }
    }
    true
}

/// The command of a name.
pub fn verb_of(word: &str) -> Option<Verb>
    ensures { result ≡ verb_of word.now }
{
    match word {
        "cat" => Some(Verb::Cat),
        "ls" => Some(Verb::Ls),
        "put" => Some(Verb::Put),
        "mkdir" => Some(Verb::Mkdir),
        "rm" => Some(Verb::Rm),
        "rmdir" => Some(Verb::Rmdir),
        "ln" => Some(Verb::Ln),
        "mv" => Some(Verb::Mv),
        "chmod" => Some(Verb::Chmod),
        "chown" => Some(Verb::Chown),
        "settrans" => Some(Verb::Settrans),
        "showtrans" => Some(Verb::Showtrans),
        "fsysopts" => Some(Verb::Fsysopts),
        _ => None,
    }
}
