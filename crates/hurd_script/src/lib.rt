//! Scripts: who the users are, which commands they give, and what the words of a command ask for.
//!
//! A script is lines, each ended by a newline, which the last may lack. `parse_script` reads one: first
//! come the users, a line `user NAME UIDS GIDS` each, then commands, a line `NAME COMMAND WORD..` each.
//! Lines that are empty, only spaces or begin with `#` are skipped. Words are of printable ASCII, between
//! spaces; in a word `\s` is a space, `\n` a newline and `\\` a backslash. `Command::action` says what the
//! words of a command ask for; `ScriptFlaw` says why a line is bad. The commands are `cat NODE`, `ls [-d] NODE`, `put NODE TEXT`, `mkdir NODE`,
//! `rm NODE`, `rmdir NODE`, `ln FILE NEW`, `mv OLD NEW`, `chmod MODE NODE`, `chown OWNER GROUP NODE`,
//! `settrans [-apcxgkfo] NODE [WORD..]`, `showtrans NODE` and `fsysopts NODE [WORD..]`.
//!
//! It runs no command and knows no node: it isn't a shell.
#![tactic(auto)]

mod actions;
mod command;
mod flaw;
mod header;
mod places;
mod reader;
mod settrans;
mod usage;

pub use command::{Action, Command, Verb, same_texts};
pub use flaw::ScriptFlaw;
pub use places::EntryPlace;
pub use reader::{Script, ScriptFault, parse_script};
pub use settrans::SettransFlags;
