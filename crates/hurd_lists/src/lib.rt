//! Lists of calls: which tasks there are, which calls they make, and how replies are printed.
//!
//! A list is lines, each ended by a newline, which the last may lack. `parse_calls` reads one: first come the tasks, a line
//! `task UIDS GIDS` each, in order from task 0, then calls, a line `TASK CALL ARG..` each. Lines that are empty, only spaces
//! or begin with `#` are skipped. Words are of printable ASCII, between spaces; in a word `\s` is a space, `\n` a newline,
//! `\\` a backslash and `\xHH` the byte of two hexadecimal digits. `call_of` says which call a name and its arguments make,
//! and `answered` is what a call is answered. `ListFlaw` says why a line is bad. `read_line` reads a line of a list that comes a line at a time. To print a list in another form there are `words_of` for the words of a line,
//! `verb_named` for what its call is, and the names that replies have: `kind_name`, `retry_name`, `push_flags`, `push_high_digits`.
//!
//! It makes no call: that is the world's. Nor does it make the server that a call brings: it reads the words of it.
#![tactic(auto)]

mod arguments;
mod calls;
mod flaw;
mod reader;
mod replies;
mod verb;
mod words;

pub use calls::with_server;
pub use flaw::{LineFault, ListFlaw};
pub use reader::{CallList, LineSaid, ListFault, ListedCall, parse_calls, read_line, verb_named};
pub use replies::{answered, kind_name, push_flags, push_high_digits, retry_name};
pub use verb::Verb;
pub use words::words_of;
