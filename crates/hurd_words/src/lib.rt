//! Texts by their parts: lines, words with escapes, modes, and lists of ids and users.
//!
//! A text is lines, each ended by a newline; lines that are empty, only spaces or begin with `#` are skipped. Words are of
//! printable ASCII, between spaces; in a word `\s` is a space, `\n` a newline and `\\` a backslash. Modes are octal digits without a
//! sign; ids are decimal numbers joined by commas, or `-` for none.
//!
//! What is printed in several places is here too: attributes as `ls -d` prints them, modes, numbers, words as scripts spell them
//! (`printing`), and bytes, each by an escape where no word has it as it is (`escapes`).
//!
//! Programs say what is learned and seen in sentences. A sentence is a line of clauses between colons, of parts between commas, of words
//! between spaces. `push_spelled` and `push_spelled_name` (`spelling`) spell bytes of users so that none of them looks like one of these; `push_marked`
//! (`marks`) prints a text of a user's with a mark before each of its lines but the first. So what is printed can be read back: `read_back`
//! (`sentences`).
//!
//! It knows no script and no list of calls: those are read by the crates above.
#![tactic(auto)]

pub mod answers;
pub mod escapes;
pub mod fault;
pub mod lines;
pub mod marks;
pub mod modes;
pub mod printing;
pub mod sentences;
pub mod spelling;
pub mod users;
pub mod words;
