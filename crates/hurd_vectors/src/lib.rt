//! A list of calls with its replies as JSON, for programs that replay it elsewhere: vectors.
//!
//! `print_vectors` reads a list, makes its calls over an empty tree in memory, and prints a line of JSON for each, after a first line with the ids of all tasks.
//! A call is told by the words of its line (`fields`), its reply by what the machine answers. A byte of a name, a path or a text is the character of that
//! number, so what is printed is printable ASCII in lines, whatever the bytes are.
//!
//! It reads no JSON, and makes no call of its own.
#![tactic(auto)]

mod calling;
mod field;
mod header;
mod json;
mod laws;
mod printing;
mod reply;
mod telling;

pub use laws::each_vector_is_a_line;
pub use printing::print_vectors;
