//! What a set of tasks learns between two looks at a world, in words.
//!
//! `lessons` writes a line for each thing of which they see something else than before, and nothing where nothing differs. A line says
//! where the thing is, and what of it changed, as `  alice learns: /home/bob: mode 755 -> 700, entries no longer seen`. `seen` writes all that they
//! see at one look, as `  alice sees: /home/bob: d000755 1 1001 1001 0, served by / (server), entries notes`. `tell_apart` writes a line for each thing that
//! they don't see alike in two scripts, as `  alice sees: /tmp/x: size 3 -> 4`.
#![tactic(auto)]

mod beside;
mod changes;
mod differences;
mod laws;
mod lines;
mod opens;
mod seen_lines;
mod seen_parts;
mod seen_tasks;
mod tally;
mod values;

pub use beside::tell_apart;
pub use laws::{
    mates_are_mutual, nothing_between, said_in_one_way, said_in_sentences, untaught_where_unmoved,
};
pub use lines::{lessons, silent_where_same};
pub use seen_lines::seen;
pub use tally::Tally;
