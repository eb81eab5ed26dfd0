//! How some users could be told what they learn: for each line of it a command of theirs that gets a different reply before and after what was done.
//!
//! `find_text` prints what `learn_text` of `hurd_teaching` prints, and after each line of what is learned a witness: a command of one of these users on the
//! place that the line names, with both answers. Each command is tried at the end of two scripts, of which one ends before what was done and the other with
//! it; both are made anew for each trial, since no world can be copied. At most 16 commands are tried of a line.
//!
//! A witness is a sample, no bound: where none is found, others may be.
//!
//! `witness_of` looks for one between any two texts, among any commands: `trials_on` gives those on a path, `text_up_to` a script up to a command, and `push_shown`
//! prints what was found.
#![tactic(auto)]

mod answers;
mod children;
mod finding;
mod hunt;
mod laws;
mod lines;
mod places;
mod shown;
mod trials;
mod witness;

pub use finding::{find_text, lines_before};
pub use hunt::text_up_to;
pub use laws::{one_finding_is_printed, witnesses_tell};
pub use places::{part_at, scripted};
pub use trials::trials_on;
pub use witness::{Witness, push_shown, witness_of};
