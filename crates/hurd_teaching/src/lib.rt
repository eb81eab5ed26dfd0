//! What some tasks see of a world, and what they learn while a text goes on: who learns, what is said after what each task did, where it is asked what
//! they see, and what is shown then.
//!
//! `learn_text` begins a text and prints all that it tells, with what those that WHO names learn. `see_text` prints what they see at its end. `reached`, `seen`, `look` and `view_of` tell of a
//! world as it is which ids a set of tasks can act with, which nodes it sees, each with why, which parts, and all that it sees with its values. A `Watch`
//! keeps what some tasks saw, and says what they learned since.
//!
//! `draw_text` begins a text, goes to its end, and prints a picture of all that its tasks see there together, for Graphviz. If some are named, it is marked what
//! these see of it; and, if that is wanted, what users other than root could show them.
#![tactic(auto)]

mod aides;
mod drawing;
mod laws;
mod learners;
mod learning;
mod limits;
mod looks;
mod naming;
mod owners;
mod seeing;
mod sights;
mod steps;
mod telling;
mod watch;

pub use aides::is_root_task;
pub use drawing::{draw_text, helped_picture, marked_picture, plain_picture};
pub use laws::{
    lessons_are_sentences, one_picture_is_drawn, one_sight_is_printed, one_text_is_printed,
    outputs_are_read_back, shortened_are_sentences,
};
pub use learners::Learners;
pub use learning::learn_text;
pub use limits::shortened;
pub use naming::{Naming, learners_at_once, learners_of, tasks_of};
pub use owners::{all_tasks, copied_names};
pub use seeing::{look, reached, seen, view_of};
pub use sights::see_text;
pub use steps::tell_next;
pub use telling::{look_before, paragraph, said, said_if_moved, shown};
pub use watch::Watch;
