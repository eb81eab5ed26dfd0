//! Two scripts side by side: whether some users can tell them apart, and where.
//!
//! `compare_scripts` runs both, and compares what some users see whenever they are to do something, and the replies that they get. A pair of scripts has the
//! same users, and these users' commands are the same in both: so what differs is what the others do.
//! The law `different_reply_implies_different_view` says what that is worth.
#![tactic(auto)]

mod comparing;
mod difference;
mod laws;
mod lines;
mod matching;
mod own;
mod reports;
mod scripts;

pub use difference::{Compared, Difference, Mismatch, PairFault, Verdict};
pub use laws::{different_reply_implies_different_view, one_report_is_printed};
pub use lines::line_in_script;
pub use scripts::compare_scripts;
