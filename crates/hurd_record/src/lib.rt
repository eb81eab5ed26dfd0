//! A record: a list of calls of any length, judged while it is read, in memory that grows with its world and not with its length.
//!
//! `perform_record` reads a record from a reader, makes each call as soon as its line is read, and prints what is asked: each call with its reply, also with
//! what some tasks learn by it; or, at the end, what these see, or a picture. A bad line ends a record: what comes before it is printed as if the record ended
//! there. Each line may be as long as a list. Comments are only comments: lessons begin at once, and nothing is shown on the way.
#![tactic(auto)]

mod begun;
mod ending;
mod judging;
mod performing;
mod report;

pub use performing::perform_record;
pub use report::Report;
