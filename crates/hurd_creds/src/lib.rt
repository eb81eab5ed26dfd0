//! Names, errors, bytes, and who may do what with a node.
//!
//! `Ids` are the user and group ids that a task or a port holds, `Attrs` what is told of a node, and
//! `Ids::may` whether these ids may read, write or search a node of these attributes. `Mode` and
//! `OpenFlags` are sets of bits. The other crates stand on this one: it also has the names of nodes,
//! servers and opens, how often names are counted, the errors, numbers in words (decimal or octal digits, without a sign), and the words in which contracts
//! speak of ENOMEM.
//!
//! It isn't a table of users: a task's ids are whatever its maker gave it.
#![tactic(auto)]

mod access;
mod attrs;
mod bytes;
pub mod counts;
mod decimal;
mod errno;
mod ids;
mod limits;
mod mode;
mod name;
mod octal;
mod open_flags;
mod same;
mod trans_flags;

pub use access::{group_bit, others_bit, unknown_bit};
pub use attrs::{Attrs, Kind, Stat, Want};
pub use bytes::Bytes;
pub use decimal::{long_number, number};
pub use errno::Errno;
pub use ids::Ids;
pub use limits::{MOST_NAME, MOST_PATH, MOST_READ, MOST_SCRIPT, MOST_SIZE, MOST_TASKS};
pub use mode::Mode;
pub use name::{Name, NodeName, OpenName, ServerName, TaskId, is_one};
pub use octal::octal_number;
pub use open_flags::OpenFlags;
pub use same::{Same, all_same};
pub use trans_flags::{GoawayFlags, TransFlags};
