//! Limits that several crates speak of.

/// How many bytes a path may have, and a link's target.
pub const MOST_PATH: usize = 1024;

/// How many bytes a name may have.
pub const MOST_NAME: usize = 255;

/// How many bytes a file may have.
pub const MOST_SIZE: u64 = 16_777_216;

/// How many bytes one read gives at most.
pub const MOST_READ: u64 = 65_536;

/// How many tasks there may be.
pub const MOST_TASKS: usize = 64;

/// How many bytes a script or a list of calls may have.
pub const MOST_SCRIPT: usize = 1_048_576;
