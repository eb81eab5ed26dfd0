//! Files and directories: sizes, names, owners, modes, and what ids may.
//!
//! `file_set_size` cuts or grows a file that a port has open, `dir_readdir` tells the names in a directory, or in
//! those that a union shows as one; what they answer and change is in `specs/Files` and `specs/Listing`. `file_check_access` tells what a port's ids may, `file_chmod` sets the mode of a
//! node and `file_chown` its owner and group, as `specs/Access` says.
#![tactic(auto)]

pub mod access;
pub mod files;
mod listing;
