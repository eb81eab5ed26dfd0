//! What `./release` writes: it alone edits this file, in a copy.

/// What `hurd --version` tells. In a release the commit is in place of the words between parentheses.
pub const VERSION: &str = "0.1.0 (not a release)";
