//! How far a session is with the command that it is at.
use crate::stages::{KeptStage, Waiting};
use hurd_creds::Errno;

/// How far a session is with the command that it is at.
#[derive(Debug, Drop)]
pub(crate) enum Phase {
    /// The command was not begun.
    Between,
    /// It waits for a server.
    Waiting(Waiting),
    /// It waited at this stage, and was answered: with a server, or with this refusal.
    Answered(KeptStage, Result<(), Errno>),
    /// Memory was refused, and nothing more is told.
    Failed,
}
