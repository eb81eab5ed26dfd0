//! The kinds of work that are measured.

/// What is done to one file.
#[derive(Clone, Copy, PartialEq, Eq, Debug)]
pub enum Work {
    /// It is made, written and closed.
    Create,
    /// It is opened, read and closed.
    Read,
    /// It is opened, its attributes are asked for, and it is closed.
    Stat,
    /// Its directory is opened, the file gets another name in it, and the directory is closed.
    Rename,
    /// A new file is made beside it, a server is put on that one, and that one is closed.
    Serve,
    /// Its directory is opened, the file with the server loses its name, so that both go, and the directory is closed.
    SendAway,
    /// Its directory is opened, its new name is taken away, and the directory is closed.
    Unlink,
}

impl Work {
    /// What is done before servers come.
    pub const BEFORE_SERVERS: [Work; 4] = [Work::Create, Work::Read, Work::Stat, Work::Rename];

    /// The name of the row.
    pub fn name(self) -> &'static str {
        match self {
            Work::Create => "create",
            Work::Read => "look up and read",
            Work::Stat => "stat",
            Work::Rename => "rename",
            Work::Serve => "serve",
            Work::SendAway => "send away",
            Work::Unlink => "unlink",
        }
    }
}
