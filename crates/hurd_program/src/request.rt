//! What is asked of a text.

/// What sort of text it is.
#[derive(Clone, Copy, Debug, PartialEq, Eq)]
pub enum TextSort {
    /// A script of several users' commands.
    Script,
    /// A list of several tasks' calls.
    Calls,
}

/// What is asked of it.
#[derive(Debug, Drop)]
pub enum Verb {
    /// What it tells: a transcript, or each call with its reply.
    Run,
    /// That, and what some learn by what the others do. Here and below, these are users by their names, or tasks by their numbers, between commas. Of a lesson,
    /// and of what they see each time that the text asks, at most `most` bytes are printed.
    Learn { who: String, most: Option<usize> },
    /// All that some see at the end, of which at most `most` bytes are printed.
    See { who: String, most: Option<usize> },
    /// What could be shown some at the end, and with whose help: bytes, entries and nodes, or every part; and how, if that is wanted.
    Can { who: String, every: bool, how: bool },
    /// A picture of the world at the end. It is marked what some see, if any are named; with `can`, also what users other than root could show them.
    Draw { who: Option<String>, can: bool },
}

/// What is asked of a text.
#[derive(Debug, Drop)]
pub struct Request {
    pub sort: TextSort,
    pub verb: Verb,
}
