//! What is printed of a record.
ghost use Rattle.std.specs.Prelude.{◌≡◌};
ghost use Rattle.std.specs.Option.{option_map};
ghost use Rattle.hurd_record.specs.Reports.{word_of};

/// What is printed of a record.
#[derive(Debug, Drop)]
pub enum Report {
    /// Each call with its reply.
    Transcript,
    /// That, with what some learn by the calls of others, and a last line. Here and below, these are tasks by their numbers, between commas. At most `most` bytes
    /// of each lesson are printed, if that is given.
    Lessons { who: String, most: Option<usize> },
    /// All that some see at the end, of which at most `most` bytes are printed.
    Sight { who: String, most: Option<usize> },
    /// A picture of the world at the end. It is marked what some see, if any are named; with `can`, also what users other than root could show them.
    Picture { who: Option<String>, can: bool },
}

impl Report {
    /// Those whom it names, if it names any.
    pub(crate) fn who(&self) -> Option<&str>
        ensures { option_map (λ s. s.now) result ≡ word_of self.now }
    {
        match self {
            Report::Transcript => None,
            Report::Lessons { who, .. } | Report::Sight { who, .. } => Some(who.as_str()),
            Report::Picture { who: Some(who), .. } => Some(who.as_str()),
            Report::Picture { who: None, .. } => None,
        }
    }
}
