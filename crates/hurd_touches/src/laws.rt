//! The laws of what is noted.
ghost use Rattle.hurd_touches.specs.Unnoticed.{NotedCall, NotedNothing};

/// A law: where some calls were noted, whoever sees none of the noted parts before them has the same view after them.
pub fn noted_calls_are_unnoticed()
    ensures { NotedCall }
{}

/// A law: where no calls were made, each view is what it was.
pub fn nothing_is_unnoticed()
    ensures { NotedNothing }
{}
