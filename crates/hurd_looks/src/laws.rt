//! What it is worth that two views are the same except for names.
ghost use Rattle.hurd_looks.specs.Looks.{AlikeLooks};

/// A law: where some tasks have views of two sound worlds that are the same except for names of what others made, the one world looks to them
/// as the other does, by other names. So `own_from_looks` holds of what they do next.
pub fn alike_views_look_the_same()
    ensures { AlikeLooks }
{}
