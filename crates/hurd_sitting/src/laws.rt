//! What sittings are worth.
ghost use Rattle.hurd_sitting.specs.Laws.{CallsAreOne, TextsAreOne};

/// A law: calls that are made one text after another tell what they tell as one list, and leave the same world.
pub fn calls_are_one()
    ensures { CallsAreOne }
{}

/// A law: a list and then a text, joined by a newline, tell what they tell one after another, and leave the same world.
pub fn texts_are_one()
    ensures { TextsAreOne }
{}
