//! What it means that a node is marked, and what may stand in a label.
ghost use Rattle.hurd_pictures.specs.Laws.{DrawnHelpedWhereMore, DrawnUnseenWhereUnseen, LabelsArePlain};

/// A law: with no wider view, a node is drawn as unseen exactly where those marked see neither its attributes nor what is in it.
pub fn drawn_unseen_where_unseen()
    ensures { DrawnUnseenWhereUnseen }
{}

/// A law: with a wider view a node is drawn as what others could show more of exactly where that view shows more of it.
pub fn drawn_helped_where_more()
    ensures { DrawnHelpedWhereMore }
{}

/// A law: whatever bytes a name or a text has, in a label they are neither markup nor the end of a text.
pub fn labels_are_plain()
    ensures { LabelsArePlain }
{}
