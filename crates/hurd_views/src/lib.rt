//! All that a set of tasks sees of a world, with its values.
//!
//! `View` keeps under each name what is seen of the node, the open or the server of that name, to be compared with what is seen later.
#![tactic(auto)]

mod rows;
mod told;
mod view;

pub use rows::{
    BodyRow, EntryRow, EntryRows, NodeNames, NodeRow, OpenRow, Row, ServerRow, TextRow,
    same_attributes,
};
pub use view::{Rows, SeatRow, View, rows_are_views, views_stay, views_tell_parts};
