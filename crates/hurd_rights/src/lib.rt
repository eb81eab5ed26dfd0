//! Calls on ports and ids alone.
//!
//! `port_deallocate` gives up a port, `port_send` gives a copy of its right to a task, `port_receive` takes a right that was
//! sent, and `auth_makeauth` gives a task other ids. What each answers and changes is its plan in `specs/Rights`.
#![tactic(auto, unfolding(hurd_machine::specs::Plan::answered, hurd_machine::specs::Plan::first, hurd_machine::specs::Plan::given))]

pub mod rights;
