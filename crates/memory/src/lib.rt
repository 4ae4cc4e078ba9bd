// How tasks and accesses lie in their rows, and a worker in its share. `specs/Memory.antt` says when a memory holds the tasks.

#![tactic(auto)]

pub mod codes; // codes.rt: numbers that there may be, in a store
pub mod labels; // labels.rt: where the labels stand in the plan's text
pub mod layout; // layout.rt: the names of what lies where
pub mod rows; // rows.rt: the rows of tasks and accesses
pub mod share; // share.rt: the tasks' part of a worker's share
pub mod tally; // tally.rt: the numbers that go by value
