// The plan text: see specs/ for what a text means and how it is refused. Here are the readers of its own fields, its form and the
// seeded picks; the crate `reader` reads whole texts.

#![tactic(auto)]

pub mod access; // access.rt: an access
pub mod field; // field.rt: labels and accesses
pub mod form; // form.rt: the form of a plan
pub mod order; // order.rt: an order line
pub mod seed; // seed.rt: seeded picks
