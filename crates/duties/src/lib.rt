// What a worker does with the tasks, in code: `specs/Memory.antt` of the crate `memory` says how the tasks lie in what is lent here. Each
// function is lent the arrays that it may change and no others, so no struct holds them here.

#![tactic(auto)]

pub mod create; // create.rt: the tasks are created
mod deliver; // deliver.rt: messages and notices
pub mod device; // device.rt: dealings with a device
mod flags; // flags.rt: the flags of an access
pub mod mind; // mind.rt: a worker's duty
mod work; // work.rt: a worker with a task
