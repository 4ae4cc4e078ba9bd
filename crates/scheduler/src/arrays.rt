// The arrays of a run, in fixed memory: they travel together from pick to pick, and a step is lent those that it needs.
ghost use Rattle.std.specs.Prelude.{◌≡◌, length};
ghost use Rattle.memory.specs.Layout.{most_tasks, most_accesses};
ghost use Rattle.steps.specs.Layout.{most_slots, most_workers};
ghost use Rattle.steps.specs.Memory.{LongDevice};

use memory::layout::{MOST_ACCESSES, MOST_TASKS, MOST_WORKERS};
use memory::rows::{AccessRow, TaskRow};
use steps::device::Device;
use steps::layout::MOST_SLOTS;

// By slot of the ring, `wait` and `registrations`; by worker, `tickets` and `cells`; what the device keeps; the rows of tasks and accesses.
// `long` has the lengths of all: of the types a proof is told some alone.
#[derive(Drop)]
pub struct Arrays {
    pub wait: [u64; MOST_SLOTS],
    pub registrations: [u64; MOST_SLOTS],
    pub tickets: [u64; MOST_WORKERS],
    pub cells: [u64; MOST_WORKERS],
    pub device: Device,
    pub rows: [TaskRow; MOST_TASKS],
    pub accesses: [AccessRow; MOST_ACCESSES],
    pub ghost long: { (length wait ≡ most_slots) × (length registrations ≡ most_slots) × (length tickets ≡ most_workers)
        × (length cells ≡ most_workers) × LongDevice device × (length rows ≡ most_tasks)
        × (length accesses ≡ most_accesses) },
}
