// A worker's dealings with a device: it is given the tasks that are ready, and it holds them out or has them received.
ghost use Rattle.std.specs.Prelude.{◌≡◌, List, ◌∷◌, ℕ, ◌<◌, length, get_or};
ghost use Rattle.tasks.specs.History.{gives, holds, takes, receives};
ghost use Rattle.memory.specs.Layout as layout;
ghost use Rattle.memory.specs.Shares.{standing, oldest_add, without_add};
ghost use Rattle.memory.specs.Rows.{task_row, held_rows, received_rows};
ghost use Rattle.memory.specs.Memory.{TaskMemory, memory, Able, Does};

use memory::layout;
use memory::rows::{Status, TaskRow};
use memory::share::{stand, take_add};

// Gives the oldest task to add to the device.
pub fn give(own: &mut [u64]) -> u64
    requires { ((m : TaskMemory) × (w : ℕ) × Able m own.old w) × (0 < get_or own.old layout.adds_count 0) }
    ensures numbers { (result ≡ oldest_add own.old) × (own.new ≡ without_add own.old) }
    ensures meaning { (m : TaskMemory) (k w i : ℕ) (is : List ℕ) →
        Does (gives i is) k m own.old m own.new w }
    ensures oldest { (m : TaskMemory) (w : ℕ) (a : Able m own.old w) (i : ℕ) (is : List ℕ) →
        a.t.adds w ≡ i ∷ is → result ≡ i }
{
    take_add(own)
}

// The device holds a task out.
pub fn hold(rows: &mut [TaskRow], task: u64)
    requires { task < length rows.old }
    ensures numbers { rows.new ≡ held_rows rows.old task }
    ensures meaning { (m : TaskMemory) (own : List ℕ) (k w : ℕ) → Does (holds task) k
        (memory m.tally rows.old m.accesses) own (memory m.tally rows.new m.accesses) own w }
{
    rows[task as usize].status = Status::Held;
}

// A task is received by worker w at a time: from the device itself, or one that it held out.
pub fn receive(rows: &mut [TaskRow], own: &mut [u64], task: u64, w: u64, time: u64)
    requires { (task < length rows.old) × (length own.old ≡ layout.part) }
    ensures numbers { (rows.new ≡ received_rows rows.old task w time)
        × (own.new ≡ standing own.old layout.working task (task_row rows.old task).cost) }
    ensures meaning { (m : TaskMemory) →
        let before = memory m.tally rows.old m.accesses in
        let after = memory m.tally rows.new m.accesses in
        Does (takes task) time before own.old after own.new w
        × Does (receives task) time before own.old after own.new w }
{
    let row = &mut rows[task as usize];
    row.status = Status::Running;
    row.runner = w;
    row.receipt = time;
    stand(own, layout::WORKING, task, row.cost);
}
