// The numbers of the tasks that go by value.
ghost use Rattle.std.specs.Prelude.{◌≡◌, List, ℕ};
ghost use Rattle.plan.specs.Plan.{Task};
ghost use Rattle.tasks.specs.Tasks.{Tasks, Stand};
ghost use Rattle.tasks.specs.Playing.{finished};
ghost use Rattle.memory.specs.Memory.{TaskMemory, memory, HoldsTasks, fresh_tally, nothing_left};

// How many tasks there are; which is open in its creation, or is to be opened, and where it is open its next access; how many tasks are
// not over; how many messages and notices are pending.
#[derive(Clone, Copy)]
pub struct Tally {
    pub tasks: u64,
    pub task: u64,
    pub access: Option<u64>,
    pub left: u64,
    pub pending: u64,
}

// Of a plan of so many tasks, with nothing done. Law: `starts`.
pub fn fresh(tasks: u64) -> Tally
    ensures { result ≡ fresh_tally tasks }
{
    Tally {
        tasks,
        task: 0,
        access: None,
        left: tasks,
        pending: 0,
    }
}

// Whether the tasks are finished: all are over, and no message or notice is pending.
pub fn is_finished(n: Tally) -> bool
    ensures numbers { result ≡ nothing_left n }
    ensures meaning { (m : TaskMemory) (W : ℕ) (ts : List Task) (parts : ℕ → List ℕ) (t : Tasks) (st : ℕ → Stand) →
        HoldsTasks W ts (memory n m.rows m.accesses) parts t st → result ≡ finished W ts t st }
{
    n.left == 0 && n.pending == 0
}
