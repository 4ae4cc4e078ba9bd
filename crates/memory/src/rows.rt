// The rows of tasks and accesses. `specs/Rows.antt` says what they tell of a plan's tasks.
ghost use Rattle.std.specs.Prelude.{◌≡◌, ◌<◌, length};
ghost use Rattle.memory.specs.Rows.{new_task, outcome_at};

// What has become of a task.
#[derive(Clone, Copy, PartialEq, Eq, PartialOrd, Ord)]
pub enum Status {
    New,
    Waiting,
    Ready,
    Held,
    Running,
    Over,
}

// A task: its count, what has become of it, who runs it, and the times of its receipt and its ending; of the plan, what it costs, the
// number of its first access, and how many there are. Runner and times are no part of the status: `TaskRows` has them of every task.
#[derive(Clone, Copy)]
pub struct TaskRow {
    pub count: u64,
    pub status: Status,
    pub runner: u64,
    pub receipt: u64,
    pub ending: u64,
    pub cost: u64,
    pub first: u64,
    pub accesses: u64,
}

// An access: its flags; of the plan, its task, whether it only reads, the access before it at its address, if there is one, the number of
// the one after it, and the address, which serves only to lay the rows.
#[derive(Clone, Copy)]
pub struct AccessRow {
    pub flags: u64,
    pub task: u64,
    pub reader: bool,
    pub prev: Option<u64>,
    pub next: u64,
    pub address: u64,
}

// What stands where no task and no access is laid yet.
pub const NO_TASK: TaskRow = TaskRow {
    count: 0,
    status: Status::New,
    runner: 0,
    receipt: 0,
    ending: 0,
    cost: 0,
    first: 0,
    accesses: 0,
};

pub const NO_ACCESS: AccessRow = AccessRow {
    flags: 0,
    task: 0,
    reader: false,
    prev: None,
    next: 0,
    address: 0,
};

// What has become of a task, who runs it, and the times of its receipt and its ending.
#[derive(Clone, Copy)]
pub struct Outcome {
    pub status: Status,
    pub runner: u64,
    pub receipt: u64,
    pub ending: u64,
}

// The row of a task that is not yet created.
pub fn new_task(cost: u64, first: u64, accesses: u64) -> TaskRow
    ensures { result ≡ new_task cost first accesses }
{
    TaskRow {
        cost,
        first,
        accesses,
        ..NO_TASK
    }
}

// What has become of a task.
pub fn outcome_of(rows: &[TaskRow], task: usize) -> Outcome
    requires { task < length rows.now }
    ensures { result ≡ outcome_at rows.now task }
{
    let row = &rows[task];
    Outcome {
        status: row.status,
        runner: row.runner,
        receipt: row.receipt,
        ending: row.ending,
    }
}
