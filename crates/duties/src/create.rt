// The tasks are created: a task is opened, its accesses are linked, it is closed.
ghost use Rattle.std.specs.Prelude.{◌≡◌, true, List, ℕ, ◌≤◌, ◌<◌, get_or, Some, None};
ghost use Rattle.memory.specs.Layout as layout;
ghost use Rattle.memory.specs.Memory.{TaskMemory, memory, Able, Acts, its_creating, end_of, to_create};

use super::deliver::lower;
use super::flags::{NEXT, READ_WRITE};
use memory::rows::{AccessRow, Status, TaskRow};
use memory::share::post;
use memory::tally::Tally;

// Opens the next task: its count is its accesses and 1.
fn open(n: Tally, rows: &mut [TaskRow]) -> Tally
    requires { ((m : TaskMemory) × (own : List ℕ) × (w : ℕ) × Able (memory n rows.old m.accesses) own w)
        × (n.access ≡ None) × (n.task < n.tasks) }
    ensures { (m : TaskMemory) (own : List ℕ) (k w : ℕ) → Acts its_creating k (memory n rows.old m.accesses) own
        (memory result rows.new m.accesses) own w }
{
    let row = &mut rows[n.task as usize];
    row.count = row.accesses + 1;
    row.status = Status::Waiting;
    let access = Some(row.first);
    Tally { access, ..n }
}

// Links the next access: the first to its address is sent READ and WRITE, else the last before it is sent NEXT.
fn link(n: Tally, access: u64, accesses: &[AccessRow], own: &mut [u64]) -> Tally
    requires { ((m : TaskMemory) × (w : ℕ) × Able (memory n m.rows accesses.now) own.old w × (access < end_of n m.rows))
        × (get_or own.old layout.mail_count 0 ≡ 0) × (n.access ≡ Some access) }
    ensures { (m : TaskMemory) (k w : ℕ) → access < end_of n m.rows →
        Acts its_creating k (memory n m.rows accesses.now) own.old
        (memory result m.rows accesses.now) own.new w }
{
    match accesses[access as usize].prev {
        None => post(own, access, READ_WRITE, None),
        Some(prev) => post(own, prev, NEXT, None),
    }
    Tally {
        access: Some(access + 1),
        pending: n.pending + 1,
        ..n
    }
}

// Closes the task: it no longer counts itself.
fn close(n: Tally, access: u64, rows: &mut [TaskRow], own: &mut [u64]) -> Tally
    requires { ((m : TaskMemory) × (w : ℕ) × Able (memory n rows.old m.accesses) own.old w)
        × (get_or own.old layout.adds_count 0 ≡ 0) × (n.access ≡ Some access) × (end_of n rows.old ≤ access) }
    ensures { (m : TaskMemory) (k w : ℕ) → Acts its_creating k (memory n rows.old m.accesses) own.old
        (memory result rows.new m.accesses) own.new w }
{
    lower(rows, own, n.task, 1);
    Tally {
        task: n.task + 1,
        access: None,
        ..n
    }
}

// Whether tasks are still to be created.
pub fn is_creating(n: Tally) -> bool
    ensures { result ≡ to_create n }
{
    match n.access {
        None => n.task < n.tasks,
        Some(_) => true,
    }
}

// The next creating step.
pub fn create(n: Tally, rows: &mut [TaskRow], accesses: &[AccessRow], own: &mut [u64]) -> Tally
    requires { ((w : ℕ) × Able (memory n rows.old accesses.now) own.old w)
        × (get_or own.old layout.adds_count 0 ≡ 0) × (get_or own.old layout.mail_count 0 ≡ 0) × (to_create n ≡ true) }
    ensures { (k w : ℕ) → Acts its_creating k (memory n rows.old accesses.now) own.old
        (memory result rows.new accesses.now) own.new w }
{
    match n.access {
        None => open(n, rows),
        Some(access) => {
            let row = &rows[n.task as usize];
            if access < row.first + row.accesses {
                return link(n, access, accesses, own);
            }
            close(n, access, rows, own)
        }
    }
}
