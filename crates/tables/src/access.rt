// The rows of accesses.
ghost use Rattle.std.specs.Prelude.{◌≡◌, Bool, List, Option, ℕ, suc, ◌+◌, ◌≤◌, ◌<◌, length, IfSome};
ghost use Rattle.plan.specs.Plan.{Task};
ghost use Rattle.runs.specs.Searches.{last_below};
ghost use Rattle.tasks.specs.Accesses.{total as Total};
ghost use Rattle.kept.specs.Layout as keep;
ghost use Rattle.memory.specs.Layout as layout;
ghost use Rattle.memory.specs.Codes.{option_of};
ghost use Rattle.memory.specs.Rows.{no_access};
ghost use Rattle.memory.specs.declared.rows.AccessRow.{AccessRow};
ghost use Rattle.tables.specs.Laid.{at_address, followed, Laid, IsAccess, AreAccesses};
ghost use Rattle.tables.specs.Tables.{Readable, OfPlan, access_row_of, LaidRows};

use kept::tasks::Row;
use memory::rows::AccessRow;

// The last access before a to this address.
fn previous(accesses: &[AccessRow], a: u64, address: u64) -> Option<u64>
    requires { a ≤ length accesses.now }
    ensures { result ≡ option_of (last_below (at_address accesses.now address) a) }
{
    // tried as `find`, and the proof did not close: of a range backwards the library has no law of it
    for b in (0..a).rev() {
        if accesses[b as usize].address == address {
            return Some(b);
        }
    }
    None
}

// Tells the access before, if there is one, that a comes after it.
fn follow(accesses: &mut [AccessRow], before: Option<u64>, a: u64)
    requires { IfSome before (λ b. b < length accesses.old) }
    ensures { accesses.new ≡ followed accesses.old before a }
{
    if let Some(b) = before {
        accesses[b as usize].next = a;
    }
}

// Lays access a behind those before it. None comes after it yet.
fn chain_access(
    accesses: &mut [AccessRow],
    a: u64,
    task: u64,
    reader: bool,
    address: u64,
    total: u64,
)
    requires { (length accesses.old ≡ layout.most_accesses) × (a < layout.most_accesses) }
    ensures { (ts : List Task) (start : List AccessRow) → Total ts ≡ total → IsAccess ts a task reader address →
        Laid ts a start accesses.old → Laid ts (suc a) start accesses.new }
{
    let prev = previous(accesses, a, address);
    accesses[a as usize] = AccessRow {
        flags: 0,
        task,
        reader,
        prev,
        next: total,
        address,
    };
    follow(accesses, prev, a);
}

// Lays the accesses of one task, of which the first has number `at`.
fn lay_accesses(accesses: &mut [AccessRow], row: &Row, task: usize, at: usize, total: usize)
    requires { (length accesses.old ≡ layout.most_accesses) × (row.now.count ≤ keep.most_task_accesses)
        × (task < keep.most_tasks) × (at + row.now.count ≤ layout.most_accesses) }
    ensures { (ts : List Task) (start : List AccessRow) → Total ts ≡ total → AreAccesses ts task at row.now →
        Laid ts at start accesses.old → Laid ts (at + row.now.count) start accesses.new }
{
    for k in 0..row.count as usize {
        let access = row.accesses[k];
        chain_access(
            accesses,
            (at + k) as u64,
            task as u64,
            !access.writes,
            access.address,
            total as u64,
        );
    }
}

// Lays a plan's accesses, so many.
pub(crate) fn lay_plan_accesses(
    plan: &[Row],
    count: usize,
    accesses: &mut [AccessRow],
    total: usize,
)
    requires lengths { (length plan.now ≡ keep.most_tasks) × (length accesses.old ≡ layout.most_accesses) }
    requires readable { Readable plan.now count }
    ensures { OfPlan plan.now count (λ text p. total ≡ Total p.tasks →
        LaidRows no_access total (access_row_of p.tasks) accesses.old accesses.new) }
{
    let mut at: usize = 0;
    for i in 0..count {
        let row = &plan[i];
        lay_accesses(accesses, row, i, at, total);
        at += row.count as usize;
    }
}
