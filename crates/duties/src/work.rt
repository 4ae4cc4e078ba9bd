// A worker with a task.
ghost use Rattle.std.specs.Prelude.{◌≡◌, List, ◌++◌, ℕ, ◌+◌, ◌≤◌, length, get_or};
ghost use Rattle.plan.specs.Plan.{Task};
ghost use Rattle.tasks.specs.Tasks.{Message, Stand};
ghost use Rattle.tasks.specs.Accesses.{task_at};
ghost use Rattle.tasks.specs.History.{done_messages};
ghost use Rattle.memory.specs.Layout as layout;
ghost use Rattle.memory.specs.Shares.{Stored};
ghost use Rattle.memory.specs.Memory.{TaskMemory, memory, Able, Acts, its_duty};

use super::flags::DONE;
use memory::layout;
use memory::rows::{Status, TaskRow};
use memory::share::{post, stand};
use memory::tally::Tally;

// Posts DONE to each of so many accesses from `first` on.
fn post_done(own: &mut [u64], first: u64, count: u64)
    requires stored { (p : Stand) × (mail : List Message) × (adds : List ℕ) × Stored own.old p mail adds }
    requires has_room { (get_or own.old layout.mail_count 0 + count ≤ layout.mail_room) × (first + count ≤ layout.most_accesses) }
    ensures { (ts : List Task) (i : ℕ) (p : Stand) (mail : List Message) (adds : List ℕ) → Stored own.old p mail adds →
        first ≡ Rattle.tasks.specs.Accesses.first ts i → count ≡ length (task_at ts i).accesses
        → Stored own.new p (mail ++ done_messages ts i) adds }
{
    for access in first..first + count {
        post(own, access, DONE, None);
    }
}

// Ends the task.
fn end(n: Tally, rows: &mut [TaskRow], own: &mut [u64], time: u64) -> Tally
    requires { ((m : TaskMemory) × (w : ℕ) × Able (memory n rows.old m.accesses) own.old w)
        × (get_or own.old layout.stand 0 ≡ layout.working) × (get_or own.old layout.left 0 ≡ 0) }
    ensures { (m : TaskMemory) (w : ℕ) → Acts its_duty time (memory n rows.old m.accesses) own.old
        (memory result rows.new m.accesses) own.new w }
{
    let row = &mut rows[own[layout::ABOUT] as usize];
    row.status = Status::Over;
    row.ending = time;
    let count = row.accesses;
    post_done(own, row.first, count);
    stand(own, layout::FREE, 0, 0);
    Tally {
        left: n.left - 1,
        pending: n.pending + count,
        ..n
    }
}

// Works on the task, or ends it.
pub(crate) fn work(n: Tally, rows: &mut [TaskRow], own: &mut [u64], time: u64) -> Tally
    requires { ((m : TaskMemory) × (w : ℕ) × Able (memory n rows.old m.accesses) own.old w)
        × (get_or own.old layout.stand 0 ≡ layout.working) }
    ensures { (m : TaskMemory) (w : ℕ) → Acts its_duty time (memory n rows.old m.accesses) own.old
        (memory result rows.new m.accesses) own.new w }
{
    let steps = own[layout::LEFT];
    if steps == 0 {
        return end(n, rows, own, time);
    }
    // of the stand, only what is left changes
    own[layout::LEFT] = steps - 1;
    n
}
