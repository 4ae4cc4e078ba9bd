// Lays the kept tasks of a plan into the rows of a run: the specs of `memory` say what a row tells.

#![tactic(auto)]

ghost use Rattle.std.specs.Prelude.{◌≡◌, length};
ghost use Rattle.tasks.specs.Accesses.{total};
ghost use Rattle.kept.specs.Layout as keep;
ghost use Rattle.memory.specs.Layout as layout;
ghost use Rattle.memory.specs.Rows.{no_task, no_access};
ghost use Rattle.memory.specs.Labels.{no_label, Labels};
ghost use Rattle.tables.specs.Tables.{Readable, OfPlan, NewTasks, NewAccesses, task_row_of, access_row_of, label_of, LaidRows};

use access::lay_plan_accesses;
use kept::tasks::Row;
use memory::labels::Label;
use memory::rows::{AccessRow, TaskRow};
use task::lay_plan_tasks;

mod access; // access.rt: the rows of accesses
pub mod mask; // mask.rt: the masks of tasks
mod task; // task.rt: the rows of tasks, and where labels stand

// Lays a plan into rows: its tasks, not yet created, its accesses, with no flag set, and where its labels stand.
pub fn lay_out(
    plan: &[Row],
    count: usize,
    tasks: &mut [TaskRow],
    accesses: &mut [AccessRow],
    labels: &mut [Label],
)
    requires lengths { (length plan.now ≡ keep.most_tasks) × (length tasks.old ≡ layout.most_tasks)
        × (length accesses.old ≡ layout.most_accesses) × (length labels.old ≡ layout.most_tasks) }
    requires readable { Readable plan.now count }
    ensures numbers { OfPlan plan.now count (λ text p.
        LaidRows no_task count (task_row_of p.tasks) tasks.old tasks.new
        × LaidRows no_access (total p.tasks) (access_row_of p.tasks) accesses.old accesses.new
        × LaidRows no_label count (label_of plan.now) labels.old labels.new) }
    ensures meaning { OfPlan plan.now count (λ text p.
        NewTasks p tasks.new × NewAccesses p accesses.new × Labels p.tasks text labels.new) }
{
    let total = lay_plan_tasks(plan, count, tasks, labels);
    lay_plan_accesses(plan, count, accesses, total);
}
