// The rows of tasks, and where their labels stand.
ghost use Rattle.std.specs.Prelude.{◌≡◌, length};
ghost use Rattle.tasks.specs.Accesses.{total};
ghost use Rattle.kept.specs.Layout as keep;
ghost use Rattle.memory.specs.Layout as layout;
ghost use Rattle.memory.specs.Rows.{no_task};
ghost use Rattle.memory.specs.Labels.{no_label};
ghost use Rattle.tables.specs.Tables.{Readable, OfPlan, task_row_of, label_of, LaidRows};

use kept::tasks::Row;
use memory::labels::Label;
use memory::rows::{TaskRow, new_task};

// Lays a plan's tasks and labels; how many accesses there are.
pub(crate) fn lay_plan_tasks(
    plan: &[Row],
    count: usize,
    tasks: &mut [TaskRow],
    labels: &mut [Label],
) -> usize
    requires lengths { (length plan.now ≡ keep.most_tasks) × (length tasks.old ≡ layout.most_tasks)
        × (length labels.old ≡ layout.most_tasks) }
    requires readable { Readable plan.now count }
    ensures { OfPlan plan.now count (λ text p.
        LaidRows no_task count (task_row_of p.tasks) tasks.old tasks.new
        × LaidRows no_label count (label_of plan.now) labels.old labels.new
        × (result ≡ total p.tasks)) }
{
    let mut total: usize = 0;
    for i in 0..count {
        let row = &plan[i];
        tasks[i] = new_task(row.cost, total as u64, row.count);
        labels[i] = Label {
            place: row.place,
            size: row.size,
        };
        total += row.count as usize;
    }
    total
}
