// Writes the report: see specs/Report.antt for its bytes, and specs/Shown.antt for what the numbers here say of a state.

#![tactic(auto)]

ghost use Rattle.std.specs.Prelude.{◌≡◌, ℕ, ◌+◌, ◌^◌, ◌≤◌, ◌<◌, length, get_or};
ghost use Rattle.text.specs.Writing.{plain, fields, Wrote};
ghost use Rattle.text.specs.Writers.{Writes};
ghost use Rattle.machine.specs.State.{Setup, State};
ghost use Rattle.memory.specs.Layout as layout;
ghost use Rattle.memory.specs.Labels.{label_at};
ghost use Rattle.report.specs.Report.{total_permitted, report};
ghost use Rattle.report.specs.Totals.{ones_of, Masks};
ghost use Rattle.report.specs.Sizes.{task_line_size};
ghost use Rattle.report.specs.Shown.{fields_of, TaskShown, Shown};

use line::{put_lock_line, put_outcome_line, put_task_line};
use machine::Leader;
use memory::labels::Label;
use memory::rows::{TaskRow, outcome_of};
use text::write::Writer;

mod line; // line.rt: its lines
mod word; // word.rt: the words of its fields

// What the report says besides its tasks: whether the run is finished, picks taken, the total of permitted workers, the lock's ends, the
// leader; how many tasks.
#[derive(Clone, Copy)]
pub struct Summary {
    pub finished: bool,
    pub picks: u64,
    pub permitted: u64,
    pub head: u64,
    pub tail: u64,
    pub leader: Leader,
    pub tasks: u64,
}

// The total of permitted workers over n tasks: the ones of their masks.
pub fn total_permitted(masks: &[u64], n: usize) -> u64
    requires { (n ≤ layout.most_tasks) × (n ≤ length masks.now) × ((i : ℕ) → i < n → get_or masks.now i 0 < 2 ^ 32) }
    ensures numbers { result ≡ ones_of masks.now n }
    ensures meaning { (c : Setup) → n ≡ length c.tasks → Masks c masks.now → result ≡ total_permitted c }
{
    let mut total: u64 = 0;
    for mask in &masks[..n] {
        total += u64::from((*mask as u32).count_ones());
    }
    total
}

// Writes a task's line, with its label out of the plan's text.
fn put_task(
    i: usize,
    text: &[u8],
    tasks: &[TaskRow],
    labels: &[Label],
    givers: &[Option<u64>],
    to: &mut Writer,
)
    requires { (length tasks.now ≡ layout.most_tasks) × (length labels.now ≡ layout.most_tasks)
        × (layout.most_tasks ≤ length givers.now) × (i < layout.most_tasks) × ((label_at labels.now i).size ≤ layout.most_label)
        × (to.old.at + task_line_size < 2 ^ 64) }
    ensures short { to.new.at ≤ to.old.at + task_line_size }
    ensures wrote { (c : Setup) (s : State)
        → TaskShown c s tasks.now labels.now givers.now text.now i
        → Writes to.old (fields (fields_of c s i)) to.new }
{
    let stands = labels[i];
    let label = kept::tasks::label(text, stands.place as usize, stands.size as usize);
    put_task_line(i as u64, label, outcome_of(tasks, i), givers[i], to);
}

// Writes the report into the first bytes of an output, as far as it reaches; how many bytes it has. By task, `givers` has its giver, if it
// has one. The numbers must show a state, so for every call that is allowed the output is fixed.
// Rows, labels and givers stay slices side by side: `Shown` in the clauses, which may not change, is of each of them.
pub fn put_report(
    summary: Summary,
    text: &[u8],
    tasks: &[TaskRow],
    labels: &[Label],
    givers: &[Option<u64>],
    output: &mut [u8],
) -> usize
    requires lengths { (length tasks.now ≡ layout.most_tasks) × (length labels.now ≡ layout.most_tasks)
        × (layout.most_tasks ≤ length givers.now) × (summary.tasks ≤ layout.most_tasks) }
    requires shown { (c : Setup) × (s : State) × Shown c s summary tasks.now labels.now givers.now text.now }
    ensures { (c : Setup) (s : State)
        → Shown c s summary tasks.now labels.now givers.now text.now
        → Wrote output.old 0 (plain (report c s)) result output.new }
{
    let n = summary.tasks as usize;
    let mut to = Writer { out: output, at: 0 };
    put_outcome_line(summary.finished, summary.picks, summary.permitted, &mut to);
    for i in 0..n {
        put_task(i, text, tasks, labels, givers, &mut to);
    }
    put_lock_line(summary.head, summary.tail, summary.leader, &mut to);
    to.at
}
