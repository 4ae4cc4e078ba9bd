// Which task comes next in the longest chain that begins with a task, from the last task back.
ghost use Rattle.std.specs.Prelude.{◌≡◌, List, suc, ◌≤◌, ◌<◌, length};
ghost use Rattle.plan.specs.Plan.{Task};
ghost use Rattle.plan.specs.Chains.{Follow};
ghost use Rattle.kept.specs.Layout as lay;
ghost use Rattle.chain.specs.Links.{Kept, Found, Known, Starts};

use crate::conflict::conflict;
use kept::tasks::Row;

// What a chain costs, and the task to which it leads: of a chain that is found its first one, of a task's own
// chain the one after it. The number of tasks stands for none.
#[derive(Clone, Copy)]
pub(crate) struct Link {
    pub sum: u64,
    pub next: usize,
}

// The longest chain that may come after task i, once those that begin with later tasks are known. Tasks are tried
// in order and replaced by one that costs more, so of chains that cost the same the first stays.
fn find_next(rows: &[Row], links: &[Link], i: usize) -> Link
    requires { (length links.now ≡ length rows.now) × (i < length rows.now)
        × ((ts : List Task) × Kept rows.now ts) }
    ensures { (ts : List Task) → Kept rows.now ts → Known ts links.now (suc i) →
        Found ts links.now (Follow ts i) result.sum result.next }
{
    let mut found = Link {
        sum: 0,
        next: rows.len(),
    };
    for j in i + 1..rows.len() {
        if found.sum < links[j].sum && conflict(&rows[i], &rows[j]) {
            found = Link {
                sum: links[j].sum,
                next: j,
            };
        }
    }
    found
}

// For each task what the longest chain that begins with it costs, and the task that comes next in it.
pub(crate) fn link_tasks(rows: &[Row], links: &mut [Link])
    requires { (length links.old ≡ length rows.now) × ((ts : List Task) × Kept rows.now ts) }
    ensures size { length links.new ≡ length rows.now }
    ensures known { (ts : List Task) → Kept rows.now ts → Known ts links.new 0 }
{
    for i in (0..rows.len()).rev() {
        let found = find_next(rows, links, i);
        links[i] = Link {
            sum: rows[i].cost + found.sum,
            next: found.next,
        };
    }
}

// The longest chain of all. It is no `find_next`: a chain of no tasks may come next, but is none of a plan that
// has tasks.
pub(crate) fn find_first(links: &[Link]) -> Link
    requires { length links.now ≤ lay.most_tasks }
    ensures { (ts : List Task) → length links.now ≡ length ts → Known ts links.now 0 →
        Starts ts links.now result }
{
    let mut first = Link { sum: 0, next: 0 };
    for (j, link) in links.iter().enumerate() {
        if j == 0 || first.sum < link.sum {
            first = Link {
                sum: link.sum,
                next: j,
            };
        }
    }
    first
}
