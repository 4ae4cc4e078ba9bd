// What is kept of a plan that is read: a row for each task, and the order lines. `specs/Tasks.antt` and `specs/Orders.antt` say which
// tasks and order lines these are.

#![tactic(auto)]

ghost use Rattle.std.specs.Prelude.{◌≡◌, set};

pub mod layout; // layout.rt: what there is room for
pub mod tasks; // tasks.rt: tasks

// Keeps an item, where the slice reaches so far.
pub fn keep<T: Copy>(items: &mut [T], at: usize, item: T)
    ensures { items.new ≡ set items.old at item }
{
    if at < items.len() {
        items[at] = item;
    }
}
