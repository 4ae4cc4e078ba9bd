// The masks of tasks.
ghost use Rattle.std.specs.Prelude.{◌≡◌, ℕ, ◌≤◌, length};
ghost use Rattle.std.proofs.Math.Option.{Option};
ghost use Rattle.plan.specs.PermitLaws.{mask_of};
ghost use Rattle.kept.specs.Layout as keep;
ghost use Rattle.kept.specs.Tasks.{mask_in};
ghost use Rattle.memory.specs.Layout as layout;
ghost use Rattle.tables.specs.Tables.{Readable, OfPlan, task_mask, LaidRows};

use kept::tasks::Row;

// The mask of a task that is kept with this one: that of all workers where it has none.
fn mask_of(mask: Option<u64>, workers: u64) -> u64
    requires { workers ≤ layout.most_workers }
    ensures { (o : Option ℕ) → mask ≡ mask_in o → result ≡ mask_of workers o }
{
    mask.unwrap_or((1u64 << workers) - 1)
}

// Lays the masks of a plan's tasks, one behind the other.
pub fn lay_masks(plan: &[Row], count: usize, workers: u64, masks: &mut [u64])
    requires lengths { (length plan.now ≡ keep.most_tasks) × (layout.most_tasks ≤ length masks.old) × (workers ≤ layout.most_workers) }
    requires readable { Readable plan.now count }
    ensures { OfPlan plan.now count (λ text p. workers ≡ p.workers →
        LaidRows 0 count (task_mask p.workers p.tasks) masks.old masks.new) }
{
    for i in 0..count {
        masks[i] = mask_of(plan[i].mask, workers);
    }
}
