// The ready list: a circular buffer, whose oldest task is at place 0.
ghost use Rattle.std.specs.Prelude.{◌≡◌, ◌≤◌, ◌<◌, length, get_or, drop, IfSome, unwrap_or};
ghost use Rattle.runs.specs.Circular.{shifted};
ghost use Rattle.plan.specs.Permits.{is_set};
ghost use Rattle.memory.specs.Layout as layout;
ghost use Rattle.steps.specs.Layout.{most_workers, READY};
ghost use Rattle.steps.specs.Memory.{one_taken};
ghost use Rattle.steps.specs.Ready.{ready_in, listed, mask_at, Below, without, First, FallsFor};

use super::Counts;
use super::device::Device;
use super::layout::READY;

// The task at place k.
pub fn task_at(n: Counts, ready: &[u64], k: u64) -> u64
    requires { (READY ≤ length ready.now) × (n.ready_at < READY) × (n.ready ≤ READY) × (k < n.ready) }
    ensures numbers { result ≡ listed n ready.now k }
    ensures meaning { result ≡ get_or (ready_in n ready.now) k 0 }
{
    let slot = ((n.ready_at + k) % READY) as usize;
    ready[slot]
}

// Whether bit w of a mask is set.
fn is_set(mask: u64, w: u64) -> bool
    requires { w < 64 }
    ensures { result ≡ is_set mask w }
{
    (mask >> w) % 2 == 1
}

// The place of the first task that worker w may run, if there is one.
pub fn first_permitted(n: Counts, device: &Device, w: u64) -> Option<u64>
    requires { (length device.now.ready ≡ READY) × (length device.now.masks ≡ layout.most_tasks) × (n.ready_at < READY)
        × (n.ready ≤ READY) × (w < most_workers) × Below layout.most_tasks (ready_in n device.now.ready) }
    ensures inside { IfSome result (λ k. k < n.ready) }
    ensures numbers { First (λ k. is_set (mask_at n device.now k) w) n.ready (unwrap_or result n.ready) }
    ensures meaning { FallsFor n device.now w (unwrap_or result n.ready) }
{
    for k in 0..n.ready {
        let task = task_at(n, &device.ready, k) as usize;
        if is_set(device.masks[task], w) {
            return Some(k);
        }
    }
    None
}

// The numbers with one task less: the oldest is one slot further.
fn one_taken(n: Counts) -> Counts
    requires { (0 < n.ready) × (n.ready_at < READY) }
    ensures { result ≡ one_taken n }
{
    Counts {
        ready_at: (n.ready_at + 1) % READY,
        ready: n.ready - 1,
        ..n
    }
}

// Takes out the task at place k: those before it move up by one slot, the last of them first. What lies behind the list stays.
pub fn take_out(n: Counts, ready: &mut [u64], k: u64) -> Counts
    requires { (READY ≤ length ready.old) × (n.ready_at < READY) × (n.ready ≤ READY) × (k < n.ready) }
    ensures numbers { (result ≡ one_taken n) × (ready.new ≡ shifted READY n.ready_at ready.old k) }
    ensures meaning { (ready_in result ready.new ≡ without k (ready_in n ready.old))
        × (drop READY ready.new ≡ drop READY ready.old) }
{
    for i in (0..k).rev() {
        let to = ((n.ready_at + (i + 1)) % READY) as usize;
        let from = ((n.ready_at + i) % READY) as usize;
        ready[to] = ready[from];
    }
    one_taken(n)
}
