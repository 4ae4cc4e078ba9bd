// The steps of an owner after it has drained the queues: it serves waiters, takes a task for itself, hands over and leaves.
ghost use Rattle.std.specs.Prelude.{◌≡◌, List, ℕ, ◌+◌, ◌<◌, length, get_or};
ghost use Rattle.lock.specs.Lock.{hand_over};
ghost use Rattle.memory.specs.Layout as layout;
ghost use Rattle.steps.specs.Layout.{place_at, SERVING, HANDING, LEAVING};
ghost use Rattle.steps.specs.Memory.{Memory, LongDevice, with_ends, Able, Acts};
ghost use Rattle.lock_steps.specs.Going.{given_by, handed_on};
ghost use Rattle.lock_steps.specs.Lent.{lock_in, handed_in, with_handed, with_served};

use super::{go_to, receive_to};
use duties::device::hold;
use lock::{Looked, Worker};
use memory::rows::TaskRow;
use steps::device::Device;
use steps::layout::{HANDING, IDLE, LEAVING, NUMBER, SERVING};
use steps::ready::{first_permitted, take_out, task_at};
use steps::{Counts, with_ends};

// Notes who gave a task.
fn note_giver(givers: &mut [Option<u64>], task: u64, giver: u64)
    requires { (length givers.old ≡ layout.most_tasks) × (task < layout.most_tasks) }
    ensures { givers.new ≡ given_by givers.old task giver }
{
    givers[task as usize] = Some(giver);
}

// Serves the front waiter with the first ready task that it may run, or takes the first that it may run itself, or none. `long` says that
// the device's arrays keep their lengths, which a caller that lends the struct isn't told otherwise.
pub fn serve_step(
    n: Counts,
    registrations: &[u64],
    tickets: &mut [u64],
    cells: &mut [u64],
    device: &mut Device,
    rows: &mut [TaskRow],
    own: &mut [u64],
    w: u64,
) -> Counts
    requires { ((m : Memory) × Able (with_served m n registrations.now tickets.old cells.old device.old rows.old) own.old w)
        × (get_or own.old place_at 0 ≡ SERVING) }
    ensures long { LongDevice device.new }
    ensures acts { (m : Memory) →
        Acts
        (with_served m n registrations.now tickets.old cells.old device.old rows.old)
        own.old
        (with_served m result registrations.now tickets.new cells.new device.new rows.new)
        own.new w }
{
    if n.ready == 0 {
        go_to(own, LEAVING, 0);
        return n;
    }
    let served = own[NUMBER];
    // Not one `&& let`: after that the proof isn't told that nobody is at the front, and it did not close.
    if served + 1 < n.workers {
        if let Some(waiter) = lock::front_waiter(n.slots, n.ends, registrations) {
            if let Some(k) = first_permitted(n, device, waiter.0) {
                let task = task_at(n, &device.ready, k);
                let left = take_out(n, &mut device.ready, k);
                lock::fill(n.ends, tickets, cells, waiter, task);
                hold(rows, task);
                go_to(own, HANDING, served);
                return left;
            }
        }
    }
    let Some(k) = first_permitted(n, device, w) else {
        go_to(own, LEAVING, 0);
        return n;
    };
    let task = task_at(n, &device.ready, k);
    let left = take_out(n, &mut device.ready, k);
    receive_to(rows, own, task, w, n.picks, LEAVING);
    note_giver(&mut device.givers, task, w);
    left
}

// Hands over, by the lock's answer: the task that the worker let in finds in its cell has its giver then.
fn hand_on(
    n: Counts,
    wait: &mut [u64],
    registrations: &[u64],
    tickets: &[u64],
    cells: &[u64],
    givers: &mut [Option<u64>],
    w: u64,
) -> Counts
    requires { (m : Memory) × (own : List ℕ)
        × Able (with_handed m n wait.old registrations.now tickets.now cells.now givers.old) own w }
    ensures numbers { result ≡ with_ends n result.ends }
    ensures lock { lock_in n.slots result.ends wait.new registrations.now tickets.now cells.now
        ≡ hand_over n.slots
        (lock_in n.slots n.ends wait.old registrations.now tickets.now cells.now) }
    ensures giver { givers.new ≡ handed_on givers.old
        (handed_in n.slots
        (lock_in n.slots n.ends wait.old registrations.now tickets.now cells.now) w) }
{
    let told = lock::hand_over(n.slots, n.ends, wait, registrations, Worker(w));
    if let Some(taker) = told.let_in {
        let looked = lock::look(n.slots, wait, tickets, cells, n.ends.tail, taker);
        if let Looked::Receives(task) = looked {
            note_giver(givers, task, told.by.0);
        }
    }
    with_ends(n, told.ends)
}

// Hands over to the waiter that it has served, and stays.
pub fn hand_step(
    n: Counts,
    wait: &mut [u64],
    registrations: &[u64],
    tickets: &[u64],
    cells: &[u64],
    givers: &mut [Option<u64>],
    own: &mut [u64],
    w: u64,
) -> Counts
    requires { ((m : Memory) × Able (with_handed m n wait.old registrations.now tickets.now cells.now givers.old) own.old w)
        × (get_or own.old place_at 0 ≡ HANDING) }
    ensures { (m : Memory) → Acts
        (with_handed m n wait.old registrations.now tickets.now cells.now givers.old)
        own.old
        (with_handed m result wait.new registrations.now tickets.now cells.now givers.new)
        own.new w }
{
    let served = own[NUMBER];
    go_to(own, SERVING, served + 1);
    hand_on(n, wait, registrations, tickets, cells, givers, w)
}

// Hands over and leaves, with what it has in hand.
pub fn leave_step(
    n: Counts,
    wait: &mut [u64],
    registrations: &[u64],
    tickets: &[u64],
    cells: &[u64],
    givers: &mut [Option<u64>],
    own: &mut [u64],
    w: u64,
) -> Counts
    requires { ((m : Memory) × Able (with_handed m n wait.old registrations.now tickets.now cells.now givers.old) own.old w)
        × (get_or own.old place_at 0 ≡ LEAVING) }
    ensures { (m : Memory) → Acts
        (with_handed m n wait.old registrations.now tickets.now cells.now givers.old)
        own.old
        (with_handed m result wait.new registrations.now tickets.now cells.now givers.new)
        own.new w }
{
    go_to(own, IDLE, 0);
    hand_on(n, wait, registrations, tickets, cells, givers, w)
}
