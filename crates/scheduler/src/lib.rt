// The step of a picked worker: `Memory` of the crate steps says how a state of the machine lies in what is lent here.

#![tactic(auto)]

ghost use Rattle.std.specs.Prelude.{◌≡◌, ◌⊎◌, ◌≢◌, List, ℕ, ◌≤◌, ◌<◌, length, get_or, drop};
ghost use Rattle.memory.specs.Memory.{nothing_left};
ghost use Rattle.machine.specs.State.{Setup, State, Purpose, draining, picked};
ghost use Rattle.machine.specs.Step.{next_drain, step, finished};
ghost use Rattle.machine.specs.Ranges.{Fit, acted};
ghost use Rattle.steps.specs.Layout.{station_size, place_at, most_workers, shares_size, IDLE, DRAINING_TO_SERVE, DRAINING_TO_ADD};
ghost use Rattle.steps.specs.Memory.{share, Stationed, Memory, with_tasks, with_counts, Holds, Able, Acts};
ghost use Rattle.scheduler.specs.Starting.{fresh_counts};
ghost use Rattle.scheduler.specs.Lent.{memory_of};

use arrays::Arrays;
use duties::create::is_creating;
use lock::Ends;
use lock_steps::owner::{hand_step, leave_step, serve_step};
use lock_steps::wait::{look_step, register_step, ticket_step, try_step};
use memory::layout::{ADDS_COUNT, FREE, MAIL_COUNT, SHARE, STAND, STATION};
use memory::rows::{AccessRow, TaskRow};
use steps::layout::{
    DRAINING_TO_SERVE, HANDING, IDLE, LEAVING, LOOKING, NUMBER, PLACE, QUEUED, REGISTERING,
    SERVING, TRYING,
};
use steps::station::{drain, go};
use steps::{Counts, create_step, full_step, mind_step, push_step};

pub mod arrays; // arrays.rt: the arrays of a run

// The numbers of a run in which no pick has been taken. Law: `starts`.
pub fn fresh(ends: Ends, workers: u64, slots: u64, capacity: u64, tasks: u64) -> Counts
    ensures { result ≡ fresh_counts ends workers slots capacity tasks }
{
    let tally = memory::tally::fresh(tasks);
    Counts {
        ends,
        workers,
        slots,
        capacity,
        ready_at: 0,
        ready: 0,
        picks: 0,
        tally,
    }
}

// Out of the lock: a duty to the tasks before adding, adding before creating or taking a ticket.
fn idle_step(
    n: Counts,
    rows: &mut [TaskRow],
    accesses: &mut [AccessRow],
    own: &mut [u64],
    w: u64,
) -> Counts
    requires { ((m : Memory) × Able (with_tasks m n rows.old accesses.old) own.old w)
        × (get_or own.old place_at 0 ≡ IDLE) }
    ensures { (m : Memory) → Acts (with_tasks m n rows.old accesses.old) own.old
        (with_tasks m result rows.new accesses.new) own.new w }
{
    if FREE < own[STATION + STAND] || 0 < own[STATION + MAIL_COUNT] {
        return mind_step(n, rows, accesses, own, w);
    }
    if 0 < own[STATION + ADDS_COUNT] {
        if own[QUEUED] < n.capacity {
            return push_step(n, own, w);
        }
        return full_step(n, own, w);
    }
    if w == 0 {
        if is_creating(n.tally) {
            return create_step(n, rows, accesses, own);
        }
    }
    ticket_step(n, own, w)
}

// The step of worker w in its share, at any place but those that drain.
fn step_own(n: Counts, arrays: &mut Arrays, own: &mut [u64], w: u64) -> Counts
    requires able { Able (memory_of n arrays.old) own.old w }
    requires not_draining { (get_or own.old place_at 0 ≢ DRAINING_TO_SERVE) × (get_or own.old place_at 0 ≢ DRAINING_TO_ADD) }
    ensures { Acts (memory_of n arrays.old) own.old (memory_of result arrays.new) own.new w }
{
    let place = own[PLACE];
    match place {
        IDLE => idle_step(n, &mut arrays.rows, &mut arrays.accesses, own, w),
        TRYING => try_step(n, own, w),
        REGISTERING => {
            register_step(n, &mut arrays.registrations, own, w);
            n
        }
        LOOKING => {
            look_step(
                n,
                &arrays.wait,
                &mut arrays.tickets,
                &mut arrays.cells,
                &mut arrays.rows,
                own,
                w,
            );
            n
        }
        SERVING => serve_step(
            n,
            &arrays.registrations,
            &mut arrays.tickets,
            &mut arrays.cells,
            &mut arrays.device,
            &mut arrays.rows,
            own,
            w,
        ),
        HANDING => hand_step(
            n,
            &mut arrays.wait,
            &arrays.registrations,
            &arrays.tickets,
            &arrays.cells,
            &mut arrays.device.givers,
            own,
            w,
        ),
        _ => leave_step(
            n,
            &mut arrays.wait,
            &arrays.registrations,
            &arrays.tickets,
            &arrays.cells,
            &mut arrays.device.givers,
            own,
            w,
        ),
    }
}

// After queue k the next is drained; after the last, the owner serves or leaves.
fn drained(own: &mut [u64], k: u64, workers: u64)
    requires { (length own.old ≡ station_size) × (k < workers) }
    ensures { (c : Setup) (p : Purpose) (queue : List ℕ) → workers ≡ c.workers →
        Stationed own.old (draining p k) queue → Stationed own.new (next_drain c p k) queue }
{
    let place = own[PLACE];
    if k + 1 < workers {
        go(own, place, k + 1);
    } else if place == DRAINING_TO_SERVE {
        go(own, SERVING, 0);
    } else {
        go(own, LEAVING, 0);
    }
}

// Drains a queue into the ready list: the device's part of its worker is lent, then that of worker w.
fn drain_step(n: Counts, arrays: &mut Arrays, store: &mut [u64], w: usize) -> Counts
    requires room { (shares_size ≤ length store.old) × (w < most_workers)
        × ((get_or (share store.old w) place_at 0 ≡ DRAINING_TO_SERVE)
        ⊎ (get_or (share store.old w) place_at 0 ≡ DRAINING_TO_ADD)) }
    requires held { (c : Setup) × (s : State) × Holds c (memory_of n arrays.old) (share store.old) s × Fit c s w }
    ensures held { (c : Setup) (s : State) →
        Holds c (memory_of n arrays.old) (share store.old) s → Fit c s w →
        Holds c (memory_of result arrays.new) (share store.new) (acted c s w) }
    ensures later { drop shares_size store.new ≡ drop shares_size store.old }
{
    let at = w * SHARE;
    let end = at + STATION;
    let k = store[at + NUMBER];
    let from = k as usize * SHARE;
    let to = from + STATION;
    let ready = drain(
        &mut store[from..to],
        &mut arrays.device.ready,
        n.ready_at,
        n.ready,
    );
    drained(&mut store[at..end], k, n.workers);
    Counts { ready, ..n }
}

// One pick of worker w: the pick is counted, and w does what it does where it stands, in its share. The store past the shares keeps its
// content (`later`); what `Holds` does not speak of is left to the program.
pub fn pick(n: Counts, arrays: &mut Arrays, store: &mut [u64], w: usize) -> Counts
    requires room { shares_size ≤ length store.old }
    requires held { (c : Setup) × (s : State) × Holds c (memory_of n arrays.old) (share store.old) s
        × Fit c (picked s) w }
    ensures held { (c : Setup) (s : State) →
        Holds c (memory_of n arrays.old) (share store.old) s →
        Fit c (picked s) w →
        Holds c (memory_of result arrays.new) (share store.new) (step c s w) }
    ensures later { drop shares_size store.new ≡ drop shares_size store.old }
{
    let taken = Counts {
        picks: n.picks + 1,
        ..n
    };
    let at = w * SHARE;
    let end = at + SHARE;
    let place = store[at + PLACE];
    // the commoner way first: the compiler then lays it out without a jump
    if place < DRAINING_TO_SERVE {
        return step_own(taken, arrays, &mut store[at..end], w as u64);
    }
    drain_step(taken, arrays, store, w)
}

// Whether the state is finished.
pub fn is_finished(n: Counts) -> bool
    ensures numbers { result ≡ nothing_left n.tally }
    ensures meaning { (m : Memory) (c : Setup) (s : State) (shares : ℕ → List ℕ) → Holds c (with_counts m n) shares s →
        result ≡ finished c s }
{
    memory::tally::is_finished(n.tally)
}
