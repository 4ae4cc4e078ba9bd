// The steps of a worker that is out of the lock: `specs/Memory.antt` says how a state of the machine lies in what is lent here.

#![tactic(auto)]

ghost use Rattle.std.specs.Prelude.{◌≡◌, ◌⊎◌, true, ◌+◌, ◌≤◌, ◌<◌, get_or};
ghost use Rattle.memory.specs.Layout as part;
ghost use Rattle.memory.specs.Memory.{to_create};
ghost use Rattle.steps.specs.Layout.{station_size, place_at, queued_at, IDLE};
ghost use Rattle.steps.specs.Memory.{Memory, with_tasks, with_counts, with_ends, Able, Acts};

use duties::create::create;
use duties::device::give;
use duties::mind::mind;
use layout::TRYING;
use lock::Ends;
use memory::layout::{SHARE, STATION};
use memory::rows::{AccessRow, TaskRow};
use memory::tally::Tally;
use station::{go, push};

pub mod device; // device.rt: what the device keeps in memory
pub mod layout; // layout.rt: names of offsets and codes
pub mod ready; // ready.rt: the ready list
pub mod station; // station.rt: the device's part of a share

// The lock's ends; the plan's workers, slots and capacity; the slot of the oldest ready task and how many are ready; picks taken; the
// tasks' numbers.
#[derive(Clone, Copy)]
pub struct Counts {
    pub ends: Ends,
    pub workers: u64,
    pub slots: u64,
    pub capacity: u64,
    pub ready_at: u64,
    pub ready: u64,
    pub picks: u64,
    pub tally: Tally,
}

// The numbers with other ends of the lock.
pub fn with_ends(n: Counts, ends: Ends) -> Counts
    ensures { result ≡ with_ends n ends }
{
    Counts { ends, ..n }
}

// A worker's duty to the tasks: it tells, delivers, works or ends.
pub fn mind_step(
    n: Counts,
    rows: &mut [TaskRow],
    accesses: &mut [AccessRow],
    own: &mut [u64],
    w: u64,
) -> Counts
    requires { ((m : Memory) × Able (with_tasks m n rows.old accesses.old) own.old w)
        × (get_or own.old place_at 0 ≡ IDLE)
        × ((part.free < get_or own.old (station_size + part.stand) 0) ⊎ (0 < get_or own.old (station_size + part.mail_count) 0)) }
    ensures { (m : Memory) → Acts (with_tasks m n rows.old accesses.old) own.old
        (with_tasks m result rows.new accesses.new) own.new w }
{
    let tally = mind(n.tally, rows, accesses, &mut own[STATION..SHARE], n.picks);
    Counts { tally, ..n }
}

// Worker 0 creates the tasks.
pub fn create_step(
    n: Counts,
    rows: &mut [TaskRow],
    accesses: &[AccessRow],
    own: &mut [u64],
) -> Counts
    requires { ((m : Memory) × Able (with_tasks m n rows.old accesses.now) own.old 0)
        × (get_or own.old place_at 0 ≡ IDLE)
        × (get_or own.old (station_size + part.stand) 0 ≡ part.free) × (get_or own.old (station_size + part.mail_count) 0 ≡ 0)
        × (get_or own.old (station_size + part.adds_count) 0 ≡ 0) × (to_create n.tally ≡ true) }
    ensures { (m : Memory) → Acts (with_tasks m n rows.old accesses.now) own.old
        (with_tasks m result rows.new accesses.now) own.new 0 }
{
    let tally = create(n.tally, rows, accesses, &mut own[STATION..SHARE]);
    Counts { tally, ..n }
}

// Gives the oldest task to add to the device, in whose queue there is room. The numbers stay: they are handed back so that they
// stay in registers.
pub fn push_step(n: Counts, own: &mut [u64], w: u64) -> Counts
    requires { ((m : Memory) × Able (with_counts m n) own.old w) × (get_or own.old place_at 0 ≡ IDLE)
        × (get_or own.old (station_size + part.stand) 0 ≡ part.free) × (get_or own.old (station_size + part.mail_count) 0 ≡ 0)
        × (0 < get_or own.old (station_size + part.adds_count) 0) × (get_or own.old queued_at 0 < n.capacity) }
    ensures { (m : Memory) → Acts (with_counts m n) own.old (with_counts m result) own.new w }
{
    let task = give(&mut own[STATION..SHARE]);
    push(&mut own[..STATION], task);
    n
}

// There is no room in the queue: the worker will try the lock. The numbers stay.
pub fn full_step(n: Counts, own: &mut [u64], w: u64) -> Counts
    requires { ((m : Memory) × Able (with_counts m n) own.old w) × (get_or own.old place_at 0 ≡ IDLE)
        × (get_or own.old (station_size + part.stand) 0 ≡ part.free) × (get_or own.old (station_size + part.mail_count) 0 ≡ 0)
        × (0 < get_or own.old (station_size + part.adds_count) 0) × (n.capacity ≤ get_or own.old queued_at 0) }
    ensures { (m : Memory) → Acts (with_counts m n) own.old (with_counts m result) own.new w }
{
    go(&mut own[..STATION], TRYING, 0);
    n
}
