// The steps of a worker at the lock, until it owns it or has a task.
ghost use Rattle.std.specs.Prelude.{◌≡◌, ◌⊎◌, ◌≢◌, false, ◌+◌, get_or};
ghost use Rattle.memory.specs.Layout as part;
ghost use Rattle.memory.specs.Memory.{to_create};
ghost use Rattle.steps.specs.Layout.{station_size, place_at, IDLE, TRYING, REGISTERING, LOOKING};
ghost use Rattle.steps.specs.Memory.{Memory, with_counts, Able, Acts};
ghost use Rattle.lock_steps.specs.Lent.{with_registrations, with_seen};

use super::{go_to, receive_to, wait_at};
use lock::{Looked, Ticket, Worker};
use memory::rows::TaskRow;
use steps::layout::{DRAINING_TO_ADD, DRAINING_TO_SERVE, IDLE, NUMBER, REGISTERING, SLOT};
use steps::{Counts, with_ends};

// Takes a ticket: worker 0 only after the last task is created.
pub fn ticket_step(n: Counts, own: &mut [u64], w: u64) -> Counts
    requires place { ((m : Memory) × Able (with_counts m n) own.old w) × (get_or own.old place_at 0 ≡ IDLE) }
    requires nothing_due { (get_or own.old (station_size + part.stand) 0 ≡ 0) × (get_or own.old (station_size + part.mail_count) 0 ≡ 0)
        × (get_or own.old (station_size + part.adds_count) 0 ≡ 0) × ((w ≢ 0) ⊎ (to_create n.tally ≡ false)) }
    ensures { (m : Memory) → Acts (with_counts m n) own.old (with_counts m result) own.new w }
{
    let taken = lock::take_ticket(n.ends);
    go_to(own, REGISTERING, taken.ticket.0);
    with_ends(n, taken.ends)
}

// Registers with its ticket.
pub fn register_step(n: Counts, registrations: &mut [u64], own: &mut [u64], w: u64)
    requires { ((m : Memory) × Able (with_registrations m n registrations.old) own.old w)
        × (get_or own.old place_at 0 ≡ REGISTERING) }
    ensures { (m : Memory) → Acts (with_registrations m n registrations.old) own.old
        (with_registrations m n registrations.new) own.new w }
{
    let ticket = Ticket(own[NUMBER]);
    lock::register(n.slots, registrations, ticket, Worker(w));
    let slot = lock::slot(ticket, n.slots);
    wait_at(own, ticket.0, slot as u64);
}

// Looks whether it is its turn: it receives the task in its cell, or it owns the lock.
pub fn look_step(
    n: Counts,
    wait: &[u64],
    tickets: &[u64],
    cells: &[u64],
    rows: &mut [TaskRow],
    own: &mut [u64],
    w: u64,
)
    requires { ((m : Memory) × Able (with_seen m n wait.now tickets.now cells.now rows.old) own.old w)
        × (get_or own.old place_at 0 ≡ LOOKING) }
    ensures { (m : Memory) →
        Acts (with_seen m n wait.now tickets.now cells.now rows.old) own.old
        (with_seen m n wait.now tickets.now cells.now rows.new) own.new w }
{
    let ticket = own[NUMBER];
    let at = own[SLOT] as usize;
    match lock::look_at(at, wait, tickets, cells, Ticket(ticket), Worker(w)) {
        Looked::NotYet => {}
        Looked::Receives(task) => {
            receive_to(rows, own, task, w, n.picks, IDLE);
        }
        Looked::Owns => {
            go_to(own, DRAINING_TO_SERVE, 0);
        }
    }
}

// Tries the lock, its queue being full: where it is free the worker takes a ticket and owns it.
pub fn try_step(n: Counts, own: &mut [u64], w: u64) -> Counts
    requires { ((m : Memory) × Able (with_counts m n) own.old w) × (get_or own.old place_at 0 ≡ TRYING) }
    ensures { (m : Memory) → Acts (with_counts m n) own.old (with_counts m result) own.new w }
{
    if lock::is_free(n.ends) {
        let taken = lock::take_ticket(n.ends);
        go_to(own, DRAINING_TO_ADD, 0);
        return with_ends(n, taken.ends);
    }
    go_to(own, IDLE, 0);
    n
}
