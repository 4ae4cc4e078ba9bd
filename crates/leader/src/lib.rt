// Who leads the lock, found when a report is written: by the workers' places in the store, and by what the lock's functions promise.

#![tactic(auto)]

ghost use Rattle.std.specs.Prelude.{◌≡◌, List, ℕ, ◌≤◌, ◌<◌, leb, length};
ghost use Rattle.runs.specs.Searches.{last_below};
ghost use Rattle.lock.specs.Arrays.{lock_of};
ghost use Rattle.machine.specs.State.{Setup, State};
ghost use Rattle.machine.specs.Whereabouts.{leads, leader};
ghost use Rattle.steps.specs.Layout.{shares_size, most_workers};
ghost use Rattle.steps.specs.Memory.{share, Memory, Holds};
ghost use Rattle.lock_steps.specs.Lent.{with_seen};
ghost use Rattle.leader.specs.Numbers.{found, owns_in, due_at, due_in};

use lock::{Looked, Ticket, Worker, look};
use machine::Leader;
use memory::layout::SHARE;
use steps::Counts;
use steps::layout::{LOOKING, NUMBER, PLACE, REGISTERING, SERVING};

// Whether a worker at this place owns the lock: an owner's places are those from SERVING on.
fn is_owner(place: u64) -> bool
    ensures { result ≡ leb SERVING place }
{
    SERVING <= place
}

// The owner's number.
fn find_owner(store: &[u64], workers: u64) -> Option<u64>
    requires { (shares_size ≤ length store.now) × (workers ≤ most_workers) }
    ensures { found result ≡ last_below (owns_in store.now) workers }
{
    (0..workers)
        .rev()
        .find(|&w| is_owner(store[w as usize * SHARE + PLACE]))
}

// Whether a worker at this place has a ticket, registered or not, with which a look wins the lock.
fn is_due(
    place: u64,
    ticket: u64,
    slots: u64,
    wait: &[u64],
    tickets: &[u64],
    cells: &[u64],
    w: u64,
) -> bool
    requires { (0 < slots) × (slots ≤ length wait.now) × (w < length tickets.now) × (w < length cells.now) }
    ensures { (head tail : ℕ) (registrations : List ℕ) →
        result ≡ due_at slots (lock_of slots head tail wait.now registrations tickets.now cells.now)
        place ticket w }
{
    if place < REGISTERING || LOOKING < place {
        return false;
    }
    matches!(
        look(slots, wait, tickets, cells, Ticket(ticket), Worker(w)),
        Looked::Owns
    )
}

// The number of the worker that is due.
fn find_due(
    store: &[u64],
    workers: u64,
    slots: u64,
    wait: &[u64],
    tickets: &[u64],
    cells: &[u64],
) -> Option<u64>
    requires { (shares_size ≤ length store.now) × (workers ≤ most_workers) × (0 < slots) × (slots ≤ length wait.now)
        × (most_workers ≤ length tickets.now) × (most_workers ≤ length cells.now) }
    ensures { (head tail : ℕ) (registrations : List ℕ) → found result ≡ last_below
        (due_in slots (lock_of slots head tail wait.now registrations tickets.now cells.now)
        store.now) workers }
{
    (0..workers).rev().find(|&w| {
        let at = w as usize * SHARE;
        is_due(
            store[at + PLACE],
            store[at + NUMBER],
            slots,
            wait,
            tickets,
            cells,
            w,
        )
    })
}

// The owner; where nobody owns, the worker that is due; else nobody.
pub fn find_leader(n: Counts, store: &[u64], wait: &[u64], tickets: &[u64], cells: &[u64]) -> Leader
    requires { (shares_size ≤ length store.now) × (n.workers ≤ most_workers) × (0 < n.slots) × (n.slots ≤ length wait.now)
        × (most_workers ≤ length tickets.now) × (most_workers ≤ length cells.now) }
    ensures numbers { (head tail : ℕ) (registrations : List ℕ) → result ≡ leads (last_below (owns_in store.now) n.workers)
        (last_below
        (due_in n.slots (lock_of n.slots head tail wait.now registrations tickets.now cells.now)
        store.now) n.workers) }
    ensures meaning { (m : Memory) (c : Setup) (s : State) →
        Holds c (with_seen m n wait.now tickets.now cells.now m.rows) (share store.now) s →
        result ≡ leader c s }
{
    if let Some(owner) = find_owner(store, n.workers) {
        return Leader::Owner(owner);
    }
    match find_due(store, n.workers, n.slots, wait, tickets, cells) {
        Some(due) => Leader::Due(due),
        None => Leader::Nobody,
    }
}
