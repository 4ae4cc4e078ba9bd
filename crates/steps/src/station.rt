// The device's part of a share: `specs/Memory.antt` says which number stands where.
ghost use Rattle.std.specs.Prelude.{◌≡◌, List, [], ◌∷◌, ◌++◌, ℕ, ◌+◌, ◌≤◌, ◌<◌, length, get_or, set};
ghost use Rattle.runs.specs.Circular.{entries};
ghost use Rattle.machine.specs.State.{Place};
ghost use Rattle.machine.specs.Ready.{arrive};
ghost use Rattle.steps.specs.Layout.{station_size, queued_at, slot_at, queue_slots, LOOKING, READY};
ghost use Rattle.steps.specs.Codes.{Coded};
ghost use Rattle.steps.specs.Memory.{Stationed, moved, pushed, emptied, drained};

use super::layout::{LOOKING, NUMBER, PLACE, QUEUE, QUEUED, READY, SLOT};

// The worker goes to a place.
pub fn go(own: &mut [u64], place: u64, number: u64)
    requires { length own.old ≡ station_size }
    ensures numbers { own.new ≡ moved own.old place number }
    ensures meaning { (p to : Place) (queue : List ℕ) →
        Stationed own.old p queue → Coded place number to → Stationed own.new to queue }
{
    own[PLACE] = place;
    own[NUMBER] = number;
}

// The worker waits with a ticket, and notes its slot, so that no look has to find it.
pub fn wait_with(own: &mut [u64], ticket: u64, slot: u64)
    requires { length own.old ≡ station_size }
    ensures numbers { own.new ≡ set (moved own.old LOOKING ticket) slot_at slot }
    ensures meaning { (p to : Place) (queue : List ℕ) →
        Stationed own.old p queue → Coded LOOKING ticket to → Stationed own.new to queue }
{
    go(own, LOOKING, ticket);
    own[SLOT] = slot;
}

// Pushes a task onto the queue.
pub(crate) fn push(own: &mut [u64], task: u64)
    requires { (length own.old ≡ station_size) × (get_or own.old queued_at 0 < queue_slots) }
    ensures numbers { own.new ≡ pushed own.old task }
    ensures meaning { (p : Place) (queue : List ℕ) →
        Stationed own.old p queue → Stationed own.new p (queue ++ task ∷ []) }
{
    let n = own[QUEUED];
    let at = QUEUE + n as usize;
    own[at] = task;
    own[QUEUED] = n + 1;
}

// The tasks of the queue arrive in the ready list, a circular buffer with `n` entries, the oldest at `at`; the new number of them. What lies
// behind the buffer stays.
pub fn drain(own: &mut [u64], ready: &mut [u64], at: u64, n: u64) -> u64
    requires { (length own.old ≡ station_size) × (READY ≤ length ready.old) × (at < READY) × (n + get_or own.old queued_at 0 ≤ READY)
        × (get_or own.old queued_at 0 ≤ queue_slots) }
    ensures numbers { (result ≡ n + get_or own.old queued_at 0) × (own.new ≡ emptied own.old)
        × (ready.new ≡ drained own.old ready.old at n (get_or own.old queued_at 0)) }
    ensures station { (p : Place) (queue : List ℕ) → Stationed own.old p queue → Stationed own.new p [] }
    ensures ready { (p : Place) (queue tasks : List ℕ) →
        Stationed own.old p queue → entries (λ k. get_or ready.old k 0) READY at n ≡ tasks
        → entries (λ k. get_or ready.new k 0) READY at result ≡ arrive tasks queue }
{
    let count = own[QUEUED];
    if count == 0 {
        return n;
    }
    for i in 0..count {
        let to = ((at + n + i) % READY) as usize;
        let from = QUEUE + i as usize;
        ready[to] = own[from];
    }
    own[QUEUED] = 0;
    n + count
}
