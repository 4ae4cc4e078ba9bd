// The delegation ticket lock over lent arrays; `slots` is the ring's size. `specs/Lock.antt` says what the lock is, `specs/Arrays.antt` how
// it lies in the arrays, `proofs/Promise.antt` what a caller may count on. A contract says what the lent arrays and the ends come to, and
// which operation of the lock that is, whatever lies in the arrays that the function is not lent.
// The C interface needs the arrays apart, each as a slice: its callers lend to a function only those that it reads or writes.

#![tactic(auto)]

ghost use Rattle.std.specs.Prelude.{◌≡◌, List, ℕ, ◌+◌, ◌%◌, ◌^◌, ◌≤◌, ◌<◌, length, set, replicate};
ghost use Rattle.lock.specs.Lock as L;
ghost use Rattle.lock.specs.Lock.{EMPTY, join, worker_in};
ghost use Rattle.lock.specs.Arrays.{lock_of};
ghost use Rattle.lock.specs.Answers.{seen, waiter, told};

// A ticket and a worker's number: `joined` alone adds the two.
#[derive(Clone, Copy)]
pub struct Ticket(pub u64);

#[derive(Clone, Copy)]
pub struct Worker(pub u64);

// The ticket that is taken next, and the one that the next hand-over lets in.
#[derive(Clone, Copy)]
pub struct Ends {
    pub head: Ticket,
    pub tail: Ticket,
}

#[derive(Clone, Copy)]
pub struct Taken {
    pub ticket: Ticket,
    pub ends: Ends,
}

#[derive(Clone, Copy)]
pub enum Looked {
    NotYet,
    Receives(u64),
    Owns,
}

// The ends after a hand-over, whom it let in, and whose session did it.
#[derive(Clone, Copy)]
pub struct HandedOver {
    pub ends: Ends,
    pub let_in: Option<Worker>,
    pub by: Worker,
}

// A registration: the one place where a ticket and a worker number are added.
fn joined(ticket: Ticket, worker: Worker) -> u64
    requires { ticket.0 + worker.0 < 2 ^ 64 }
    ensures { result ≡ join ticket.0 worker.0 }
{
    ticket.0 + worker.0
}

// The worker out of a registration again.
fn worker_in(registration: u64, ticket: Ticket) -> Worker
    requires { ticket.0 ≤ registration }
    ensures { result.0 ≡ worker_in registration ticket.0 }
{
    Worker(registration - ticket.0)
}

// What a registration or a cell holds before it is written.
const EMPTY: u64 = 0;

// The slot of a ticket. A ring whose size is a power of two needs no division.
pub fn slot(ticket: Ticket, slots: u64) -> usize
    requires { 0 < slots }
    ensures { (result ≡ ticket.0 % slots) × (result < slots) }
{
    let mask = slots - 1;
    if slots & mask == 0 {
        return (ticket.0 & mask) as usize;
    }
    (ticket.0 % slots) as usize
}

// Sets the start values, in all of each array.
pub fn start(
    slots: u64,
    wait: &mut [u64],
    registrations: &mut [u64],
    cell_tickets: &mut [u64],
    cell_tasks: &mut [u64],
) -> Ends
    requires { slots + 1 < 2 ^ 64 }
    ensures ends { (result.head.0 ≡ slots) × (result.tail.0 ≡ slots + 1) }
    ensures waits { wait.new ≡ replicate (length wait.old) slots }
    ensures others { (registrations.new ≡ replicate (length registrations.old) EMPTY)
        × (cell_tickets.new ≡ replicate (length cell_tickets.old) EMPTY)
        × (cell_tasks.new ≡ replicate (length cell_tasks.old) EMPTY) }
    ensures lock { lock_of slots result.head.0 result.tail.0 wait.new registrations.new
        cell_tickets.new cell_tasks.new ≡ L.start slots }
{
    wait.fill(slots);
    registrations.fill(EMPTY);
    cell_tickets.fill(EMPTY);
    cell_tasks.fill(EMPTY);
    Ends {
        head: Ticket(slots),
        tail: Ticket(slots + 1),
    }
}

// Gives the head and raises it.
pub fn take_ticket(ends: Ends) -> Taken
    requires { ends.head.0 + 1 < 2 ^ 64 }
    ensures ends { (result.ticket.0 ≡ ends.head.0) × (result.ends.head.0 ≡ ends.head.0 + 1) × (result.ends.tail.0 ≡ ends.tail.0) }
    ensures lock { (slots : ℕ) (wait registrations tickets tasks : List ℕ) →
        lock_of slots result.ends.head.0 result.ends.tail.0 wait registrations tickets tasks
        ≡ L.take_ticket (lock_of slots ends.head.0 ends.tail.0 wait registrations tickets tasks) }
{
    let ticket = ends.head;
    Taken {
        ticket,
        ends: Ends {
            head: Ticket(ticket.0 + 1),
            tail: ends.tail,
        },
    }
}

// Writes the registration into the ticket's slot.
pub fn register(slots: u64, registrations: &mut [u64], ticket: Ticket, worker: Worker)
    requires { (0 < slots) × (slots ≤ length registrations.old) × (ticket.0 + worker.0 < 2 ^ 64) }
    ensures registrations { registrations.new
        ≡ set registrations.old (ticket.0 % slots) (join ticket.0 worker.0) }
    ensures lock { (head tail : ℕ) (wait tickets tasks : List ℕ) →
        lock_of slots head tail wait registrations.new tickets tasks
        ≡ L.register slots (lock_of slots head tail wait registrations.old tickets tasks) ticket.0 worker.0 }
{
    let at = slot(ticket, slots);
    registrations[at] = joined(ticket, worker);
}

// What a registered worker sees: that it isn't its turn, the task in its cell, or that it owns the lock.
pub fn look(
    slots: u64,
    wait: &[u64],
    cell_tickets: &[u64],
    cell_tasks: &[u64],
    ticket: Ticket,
    worker: Worker,
) -> Looked
    requires { (0 < slots) × (slots ≤ length wait.now)
        × (worker.0 < length cell_tickets.now) × (worker.0 < length cell_tasks.now) }
    ensures { (head tail : ℕ) (registrations : List ℕ) →
        seen result ≡ L.look slots
        (lock_of slots head tail wait.now registrations cell_tickets.now cell_tasks.now)
        ticket.0 worker.0 }
{
    let at = slot(ticket, slots);
    look_at(at, wait, cell_tickets, cell_tasks, ticket, worker)
}

// The same, by a worker that has its ticket's slot in hand.
pub fn look_at(
    at: usize,
    wait: &[u64],
    cell_tickets: &[u64],
    cell_tasks: &[u64],
    ticket: Ticket,
    worker: Worker,
) -> Looked
    requires { (at < length wait.now) × (worker.0 < length cell_tickets.now) × (worker.0 < length cell_tasks.now)
        × ((slots : ℕ) × (at ≡ ticket.0 % slots)) }
    ensures { (slots : ℕ) → at ≡ ticket.0 % slots → (head tail : ℕ) (registrations : List ℕ) →
        seen result ≡ L.look slots
        (lock_of slots head tail wait.now registrations cell_tickets.now cell_tasks.now)
        ticket.0 worker.0 }
{
    let t = ticket.0;
    let w = worker.0 as usize;
    if wait[at] < t {
        Looked::NotYet
    } else if cell_tickets[w] == t {
        Looked::Receives(cell_tasks[w])
    } else {
        Looked::Owns
    }
}

// The worker that is registered with the tail.
pub fn front_waiter(slots: u64, ends: Ends, registrations: &[u64]) -> Option<Worker>
    requires { (0 < slots) × (slots ≤ length registrations.now) }
    ensures { (wait tickets tasks : List ℕ) →
        waiter result ≡ L.front slots (lock_of slots ends.head.0 ends.tail.0 wait registrations.now tickets tasks) }
{
    let tail = ends.tail;
    let at = slot(tail, slots);
    let registration = registrations[at];
    if registration < tail.0 {
        None
    } else {
        Some(worker_in(registration, tail))
    }
}

// Writes the tail into its wait slot and raises it; tells whom this lets in, the session being the owner's.
pub fn hand_over(
    slots: u64,
    ends: Ends,
    wait: &mut [u64],
    registrations: &[u64],
    owner: Worker,
) -> HandedOver
    requires { (0 < slots) × (slots ≤ length wait.old) × (slots ≤ length registrations.now) × (ends.tail.0 + 1 < 2 ^ 64) }
    ensures ends { (result.ends.head.0 ≡ ends.head.0) × (result.ends.tail.0 ≡ ends.tail.0 + 1) }
    ensures waits { wait.new ≡ set wait.old (ends.tail.0 % slots) ends.tail.0 }
    ensures lock { (tickets tasks : List ℕ) →
        lock_of slots result.ends.head.0 result.ends.tail.0 wait.new registrations.now tickets tasks
        ≡ L.hand_over slots
        (lock_of slots ends.head.0 ends.tail.0 wait.old registrations.now tickets tasks) }
    ensures tells { (tickets tasks : List ℕ) →
        told result ≡ L.tells slots
        (lock_of slots ends.head.0 ends.tail.0 wait.old registrations.now tickets tasks) owner.0 }
{
    let let_in = front_waiter(slots, ends, registrations);
    let head = ends.head;
    let tail = ends.tail;
    let at = slot(tail, slots);
    wait[at] = tail.0;
    HandedOver {
        ends: Ends {
            head,
            tail: Ticket(tail.0 + 1),
        },
        let_in,
        by: owner,
    }
}

// Whether the tail is one past the head.
pub fn is_free(ends: Ends) -> bool
    ensures { (slots : ℕ) (wait registrations tickets tasks : List ℕ) →
        result ≡ L.is_free (lock_of slots ends.head.0 ends.tail.0 wait registrations tickets tasks) }
{
    let head = ends.head.0;
    let tail = ends.tail.0;
    head < tail && tail - head == 1
}

// Puts a task into a worker's cell, with the tail as its ticket.
pub fn fill(ends: Ends, cell_tickets: &mut [u64], cell_tasks: &mut [u64], worker: Worker, task: u64)
    requires { (worker.0 < length cell_tickets.old) × (worker.0 < length cell_tasks.old) }
    ensures tickets { cell_tickets.new ≡ set cell_tickets.old worker.0 ends.tail.0 }
    ensures tasks { cell_tasks.new ≡ set cell_tasks.old worker.0 task }
    ensures lock { (slots : ℕ) (wait registrations : List ℕ) →
        lock_of slots ends.head.0 ends.tail.0 wait registrations cell_tickets.new cell_tasks.new
        ≡ L.fill (lock_of slots ends.head.0 ends.tail.0 wait registrations cell_tickets.old cell_tasks.old)
        worker.0 task }
{
    let w = worker.0 as usize;
    cell_tickets[w] = ends.tail.0;
    cell_tasks[w] = task;
}
