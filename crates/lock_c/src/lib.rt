// The lock for callers in C and Rust: numbers and slices in, numbers out. Each function takes any arguments. It refuses exactly those
// that the lock's function of that name does not take, and changes nothing then; on all others it says what that function answers and
// writes. `Answered F A R` says: where the arguments are such that F, A; where they are not, R.

#![tactic(auto)]

ghost use Rattle.std.specs.Prelude.{◌≡◌, true, false, List, ℕ, ◌+◌, ◌%◌, ◌^◌, ◌≤◌, ◌<◌, length, set, replicate};
ghost use Rattle.lock.specs.Lock.{join, is_free, look as looks, front, tells};
ghost use Rattle.lock.specs.Arrays.{lock_of};
ghost use Rattle.lock.specs.Answers.{seen, waiter};
ghost use Rattle.lock_c.specs.Answered.{Answered};
ghost use Rattle.lock_c.specs.Numbers.{TellsLook, TellsFront};

// The C interface needs numbers: C has no enum with a value, so `ok` and `kind` say what an answer is.
// `ok` is 1, and 0 in a refusal.
#[repr(C)]
#[derive(Clone, Copy)]
pub struct Ends {
    pub ok: u64,
    pub head: u64,
    pub tail: u64,
}

#[repr(C)]
#[derive(Clone, Copy)]
pub struct Taken {
    pub ok: u64,
    pub ticket: u64,
    pub head: u64,
    pub tail: u64,
}

// `kind` is 0 in a refusal. `specs/Numbers.antt` has the others.
#[repr(C)]
#[derive(Clone, Copy)]
pub struct Answer {
    pub kind: u64,
    pub value: u64,
}

// A hand-over: `kind` and `let_in` tell whom it let in as an `Answer` does, `by` whose session did it.
#[repr(C)]
#[derive(Clone, Copy)]
pub struct Handed {
    pub ok: u64,
    pub head: u64,
    pub tail: u64,
    pub kind: u64,
    pub let_in: u64,
    pub by: u64,
}

fn ends_at(head: u64, tail: u64) -> lock::Ends
    ensures { (result.head.0 ≡ head) × (result.tail.0 ≡ tail) }
{
    lock::Ends {
        head: lock::Ticket(head),
        tail: lock::Ticket(tail),
    }
}

impl Answer {
    const REFUSED: Answer = Answer { kind: 0, value: 0 };
}

impl From<lock::Looked> for Answer {
    ghost from_gives = { λ looked a. TellsLook a.kind a.value (seen looked) };

    fn from(looked: lock::Looked) -> Answer {
        match looked {
            lock::Looked::NotYet => Answer { kind: 1, value: 0 },
            lock::Looked::Receives(task) => Answer {
                kind: 2,
                value: task,
            },
            lock::Looked::Owns => Answer { kind: 3, value: 0 },
        }
    }
}

impl From<Option<lock::Worker>> for Answer {
    ghost from_gives = { λ front a. TellsFront a.kind a.value (waiter front) };

    fn from(front: Option<lock::Worker>) -> Answer {
        match front {
            None => Answer { kind: 1, value: 0 },
            Some(w) => Answer {
                kind: 2,
                value: w.0,
            },
        }
    }
}

#[unsafe(no_mangle)]
pub extern "C" fn salfunye_lock_start(
    slots: u64,
    wait: &mut [u64],
    registrations: &mut [u64],
    cell_tickets: &mut [u64],
    cell_tasks: &mut [u64],
) -> Ends
    ensures { Answered (slots + 1 < 2 ^ 64)
        ((result.ok ≡ 1) × (result.head ≡ slots) × (result.tail ≡ slots + 1)
        × (wait.new ≡ replicate (length wait.old) slots)
        × (registrations.new ≡ replicate (length registrations.old) 0)
        × (cell_tickets.new ≡ replicate (length cell_tickets.old) 0)
        × (cell_tasks.new ≡ replicate (length cell_tasks.old) 0))
        ((result.ok ≡ 0) × (result.head ≡ 0) × (result.tail ≡ 0)
        × (wait.new ≡ wait.old) × (registrations.new ≡ registrations.old)
        × (cell_tickets.new ≡ cell_tickets.old) × (cell_tasks.new ≡ cell_tasks.old)) }
{
    if slots == u64::MAX {
        return Ends {
            ok: 0,
            head: 0,
            tail: 0,
        };
    }
    let ends = lock::start(slots, wait, registrations, cell_tickets, cell_tasks);
    Ends {
        ok: 1,
        head: ends.head.0,
        tail: ends.tail.0,
    }
}

#[unsafe(no_mangle)]
pub extern "C" fn salfunye_lock_take_ticket(head: u64, tail: u64) -> Taken
    ensures { Answered (head + 1 < 2 ^ 64)
        ((result.ok ≡ 1) × (result.ticket ≡ head) × (result.head ≡ head + 1) × (result.tail ≡ tail))
        ((result.ok ≡ 0) × (result.ticket ≡ 0) × (result.head ≡ head) × (result.tail ≡ tail)) }
{
    if head == u64::MAX {
        return Taken {
            ok: 0,
            ticket: 0,
            head,
            tail,
        };
    }
    let taken = lock::take_ticket(ends_at(head, tail));
    Taken {
        ok: 1,
        ticket: taken.ticket.0,
        head: taken.ends.head.0,
        tail: taken.ends.tail.0,
    }
}

#[unsafe(no_mangle)]
pub extern "C" fn salfunye_lock_register(
    slots: u64,
    registrations: &mut [u64],
    ticket: u64,
    worker: u64,
) -> bool
    ensures { Answered ((0 < slots) × (slots ≤ length registrations.old) × (ticket + worker < 2 ^ 64))
        ((result ≡ true) × (registrations.new ≡ set registrations.old (ticket % slots) (join ticket worker)))
        ((result ≡ false) × (registrations.new ≡ registrations.old)) }
{
    if slots == 0 || registrations.len() < slots as usize || u64::MAX - ticket < worker {
        return false;
    }
    lock::register(
        slots,
        registrations,
        lock::Ticket(ticket),
        lock::Worker(worker),
    );
    true
}

#[unsafe(no_mangle)]
pub extern "C" fn salfunye_lock_look(
    slots: u64,
    wait: &[u64],
    cell_tickets: &[u64],
    cell_tasks: &[u64],
    ticket: u64,
    worker: u64,
) -> Answer
    ensures { Answered ((0 < slots) × (slots ≤ length wait.now)
        × (worker < length cell_tickets.now) × (worker < length cell_tasks.now))
        ((head tail : ℕ) (registrations : List ℕ) →
        TellsLook result.kind result.value
        (looks slots (lock_of slots head tail wait.now registrations cell_tickets.now cell_tasks.now)
        ticket worker))
        ((result.kind ≡ 0) × (result.value ≡ 0)) }
{
    if slots == 0
        || wait.len() < slots as usize
        || cell_tickets.len() <= worker as usize
        || cell_tasks.len() <= worker as usize
    {
        return Answer::REFUSED;
    }
    Answer::from(lock::look(
        slots,
        wait,
        cell_tickets,
        cell_tasks,
        lock::Ticket(ticket),
        lock::Worker(worker),
    ))
}

#[unsafe(no_mangle)]
pub extern "C" fn salfunye_lock_hand_over(
    slots: u64,
    head: u64,
    tail: u64,
    wait: &mut [u64],
    registrations: &[u64],
    owner: u64,
) -> Handed
    ensures { Answered ((0 < slots) × (slots ≤ length wait.old) × (slots ≤ length registrations.now)
        × (tail + 1 < 2 ^ 64))
        ((result.ok ≡ 1) × (result.head ≡ head) × (result.tail ≡ tail + 1)
        × ((tickets tasks : List ℕ) → TellsFront result.kind result.let_in
        (tells slots (lock_of slots head tail wait.old registrations.now tickets tasks) owner).let_in)
        × (result.by ≡ owner)
        × (wait.new ≡ set wait.old (tail % slots) tail))
        ((result.ok ≡ 0) × (result.head ≡ head) × (result.tail ≡ tail) × (result.kind ≡ 0) × (result.let_in ≡ 0) × (result.by ≡ 0)
        × (wait.new ≡ wait.old)) }
{
    if slots == 0
        || wait.len() < slots as usize
        || registrations.len() < slots as usize
        || tail == u64::MAX
    {
        return Handed {
            ok: 0,
            head,
            tail,
            kind: 0,
            let_in: 0,
            by: 0,
        };
    }
    let handed = lock::hand_over(
        slots,
        ends_at(head, tail),
        wait,
        registrations,
        lock::Worker(owner),
    );
    let let_in = Answer::from(handed.let_in);
    Handed {
        ok: 1,
        head: handed.ends.head.0,
        tail: handed.ends.tail.0,
        kind: let_in.kind,
        let_in: let_in.value,
        by: handed.by.0,
    }
}

#[unsafe(no_mangle)]
pub extern "C" fn salfunye_lock_front_waiter(
    slots: u64,
    head: u64,
    tail: u64,
    registrations: &[u64],
) -> Answer
    ensures { Answered ((0 < slots) × (slots ≤ length registrations.now))
        ((wait tickets tasks : List ℕ) →
        TellsFront result.kind result.value (front slots (lock_of slots head tail wait registrations.now tickets tasks)))
        ((result.kind ≡ 0) × (result.value ≡ 0)) }
{
    if slots == 0 || registrations.len() < slots as usize {
        return Answer::REFUSED;
    }
    Answer::from(lock::front_waiter(slots, ends_at(head, tail), registrations))
}

#[unsafe(no_mangle)]
pub extern "C" fn salfunye_lock_is_free(head: u64, tail: u64) -> bool
    ensures { (slots : ℕ) (wait registrations tickets tasks : List ℕ) →
        result ≡ is_free (lock_of slots head tail wait registrations tickets tasks) }
{
    lock::is_free(ends_at(head, tail))
}

#[unsafe(no_mangle)]
pub extern "C" fn salfunye_lock_fill(
    head: u64,
    tail: u64,
    cell_tickets: &mut [u64],
    cell_tasks: &mut [u64],
    worker: u64,
    task: u64,
) -> bool
    ensures { Answered ((worker < length cell_tickets.old) × (worker < length cell_tasks.old))
        ((result ≡ true) × (cell_tickets.new ≡ set cell_tickets.old worker tail)
        × (cell_tasks.new ≡ set cell_tasks.old worker task))
        ((result ≡ false) × (cell_tickets.new ≡ cell_tickets.old)
        × (cell_tasks.new ≡ cell_tasks.old)) }
{
    if cell_tickets.len() <= worker as usize || cell_tasks.len() <= worker as usize {
        return false;
    }
    lock::fill(
        ends_at(head, tail),
        cell_tickets,
        cell_tasks,
        lock::Worker(worker),
        task,
    );
    true
}
