// Messages and notices: what a delivery changes at its access and its task.
ghost use Rattle.std.specs.Prelude.{◌≡◌, List, ◌++◌, ℕ, ◌+◌, ◌-◌, ◌*◌, ◌≤◌, ◌<◌, length, get_or};
ghost use Rattle.plan.specs.Plan.{Task};
ghost use Rattle.tasks.specs.Accesses.{next};
ghost use Rattle.tasks.specs.Flags.{Flags, flag_number, with, passes_read, passes_write, satisfied, Once};
ghost use Rattle.tasks.specs.Tasks.{Tasks, Message, Stand, free};
ghost use Rattle.tasks.specs.History.{lowered, passed, notice_of};
ghost use Rattle.memory.specs.Layout as layout;
ghost use Rattle.memory.specs.Codes.{reader_number, option_of};
ghost use Rattle.memory.specs.Shares.{Stored};
ghost use Rattle.memory.specs.Rows.{task_row, access_row, TaskRows, flagged_rows};
ghost use Rattle.memory.specs.Memory.{TaskMemory, memory, notices, Able, Acts, its_duty};

use super::flags::{RIGHTS, SENT, is_satisfied, passing};
use memory::layout;
use memory::rows::{AccessRow, Status, TaskRow};
use memory::share::{add, post, stand, take_mail};
use memory::tally::Tally;

// What a delivery does at its access: READ and WRITE that now pass on, and 1 where it is satisfied by it.
#[derive(Clone, Copy)]
struct Change {
    passed: u64,
    satisfied: u64,
}

// Sets the flags that a message brings to an access.
fn set_flags(accesses: &mut [AccessRow], to: u64, brought: u64) -> Change
    requires { (to < length accesses.old) × ((access_row accesses.old to).flags < 64) × (brought < 64) }
    ensures rows { accesses.new ≡ flagged_rows accesses.old to ((access_row accesses.old to).flags + brought) }
    ensures change { (reader : ℕ) (e m : Flags) → Once e → Once (with e m) →
        reader_number (access_row accesses.old to).reader ≡ reader →
        (access_row accesses.old to).flags ≡ flag_number e → brought ≡ flag_number m →
        (result.passed ≡ passes_read reader (with e m) - passes_read reader e + 2 * (passes_write (with e m) - passes_write e))
        × (result.satisfied ≡ satisfied reader (with e m) - satisfied reader e) }
{
    let row = &mut accesses[to as usize];
    let before = row.flags;
    let flags = before + brought;
    row.flags = flags;
    let reader = row.reader;
    Change {
        passed: passing(reader, flags).saturating_sub(passing(reader, before)),
        satisfied: is_satisfied(reader, flags).saturating_sub(is_satisfied(reader, before)),
    }
}

// Posts what passes on to the successor; how many messages that is.
fn pass_on(own: &mut [u64], to: u64, passes: u64, sender: u64) -> u64
    requires { (length own.old ≡ layout.part) × (get_or own.old layout.mail_at 0 < layout.mail_room)
        × (0 < passes → get_or own.old layout.mail_count 0 < layout.mail_room) × (sender < layout.most_accesses) }
    ensures { (ts : List Task) (e f : Flags) (reader : ℕ) (p : Stand) (mail : List Message) (adds : List ℕ) →
        Stored own.old p mail adds → to ≡ next ts sender → reader ≡ Rattle.tasks.specs.Accesses.reader ts sender →
        passes ≡ passes_read reader f - passes_read reader e + 2 * (passes_write f - passes_write e) →
        Stored own.new p (mail ++ passed ts sender e f) adds × (result ≡ length (passed ts sender e f)) }
{
    if passes == 0 {
        return 0;
    }
    post(own, to, passes, Some(sender));
    1
}

// After a pass message the sender is to be told; how many notices that is.
fn give_notice(own: &mut [u64], sender: Option<u64>, flags: u64) -> u64
    requires { length own.old ≡ layout.part }
    ensures { (m : Message) (mail : List Message) (adds : List ℕ) →
        Stored own.old free mail adds → Once m.flags → flags ≡ flag_number m.flags → sender ≡ option_of m.sender →
        Stored own.new (notice_of m m.sender) mail adds × (result ≡ notices (notice_of m m.sender)) }
{
    match sender {
        None => 0,
        Some(access) => {
            stand(own, layout::TELLING, access, flags % RIGHTS);
            1
        }
    }
}

// Lowers the count of a task; where that brings it to 0 the worker has the task to add.
pub(crate) fn lower(rows: &mut [TaskRow], own: &mut [u64], task: u64, by: u64)
    requires lengths { (task < length rows.old) × (length own.old ≡ layout.part) × (get_or own.old layout.adds_at 0 < layout.add_room) }
    requires adds { 0 < (task_row rows.old task).count → (task_row rows.old task).count ≤ by
        → get_or own.old layout.adds_count 0 < layout.add_room }
    ensures { (ts : List Task) (s : Tasks) (w : ℕ) (p : Stand) (mail : List Message) →
        task < length ts → TaskRows ts rows.old s.count s.status s.runner s.receipt s.ending →
        Stored own.old p mail (s.adds w) →
        TaskRows ts rows.new (lowered s w task by).count (lowered s w task by).status s.runner s.receipt s.ending
        × Stored own.new p mail ((lowered s w task by).adds w) }
{
    let count = rows[task as usize].count;
    if by < count {
        rows[task as usize].count = count - by;
        return;
    }
    if count == 0 {
        return;
    }
    let row = &mut rows[task as usize];
    row.count = 0;
    row.status = Status::Ready;
    add(own, task);
}

// Delivers the oldest message.
pub(crate) fn deliver(
    n: Tally,
    rows: &mut [TaskRow],
    accesses: &mut [AccessRow],
    own: &mut [u64],
) -> Tally
    requires { ((w : ℕ) × Able (memory n rows.old accesses.old) own.old w)
        × (get_or own.old layout.stand 0 ≡ layout.free) × (0 < get_or own.old layout.mail_count 0) }
    ensures { (k w : ℕ) → Acts its_duty k (memory n rows.old accesses.old) own.old
        (memory result rows.new accesses.new) own.new w }
{
    let mail = take_mail(own);
    let to = mail.to;
    let change = set_flags(accesses, to, mail.flags);
    let row = &accesses[to as usize];
    let posted = pass_on(own, row.next, change.passed, to);
    let noticed = give_notice(own, mail.sender, mail.flags);
    lower(rows, own, row.task, change.satisfied);
    Tally {
        pending: n.pending - 1 + posted + noticed,
        ..n
    }
}

// Tells the sender of a pass message what it has passed on.
pub(crate) fn tell(n: Tally, accesses: &mut [AccessRow], own: &mut [u64]) -> Tally
    requires { ((m : TaskMemory) × (w : ℕ) × Able (memory n m.rows accesses.old) own.old w)
        × (get_or own.old layout.stand 0 ≡ layout.telling) }
    ensures { (m : TaskMemory) (k w : ℕ) → Acts its_duty k (memory n m.rows accesses.old) own.old
        (memory result m.rows accesses.new) own.new w }
{
    let row = &mut accesses[own[layout::ABOUT] as usize];
    row.flags += SENT * own[layout::LEFT];
    stand(own, layout::FREE, 0, 0);
    Tally {
        pending: n.pending - 1,
        ..n
    }
}
