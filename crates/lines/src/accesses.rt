// The accesses of a task's line.
ghost use Rattle.std.specs.Prelude.{◌≡◌, List, [], ◌∷◌, ◌++◌, ◌≤◌, length};
ghost use Rattle.plan.specs.declared.access.Access.{Access};
ghost use Rattle.kept.specs.Layout as lay;
ghost use Rattle.kept.specs.Tasks.{Placed, row_of};
ghost use Rattle.lines.specs.Accesses.{touches, with_accesses, Reads, limits_of};

use kept::layout::{MOST_TASK_ACCESSES, MOST_TASKS};
use kept::tasks::Row;
use plan::access::Access;
use refusals::Refusal;

const MOST_ADDRESS: u64 = 65535;

// More than four accesses are counted as so many.
const TOO_MANY: usize = 5;

// What is read of a task's accesses: how many, counted up to five, whether an address was out of range, and
// whether one came again. The first four stand in the task's row.
#[derive(Clone, Copy)]
pub struct Accesses {
    pub count: usize,
    pub out: bool,
    pub again: bool,
}

// None is read yet.
pub fn no_accesses() -> Accesses
    ensures { (t : Placed) → Reads t [] result (row_of (with_accesses t [])) }
{
    Accesses {
        count: 0,
        out: false,
        again: false,
    }
}

// Whether one of the first n accesses in the row is to this address.
fn is_touched(row: &Row, n: usize, address: u64) -> bool
    requires { n ≤ lay.most_task_accesses }
    ensures { (t : Placed) (xs : List Access) → length xs ≡ n → row.now ≡ row_of (with_accesses t xs)
        → result ≡ touches xs address }
{
    row.accesses[..n].iter().any(|a| a.address == address)
}

// One access more: from the fifth on only counted.
pub fn with_access(a: Accesses, row: &mut Row, access: Access) -> Accesses
    ensures { (t : Placed) (xs : List Access) → Reads t xs a row.old → Reads t (xs ++ access ∷ []) result row.new }
{
    let out = a.out || MOST_ADDRESS < access.address;
    if MOST_TASK_ACCESSES <= a.count {
        return Accesses {
            count: TOO_MANY,
            out,
            again: a.again,
        };
    }
    let again = a.again || is_touched(row, a.count, access.address);
    row.accesses[a.count] = access;
    row.count = a.count as u64 + 1;
    Accesses {
        count: a.count + 1,
        out,
        again,
    }
}

// Judges the accesses of a task's line, of which place and cost have no fault: it is task number n.
pub(crate) fn judge_task(a: Accesses, n: usize) -> Result<(), Refusal>
    ensures { result ≡ limits_of a n }
{
    if a.out {
        return Err(Refusal::OutOfRange);
    }
    if MOST_TASKS <= n || MOST_TASK_ACCESSES < a.count {
        return Err(Refusal::TooMany);
    }
    if a.again {
        return Err(Refusal::AddressTwice);
    }
    Ok(())
}
