// Whether two tasks conflict, by the rows in which they are kept.
ghost use Rattle.std.specs.Prelude.{◌≡◌};
ghost use Rattle.std.specs.List.{list_any};
ghost use Rattle.plan.specs.Plan.{Task};
ghost use Rattle.plan.specs.Chains.{meet as Meet, conflict as Conflict};
ghost use Rattle.chain.specs.Links.{IsRow};

use kept::tasks::Row;
use plan::access::Access;

// Two accesses to one address, of which one writes.
fn meet(a: Access, b: Access) -> bool
    ensures { result ≡ Meet a b }
{
    a.address == b.address && (a.writes || b.writes)
}

// The accesses that are there.
fn accesses_of(row: &Row) -> &[Access]
    requires { (t : Task) × IsRow row.now t }
    ensures { (t : Task) → IsRow row.now t → result.now ≡ t.accesses }
{
    &row.accesses[..row.count as usize]
}

// Whether an access meets one of others.
fn meets(access: Access, others: &[Access]) -> bool
    ensures { result ≡ list_any (Meet access) others.now }
{
    others.iter().any(|other| meet(access, *other))
}

fn any_meets(accesses: &[Access], others: &[Access]) -> bool
    ensures { result ≡ list_any (λ access. list_any (Meet access) others.now) accesses.now }
{
    accesses.iter().any(|access| meets(*access, others))
}

// Whether the tasks of two rows conflict.
pub(crate) fn conflict(row: &Row, other: &Row) -> bool
    requires { ((t : Task) × IsRow row.now t) × ((u : Task) × IsRow other.now u) }
    ensures { (t u : Task) → IsRow row.now t → IsRow other.now u → result ≡ Conflict t u }
{
    any_meets(accesses_of(row), accesses_of(other))
}
