// What a worker does with the tasks before all else.
ghost use Rattle.std.specs.Prelude.{◌⊎◌, ℕ, ◌<◌, get_or};
ghost use Rattle.memory.specs.Layout as layout;
ghost use Rattle.memory.specs.Memory.{memory, Able, Acts, its_duty};

use super::deliver::{deliver, tell};
use super::work::work;
use memory::layout;
use memory::rows::{AccessRow, TaskRow};
use memory::tally::Tally;

// Its duty: it tells, delivers, works or ends.
pub fn mind(
    n: Tally,
    rows: &mut [TaskRow],
    accesses: &mut [AccessRow],
    own: &mut [u64],
    time: u64,
) -> Tally
    requires { ((w : ℕ) × Able (memory n rows.old accesses.old) own.old w)
        × ((layout.free < get_or own.old layout.stand 0) ⊎ (0 < get_or own.old layout.mail_count 0)) }
    ensures { (w : ℕ) → Acts its_duty time (memory n rows.old accesses.old) own.old
        (memory result rows.new accesses.new) own.new w }
{
    match own[layout::STAND] {
        layout::FREE => deliver(n, rows, accesses, own),
        layout::TELLING => tell(n, accesses, own),
        _ => work(n, rows, own, time),
    }
}
