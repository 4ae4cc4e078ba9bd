// The picks of an order line, drawn one at a time: see specs/Sources.antt for what a source gives.

#![tactic(auto)]

ghost use Rattle.std.specs.Prelude.{◌≡◌, ℕ, ◌≤◌, ◌<◌, length};
ghost use Rattle.plan.specs.Orders.{picks_of};
ghost use Rattle.plan.specs.Accepted.{OrderFormed};
ghost use Rattle.picks.specs.Sources.{next_in_turn, Formed, Draws, Opens};

use plan::order::Order;
use plan::seed::{next_state, seeded_worker};

// Picks without end.
#[derive(Clone, Copy, PartialEq, Eq)]
pub enum Source {
    // of the same worker
    Same(u64),
    // of workers in turn, from this one on
    InTurn(u64),
    // by the generator, which is in this state
    Seeded(u64),
}

#[derive(Clone, Copy)]
pub struct Drawn {
    pub worker: u64,
    pub source: Source,
}

// How many picks an order line has.
pub fn count_of(order: Order, workers: u64) -> u64
    requires { (0 < workers) × (workers ≤ 32) × OrderFormed workers order }
    ensures { result ≡ length (picks_of workers order) }
{
    match order {
        Order::Picks { count, .. } => u64::from(count),
        Order::Rounds { count } => u64::from(count) * workers,
        Order::Seeded { count, .. } => u64::from(count),
    }
}

// The picks of an order line, whatever the number of workers.
impl From<Order> for Source {
    ghost from_gives = { λ order source. (W : ℕ) → 0 < W → OrderFormed W order → Opens W order source };

    fn from(order: Order) -> Source {
        match order {
            Order::Picks { worker, .. } => Source::Same(u64::from(worker)),
            Order::Rounds { .. } => Source::InTurn(0),
            Order::Seeded { seed, .. } => Source::Seeded(seed),
        }
    }
}

// The next worker: after the last the first.
fn next_in_turn(worker: u64, workers: u64) -> u64
    requires { worker < workers }
    ensures { result ≡ next_in_turn workers worker }
{
    let next = worker + 1;
    if next < workers { next } else { 0 }
}

// The next pick, and those after it.
pub fn draw(source: Source, workers: u64) -> Drawn
    requires { Formed workers source }
    ensures { Draws workers source result }
{
    match source {
        Source::Same(worker) => Drawn { worker, source },
        Source::InTurn(worker) => Drawn {
            worker,
            source: Source::InTurn(next_in_turn(worker, workers)),
        },
        Source::Seeded(before) => {
            let state = next_state(before);
            Drawn {
                worker: seeded_worker(state, workers),
                source: Source::Seeded(state),
            }
        }
    }
}
