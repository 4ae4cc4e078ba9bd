// The order lines of an accepted plan, played: their picks are taken one after the other.

#![tactic(auto)]

ghost use Rattle.std.specs.Prelude.{◌≡◌, drop};
ghost use Rattle.steps.specs.Layout.{shares_size};
ghost use Rattle.scheduler.specs.Lent.{memory_of};
ghost use Rattle.orders.specs.Played.{LineAble, LinePlayed, OrdersAble, OrdersPlayed};

use picks::{Source, count_of, draw};
use plan::order::Order;
use scheduler::arrays::Arrays;
use scheduler::{is_finished, pick};
use steps::Counts;

// Takes picks of one order line until so many are taken in all, as long as the state is not finished.
fn play_line(
    source: Source,
    end: u64,
    begin: Counts,
    arrays: &mut Arrays,
    store: &mut [u64],
) -> Counts
    requires { LineAble end source (memory_of begin arrays.old) store.old }
    ensures held { LinePlayed end source (memory_of begin arrays.old) store.old
        (memory_of result arrays.new) store.new }
    ensures later { drop shares_size store.new ≡ drop shares_size store.old }
{
    let mut n = begin;
    let mut line = source;
    // no `for`: each pick counts itself, and may be the last
    while n.picks < end && !is_finished(n) {
        let drawn = draw(line, n.workers);
        line = drawn.source;
        n = pick(n, arrays, store, drawn.worker as usize);
    }
    n
}

// Takes the picks of order lines, up to the limit.
pub fn play_orders(
    lines: &[Order],
    limit: u64,
    begin: Counts,
    arrays: &mut Arrays,
    store: &mut [u64],
) -> Counts
    requires { OrdersAble lines.now (memory_of begin arrays.old) store.old }
    ensures held { OrdersPlayed lines.now limit (memory_of begin arrays.old) store.old
        (memory_of result arrays.new) store.new }
    ensures later { drop shares_size store.new ≡ drop shares_size store.old }
{
    let mut n = begin;
    for order in lines {
        let count = count_of(*order, n.workers);
        let end = (n.picks + count).min(limit);
        n = play_line(Source::from(*order), end, n, arrays, store);
        if n.picks == limit || is_finished(n) {
            return n;
        }
    }
    n
}
