// The line of a chain: what it costs, and the tasks to which the links lead.
ghost use Rattle.std.specs.Prelude.{◌≡◌, cond, List, ◌∷◌, map, ℕ, ◌≤◌, length, ltb};
ghost use Rattle.text.specs.Text.{tab, line_feed, decimal};
ghost use Rattle.text.specs.Writing.{fields};
ghost use Rattle.text.specs.Writers.{Writes};
ghost use Rattle.kept.specs.Layout as lay;
ghost use Rattle.chain.specs.Links.{Leads, Rising};

use crate::link::Link;
use text::write::Writer;

// A tab before another task, or else a line feed.
fn end_before(next: usize, n: usize) -> u8
    ensures { result ≡ cond (ltb next n) tab line_feed }
{
    if next < n { b'\t' } else { b'\n' }
}

// Writes the line.
pub(crate) fn put_chain(first: Link, links: &[Link], to: &mut Writer)
    requires { (length links.now ≤ lay.most_tasks) × Rising links.now × (to.old.at ≡ 0) }
    ensures { (xs : List ℕ) → Leads links.now (length links.now) first.next xs →
        Writes to.old (fields (decimal first.sum ∷ map decimal xs)) to.new }
{
    let n = links.len();
    let mut at = first.next;
    to.put_number(first.sum, end_before(at, n));
    // no `for` goes where the links lead
    while at < n {
        let next = links[at].next;
        to.put_number(at as u64, end_before(next, n));
        at = next;
    }
}
