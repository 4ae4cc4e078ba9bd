// The longest chain of a plan: `specs/Longest.antt` says which one that is, and what is written of any text.

#![tactic(auto)]

ghost use Rattle.std.specs.Prelude.{◌≡◌, List};
ghost use Rattle.plan.specs.Plan.{Task};
ghost use Rattle.tools.specs.Result as results;
ghost use Rattle.tools.specs.Result.{outcome, written};
ghost use Rattle.tools.specs.Told.{told, told_of};
ghost use Rattle.chain.specs.Longest.{chain_line, chain_of};
ghost use Rattle.chain.specs.Links.{Kept};

use kept::layout::MOST_TASKS;
use kept::tasks::{BLANK, Row};
use line::put_chain;
use link::{Link, find_first, link_tasks};
use refusals::{Refusal, Refused};
use text::write::Writer;

mod conflict; // conflict.rt: whether two tasks conflict
mod line; // line.rt: the line that is written
mod link; // link.rt: which task comes next in the longest chain

// Writes the longest chain of tasks that are kept.
fn tell(rows: &[Row], output: &mut [u8]) -> Result<usize, Refused>
    requires { (ts : List Task) × Kept rows.now ts }
    ensures { (ts : List Task) → Kept rows.now ts →
        outcome result output.new ≡ written output.old (results.result (chain_line ts)) }
{
    let mut store = [Link { sum: 0, next: 0 }; MOST_TASKS];
    let links = &mut store[..rows.len()];
    link_tasks(rows, links);
    let first = find_first(links);
    let mut nowhere = Writer {
        out: &mut [],
        at: 0,
    };
    put_chain(first, links, &mut nowhere);
    if output.len() < nowhere.at {
        return Err(Refused {
            refusal: Refusal::OutputTooShort,
            line: 0,
        });
    }
    let mut to = Writer { out: output, at: 0 };
    put_chain(first, links, &mut to);
    Ok(to.at)
}

// Writes the longest chain of a plan's text.
pub fn longest_chain(text: &[u8], output: &mut [u8]) -> Result<usize, Refused>
    ensures outcome { outcome result output.new ≡ written output.old (chain_of text.now) }
    ensures told { told result ≡ told_of output.old (chain_of text.now) }
{
    let mut rows = [BLANK; MOST_TASKS];
    let plan = reader::read(text, &mut rows, &mut []).plan?;
    tell(&rows[..plan.tasks], output)
}
