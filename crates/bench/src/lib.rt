// The bench: checks a plan text, and runs it. `specs/Answer.antt` says what both answer and what they leave in store and output,
// `specs/Told.antt` which number and values of the paper a run's answer is.

#![tactic(auto)]

ghost use Rattle.std.specs.Prelude.{◌≡◌, ◌++◌, ◌*◌, ◌≤◌, length, drop, replicate};
ghost use Rattle.plan.specs.Reading.{reading};
ghost use Rattle.reader.specs.Verdict.{told as told_check, told_of as told_text};
ghost use Rattle.bench.specs.Answer.{text_size, store_size, check as checks, played, run as runs};
ghost use Rattle.bench.specs.Told.{told, told_of};

use kept::layout;
use kept::tasks::BLANK;
use plan::order::Order;
use play::{Ran, run_plan};
use reader::CheckedText;
use refusals::{Refusal, Refused};

const TEXT_SIZE: usize = 65536;

const STORE_SIZE: usize = 8192;

// An order line has four bytes or more: those of a text of so many bytes have room in the few, those of any other in the many. The fewer
// are laid sooner.
const SHORT_TEXT: usize = 2048;

const FEW_LINES: usize = 512;

const MANY_LINES: usize = 16384;

// What stands where no order line is kept.
const NO_ORDER: Order = Order::Picks {
    worker: 0,
    count: 0,
};

// Checks a plan text.
pub fn check(text: &[u8]) -> CheckedText
    ensures answer { result ≡ checks text.now }
    ensures told { told_check result ≡ told_text text.now }
{
    reader::check(text)
}

// Sets the first n numbers of a store to 0.
fn clear(store: &mut [u64], n: usize)
    requires { n ≤ length store.old }
    ensures { store.new ≡ replicate n 0 ++ drop n store.old }
{
    store[..n].fill(0);
}

// Runs a text that is not too long, with room for its order lines.
fn run_with(
    text: &[u8],
    lines: &mut [Order],
    limit: u64,
    store: &mut [u64],
    output: &mut [u8],
) -> Result<Ran, Refused>
    requires { (length text.now ≤ text_size) × (length text.now ≤ 4 * length lines.old) × (store_size ≤ length store.old) }
    ensures { record { answer = result; store = store.new; output = output.new }
        ≡ played limit store.old output.old (reading text.now) }
{
    clear(store, STORE_SIZE);
    let mut plan = [BLANK; layout::MOST_TASKS];
    let read = reader::read(text, &mut plan, lines).plan?;
    let answer = run_plan(text, &plan, lines, read, limit, store, output);
    clear(store, STORE_SIZE); // its first numbers end as 0
    answer
}

// Runs a plan text, with as many picks as the limit allows, and writes the report.
pub fn run(text: &[u8], limit: u64, store: &mut [u64], output: &mut [u8]) -> Result<Ran, Refused>
    ensures outcome { record { answer = result; store = store.new; output = output.new }
        ≡ runs limit store.old output.old text.now }
    ensures told { told result ≡ told_of limit store.old output.old text.now }
{
    if TEXT_SIZE < text.len() {
        return Err(Refused {
            refusal: Refusal::TextTooLong,
            line: 0,
        });
    }
    if store.len() < STORE_SIZE {
        return Err(Refused {
            refusal: Refusal::StoreTooShort,
            line: 0,
        });
    }
    if text.len() <= SHORT_TEXT {
        let mut lines = [NO_ORDER; FEW_LINES];
        return run_with(text, &mut lines, limit, store, output);
    }
    let mut lines = [NO_ORDER; MANY_LINES];
    run_with(text, &mut lines, limit, store, output)
}
