// A run of an accepted plan: it is laid into arrays, its order lines are played, and its report is written. `specs/Loaded.antt` says how
// the plan was kept, `specs/Outcome.antt` what its run writes.

#![tactic(auto)]

ghost use Rattle.std.specs.Prelude.{◌≡◌, List, ℕ, ◌^◌, ◌≤◌, ◌<◌, leb, length, get_or, take, drop, replicate};
ghost use Rattle.std.proofs.Math.Option.{none};
ghost use Rattle.plan.specs.Plan.{Plan};
ghost use Rattle.plan.specs.Reading.{reading, accepted};
ghost use Rattle.machine.specs.State.{Setup, State, start};
ghost use Rattle.machine.specs.Ranges.{Sized};
ghost use Rattle.memory.specs.Layout as layout;
ghost use Rattle.memory.specs.Labels.{Labels};
ghost use Rattle.steps.specs.Layout.{most_workers, most_slots, shares_size};
ghost use Rattle.steps.specs.Memory.{share, Given, Holds};
ghost use Rattle.scheduler.specs.Lent.{memory_of};
ghost use Rattle.report.specs.Report.{report};
ghost use Rattle.report.specs.Shown.{Shown};
ghost use Rattle.report.specs.Sizes.{Small};
ghost use Rattle.orders.specs.Reached.{setup_of, reached};
ghost use Rattle.play.specs.Outcome.{report_of, written};
ghost use Rattle.play.specs.Loaded.{Loaded, LoadedTasks};
ghost use Rattle.play.specs.Summed.{Summed};

use kept::tasks::Row;
use leader::find_leader;
use memory::labels::{Label, NO_LABEL};
use memory::layout::{MOST_ACCESSES, MOST_TASKS, MOST_WORKERS};
use memory::rows::{NO_ACCESS, NO_TASK};
use orders::play_orders;
use plan::form::{capacity_of, slots_of};
use plan::order::Order;
use reader::ReadPlan;
use refusals::{Refusal, Refused};
use report::{Summary, put_report, total_permitted};
use scheduler::arrays::Arrays;
use scheduler::{fresh, is_finished};
use steps::Counts;
use steps::device::Device;
use steps::layout::{MOST_SLOTS, READY_SLOTS};
use tables::lay_out;
use tables::mask::lay_masks;

// No report is longer: `accepted_short`.
const LONGEST: usize = 14439;

// What a run gives that is not refused: the picks taken and the report's length.
#[derive(Clone, Copy, PartialEq, Eq)]
pub struct Ran {
    pub picks: u64,
    pub length: usize,
}

// What the report says of a run besides its tasks.
fn summary_of(n: Counts, arrays: &Arrays, store: &[u64]) -> Summary
    requires room { (shares_size ≤ length store.now) × (n.workers ≤ most_workers) × (0 < n.slots) × (n.slots ≤ most_slots) }
    requires masks { (n.tally.tasks ≤ layout.most_tasks)
        × ((i : ℕ) → i < n.tally.tasks → get_or arrays.now.device.masks i 0 < 2 ^ 32) }
    ensures { Summed n arrays.now store.now result }
{
    let head = n.ends.head;
    let tail = n.ends.tail;
    Summary {
        finished: is_finished(n),
        picks: n.picks,
        permitted: total_permitted(&arrays.device.masks, n.tally.tasks as usize),
        head: head.0,
        tail: tail.0,
        leader: find_leader(n, store, &arrays.wait, &arrays.tickets, &arrays.cells),
        tasks: n.tally.tasks,
    }
}

// Whether an output of so many bytes is long enough for the report. It is only counted where it may not be.
fn has_room(
    summary: Summary,
    text: &[u8],
    arrays: &Arrays,
    labels: &[Label; MOST_TASKS],
    size: usize,
) -> bool
    requires few { summary.tasks ≤ layout.most_tasks }
    requires small { (c : Setup) × (s : State) × Small c s
        × Shown c s summary arrays.now.rows labels.now arrays.now.device.givers text.now }
    ensures { (c : Setup) (s : State) → Small c s →
        Shown c s summary arrays.now.rows labels.now arrays.now.device.givers text.now →
        result ≡ leb (length (report c s)) size }
{
    if LONGEST <= size {
        return true;
    }
    let mut nothing = [0u8; 0];
    let givers = &arrays.device.givers;
    put_report(summary, text, &arrays.rows, labels, givers, &mut nothing) <= size
}

// Writes the report of a run, where the output is long enough.
fn answer_of(
    text: &[u8],
    n: Counts,
    arrays: &Arrays,
    labels: &[Label; MOST_TASKS],
    store: &[u64],
    output: &mut [u8],
) -> Result<Ran, Refused>
    requires room { shares_size ≤ length store.now }
    requires sized { (c : Setup) × (s : State) × Sized c × Small c s × Labels c.tasks text.now labels.now
        × Holds c (memory_of n arrays.now) (share store.now) s }
    ensures { (c : Setup) (s : State) (left : List ℕ) → Sized c → Small c s →
        Labels c.tasks text.now labels.now →
        Holds c (memory_of n arrays.now) (share store.now) s →
        (result ≡ (written left output.old s.picks (report c s)).answer)
        × (output.new ≡ (written left output.old s.picks (report c s)).output) }
{
    let summary = summary_of(n, arrays, store);
    if has_room(summary, text, arrays, labels, output.len()) {
        let givers = &arrays.device.givers;
        let length = put_report(summary, text, &arrays.rows, labels, givers, output);
        let picks = n.picks;
        return Ok(Ran { picks, length });
    }
    Err(Refused {
        refusal: Refusal::OutputTooShort,
        line: 0,
    })
}

// Lays a plan that was read into the arrays of a run in which no pick has been taken.
fn set_up(
    plan: &[Row],
    read: ReadPlan,
    arrays: &mut Arrays,
    labels: &mut [Label; MOST_TASKS],
) -> Counts
    requires { (text : List ℕ) × (p : Plan) × (reading text ≡ accepted p)
        × LoadedTasks text plan.now read p }
    ensures { (text : List ℕ) (p : Plan) (store : List ℕ) → reading text ≡ accepted p →
        LoadedTasks text plan.now read p →
        shares_size ≤ length store → take shares_size store ≡ replicate shares_size 0 →
        Given layout.most_tasks arrays.old.device.givers (λ _. none) →
        Holds (setup_of p) (memory_of result arrays.new) (share store) (start (setup_of p))
        × Labels p.tasks text labels.new }
{
    let slots = slots_of(read.form);
    let capacity = capacity_of(read.form);
    let tasks = read.tasks;
    lay_out(plan, tasks, &mut arrays.rows, &mut arrays.accesses, labels);
    lay_masks(plan, tasks, read.workers, &mut arrays.device.masks);
    let ends = lock::start(
        slots,
        &mut arrays.wait,
        &mut arrays.registrations,
        &mut arrays.tickets,
        &mut arrays.cells,
    );
    fresh(ends, read.workers, slots, capacity, tasks as u64)
}

// Runs a plan that was read, from a store whose shares are all 0.
pub fn run_plan(
    text: &[u8],
    plan: &[Row],
    lines: &[Order],
    read: ReadPlan,
    limit: u64,
    store: &mut [u64],
    output: &mut [u8],
) -> Result<Ran, Refused>
    requires room { (shares_size ≤ length store.old) × (take shares_size store.old ≡ replicate shares_size 0) }
    requires loaded { (p : Plan) × (reading text.now ≡ accepted p) × Loaded text.now plan.now lines.now read p }
    ensures answer { (p : Plan) (left : List ℕ) → reading text.now ≡ accepted p →
        Loaded text.now plan.now lines.now read p →
        (result ≡ (written left output.old (reached p limit).picks (report_of p limit)).answer)
        × (output.new ≡ (written left output.old (reached p limit).picks (report_of p limit)).output) }
    ensures later { drop shares_size store.new ≡ drop shares_size store.old }
{
    let mut arrays = Arrays {
        wait: [0; MOST_SLOTS],
        registrations: [0; MOST_SLOTS],
        tickets: [0; MOST_WORKERS],
        cells: [0; MOST_WORKERS],
        device: Device {
            ready: [0; READY_SLOTS],
            givers: [None; MOST_TASKS],
            masks: [0; MOST_TASKS],
        },
        rows: [NO_TASK; MOST_TASKS],
        accesses: [NO_ACCESS; MOST_ACCESSES],
    };
    let mut labels = [NO_LABEL; MOST_TASKS];
    let begin = set_up(plan, read, &mut arrays, &mut labels);
    let n = play_orders(&lines[..read.orders], limit, begin, &mut arrays, store);
    answer_of(text, n, &arrays, &labels, store, output)
}
