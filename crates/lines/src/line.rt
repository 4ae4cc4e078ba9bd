// One line: a function for each kind reads its fields and judges them, in the order of the refusals.
ghost use Rattle.std.specs.Prelude.{◌≡◌, ◌==◌, not, ◌&&◌, ℕ, ◌≤◌, ◌<◌, length};
ghost use Rattle.text.specs.Text.{within};
ghost use Rattle.text.specs.Fields.{clipped, held};
ghost use Rattle.plan.specs.Plan.{Plan};
ghost use Rattle.plan.specs.Line.{one_number, two_numbers, in_form, at_start, after_task, sizes_in_range};
ghost use Rattle.plan.specs.Line.{workers_line, mask_line, rounds_line, picks_line, seeded_line};
ghost use Rattle.lines.specs.Lines.{Says, number_alone, numbers_alone, both_held, sizes_held};
ghost use Rattle.lines.specs.Lines.{Sums, judges, judges_first, narrowed, ordered, Whole, TaskHead, LineAt};

use kept::tasks::{BLANK, Row};
use plan::field::read_label;
use plan::form::{Form, slots_of};
use plan::order::Order;
use refusals::Refusal;
use text::read::{Cursor, Malformed, Number};

// The ranges' ends.
const MOST_WORKERS: u64 = 32;

const MOST_SLOTS: u64 = 64;

const MOST_CAPACITY: u64 = 16;

const MOST_COST: u64 = 1000;

const MOST_PICKS: u64 = 4096;

const MOST_ROUNDS: u64 = 1000000;

const MOST_SEEDED: u64 = 1000000;

// What a line says. Of a task's line the row has label and cost, and the accesses are still to be read.
#[derive(Clone, Copy)]
pub enum Kind {
    Workers { workers: u64, form: Form },
    Task,
    Mask(u64),
    Order(Order),
}

// A line as it was read: what it says, and how its place and its numbers are judged; whether accesses follow.
#[derive(Clone, Copy)]
pub struct Line {
    pub kind: Kind,
    pub judged: Result<(), Refusal>,
    pub more: bool,
}

// What the lines so far come to: the workers (0 before the W line, as in the definitions' plan) and the form,
// how many tasks, how many order lines, and whether the last line is a task's, after which alone an M line
// may stand.
#[derive(Clone, Copy)]
pub struct Sofar {
    pub workers: u64,
    pub form: Form,
    pub tasks: usize,
    pub orders: usize,
    pub after_task: bool,
}

fn outside(low: u64, high: u64, n: u64) -> bool
    ensures { result ≡ not (within low high n) }
{
    !(low..=high).contains(&n)
}

// A number that ends its line.
fn last_number(cursor: &mut Cursor) -> Result<Number, Malformed>
    ensures field { Says held number_alone cursor.old.text.now cursor.old.at result cursor.new.at }
    ensures text { cursor.new.text.now ≡ cursor.old.text.now }
{
    let field = cursor.number()?;
    if field.more {
        return Err(Malformed { goes_on: true });
    }
    Ok(field.value)
}

// Two numbers, of which the second ends their line.
fn two_numbers(cursor: &mut Cursor) -> Result<(Number, Number), Malformed>
    ensures fields { Says both_held numbers_alone cursor.old.text.now cursor.old.at result cursor.new.at }
    ensures text { cursor.new.text.now ≡ cursor.old.text.now }
{
    let field = cursor.number()?;
    if !field.more {
        return Err(Malformed { goes_on: false });
    }
    let last = last_number(cursor)?;
    Ok((field.value, last))
}

// The place of a line is judged before its numbers.
fn judge_first(misplaced: bool, out: bool) -> Result<(), Refusal>
    ensures { result ≡ judges_first misplaced out }
{
    if misplaced {
        return Err(Refusal::Misplaced);
    }
    if out {
        return Err(Refusal::OutOfRange);
    }
    Ok(())
}

// The numbers that only the second form has.
fn sizes_outside(form: Form) -> bool
    ensures { result ≡ not (sizes_in_range form) }
{
    match form {
        Form::First => false,
        Form::Second { slots, capacity } => outside(1, MOST_SLOTS, slots)
            || outside(1, MOST_CAPACITY, capacity),
    }
}

// The numbers of a W line.
fn workers_outside(workers: u64, form: Form) -> bool
    ensures { result ≡ not (within 1 32 workers && sizes_in_range form) }
{
    outside(1, MOST_WORKERS, workers) || sizes_outside(form)
}

// A W line's place, its numbers, and then fewer slots than workers.
fn judge_workers(workers: u64, form: Form, misplaced: bool) -> Result<(), Refusal>
    ensures { (p : Plan) → misplaced ≡ not (at_start p) → result ≡ judges (workers_line p workers form) }
{
    judge_first(misplaced, workers_outside(workers, form))?;
    if slots_of(form) < workers {
        return Err(Refusal::TooFewSlots);
    }
    Ok(())
}

// The slots and the queue capacity, which end a W line of the second form.
fn read_sizes(cursor: &mut Cursor) -> Result<Form, Malformed>
    ensures fields { Says sizes_held numbers_alone cursor.old.text.now cursor.old.at result cursor.new.at }
    ensures text { cursor.new.text.now ≡ cursor.old.text.now }
{
    let (slots, capacity) = two_numbers(cursor)?;
    Ok(Form::Second {
        slots: slots.value,
        capacity: capacity.value,
    })
}

// W: first, and once; a line that goes on after the workers is of the second form.
fn read_workers(cursor: &mut Cursor, sofar: Sofar) -> Result<Line, Malformed>
    ensures line { (p : Plan) → Sums sofar p
        → Whole cursor.old.text.now cursor.old.at p (in_form (workers_line p)) result cursor.new.at }
    ensures text { cursor.new.text.now ≡ cursor.old.text.now }
{
    let field = cursor.number()?;
    let workers = field.value.value;
    let form = if field.more {
        read_sizes(cursor)?
    } else {
        Form::First
    };
    Ok(Line {
        kind: Kind::Workers { workers, form },
        judged: judge_workers(workers, form, sofar.workers != 0),
        more: false,
    })
}

// An M line's place, a bit that is no worker's, and then no bit at all.
fn judge_mask(mask: u64, workers: u64, misplaced: bool) -> Result<(), Refusal>
    requires { workers ≤ 32 }
    ensures { (p : Plan) (m : ℕ) → workers ≡ p.workers → mask ≡ clipped m
        → misplaced ≡ not (after_task p) → result ≡ judges (mask_line p m) }
{
    judge_first(misplaced, 1u64 << workers <= mask)?;
    if mask == 0 {
        return Err(Refusal::EmptyMask);
    }
    Ok(())
}

// M: which workers may run the task before.
fn read_mask(cursor: &mut Cursor, sofar: Sofar) -> Result<Line, Malformed>
    requires { sofar.workers ≤ 32 }
    ensures line { (p : Plan) → Sums sofar p
        → Whole cursor.old.text.now cursor.old.at p (one_number (mask_line p)) result cursor.new.at }
    ensures text { cursor.new.text.now ≡ cursor.old.text.now }
{
    let mask = last_number(cursor)?.value;
    Ok(Line {
        kind: Kind::Mask(mask),
        judged: judge_mask(mask, sofar.workers, !sofar.after_task),
        more: false,
    })
}

// P, R or S: after the W line.
fn order_line(order: Order, sofar: Sofar, out: bool) -> Line
    ensures { result ≡ ordered order (sofar.workers == 0) out }
{
    Line {
        kind: Kind::Order(order),
        judged: judge_first(sofar.workers == 0, out),
        more: false,
    }
}

// A worker or a count as an order line holds it: none that is in its range is cut.
fn narrow(n: u64) -> u32
    ensures { result ≡ narrowed n }
{
    n.min(u64::from(u32::MAX)) as u32
}

// R: rounds.
fn read_rounds(cursor: &mut Cursor, sofar: Sofar) -> Result<Line, Malformed>
    ensures line { (p : Plan) → Sums sofar p
        → Whole cursor.old.text.now cursor.old.at p (one_number (rounds_line p)) result cursor.new.at }
    ensures text { cursor.new.text.now ≡ cursor.old.text.now }
{
    let count = last_number(cursor)?.value;
    Ok(order_line(
        Order::Rounds {
            count: narrow(count),
        },
        sofar,
        outside(1, MOST_ROUNDS, count),
    ))
}

// P: a worker, so many times.
fn read_picks(cursor: &mut Cursor, sofar: Sofar) -> Result<Line, Malformed>
    requires { sofar.workers ≤ 32 }
    ensures line { (p : Plan) → Sums sofar p
        → Whole cursor.old.text.now cursor.old.at p (two_numbers (picks_line p)) result cursor.new.at }
    ensures text { cursor.new.text.now ≡ cursor.old.text.now }
{
    let (worker, count) = two_numbers(cursor)?;
    let out = sofar.workers <= worker.value || outside(1, MOST_PICKS, count.value);
    let order = Order::Picks {
        worker: narrow(worker.value),
        count: narrow(count.value),
    };
    Ok(order_line(order, sofar, out))
}

// S: a seed, and so many seeded picks.
fn read_seeded(cursor: &mut Cursor, sofar: Sofar) -> Result<Line, Malformed>
    ensures line { (p : Plan) → Sums sofar p
        → Whole cursor.old.text.now cursor.old.at p (two_numbers (seeded_line p)) result cursor.new.at }
    ensures text { cursor.new.text.now ≡ cursor.old.text.now }
{
    let (seed, count) = two_numbers(cursor)?;
    let out = !seed.fits || outside(1, MOST_SEEDED, count.value);
    let order = Order::Seeded {
        count: narrow(count.value),
        seed: seed.value,
    };
    Ok(order_line(order, sofar, out))
}

// T: a label and a cost; its accesses follow.
fn read_task(cursor: &mut Cursor, sofar: Sofar, row: &mut Row) -> Result<Line, Malformed>
    ensures line { (p : Plan) → Sums sofar p
        → TaskHead cursor.old.text.now cursor.old.at p row.new result cursor.new.at }
    ensures text { cursor.new.text.now ≡ cursor.old.text.now }
{
    let place = cursor.looks();
    let label = read_label(cursor)?;
    if !label.more {
        return Err(Malformed { goes_on: false });
    }
    let cost = cursor.number()?;
    *row = Row {
        place: place as u64,
        size: label.value as u64,
        cost: cost.value.value,
        ..BLANK
    };
    let misplaced = sofar.workers == 0 || sofar.orders != 0;
    Ok(Line {
        kind: Kind::Task,
        judged: judge_first(misplaced, MOST_COST < cost.value.value),
        more: cost.more,
    })
}

// The line at the cursor: a letter and a tab, and the fields of its kind.
pub fn read_line(cursor: &mut Cursor, sofar: Sofar, row: &mut Row) -> Result<Line, Malformed>
    requires { (cursor.old.at < length cursor.old.text.now) × (sofar.workers ≤ 32) }
    ensures line { (p : Plan) → Sums sofar p
        → LineAt cursor.old.text.now cursor.old.at p row.new result cursor.new.at }
    ensures text { cursor.new.text.now ≡ cursor.old.text.now }
{
    let letter = cursor.look();
    if letter == Some(b'\n') {
        return Err(Malformed { goes_on: false });
    }
    let after = cursor.look();
    if after != Some(b'\t') {
        return Err(Malformed::shown_by(after));
    }
    match letter {
        Some(b'W') => read_workers(cursor, sofar),
        Some(b'T') => read_task(cursor, sofar, row),
        Some(b'M') => read_mask(cursor, sofar),
        Some(b'P') => read_picks(cursor, sofar),
        Some(b'R') => read_rounds(cursor, sofar),
        Some(b'S') => read_seeded(cursor, sofar),
        _ => Err(Malformed { goes_on: true }),
    }
}
