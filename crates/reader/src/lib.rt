// Reads plan texts: see the specs of `plan` for what a text means, and specs/Verdict.antt here for what is answered.

#![tactic(auto)]

ghost use Rattle.std.specs.Prelude.{◌≡◌, false, ◌≤◌, length};
ghost use Rattle.refusals.specs.declared.Refusal.TheVariants as refusals;
ghost use Rattle.plan.specs.Plan.{Plan, empty_plan};
ghost use Rattle.plan.specs.Reading.{reading};
ghost use Rattle.kept.specs.Layout as lay;
ghost use Rattle.lines.specs.Lines.{Sums};
ghost use Rattle.reader.specs.Keeping.{IsMask, Keeps};
ghost use Rattle.reader.specs.Verdict.{verdict, told, told_of, outlined, lent, AtEnd, Gives};

use kept::keep;
use kept::tasks::{BLANK, Row, keep_mask};
use lines::accesses::{no_accesses, with_access};
use lines::judge;
use lines::line::{Kind, Sofar, read_line};
use plan::field::read_access;
use plan::form::Form;
use plan::order::Order;
use refusals::{Refusal, Refused};
use text::read::{Cursor, Malformed};

// What checking a text gives: the verdict, and the number of looks at bytes of the text.
#[derive(Clone, Copy)]
pub struct CheckedText {
    pub checked: Result<(), Refused>,
    pub looks: u64,
}

// Of an accepted text the plan's workers and its form, and how many tasks and order lines are kept.
#[derive(Clone, Copy)]
pub struct ReadPlan {
    pub workers: u64,
    pub form: Form,
    pub tasks: usize,
    pub orders: usize,
}

// A text as it was read, and the looks at its bytes.
#[derive(Clone, Copy)]
pub struct ReadText {
    pub plan: Result<ReadPlan, Refused>,
    pub looks: u64,
}

const TEXT_SIZE: usize = 65536;

// Why the lines end with one, and whether it goes on where it was left.
#[derive(Clone, Copy)]
struct Fault {
    refusal: Refusal,
    goes_on: bool,
}

impl From<Malformed> for Fault {
    ghost from_gives = { λ malformed fault.
        (fault.refusal ≡ refusals.Malformed) × (fault.goes_on ≡ malformed.goes_on) };

    fn from(malformed: Malformed) -> Fault {
        Fault {
            refusal: Refusal::Malformed,
            goes_on: malformed.goes_on,
        }
    }
}

// A line that was read whole.
impl From<Refusal> for Fault {
    ghost from_gives = { λ refusal fault. (fault.refusal ≡ refusal) × (fault.goes_on ≡ false) };

    fn from(refusal: Refusal) -> Fault {
        Fault {
            refusal,
            goes_on: false,
        }
    }
}

fn no_lines() -> Sofar
    ensures { Sums result empty_plan }
{
    Sofar {
        workers: 0,
        form: Form::First,
        tasks: 0,
        orders: 0,
        after_task: false,
    }
}

// What the lines come to at the end of the text: a plan has a W line.
fn whole_plan(sofar: Sofar) -> Result<ReadPlan, Fault>
    ensures { (p : Plan) → Sums sofar p → AtEnd p result }
{
    if sofar.workers == 0 {
        return Err(Refusal::Misplaced.into());
    }
    Ok(ReadPlan {
        workers: sofar.workers,
        form: sofar.form,
        tasks: sofar.tasks,
        orders: sofar.orders,
    })
}

// Keeps what a line without fault says, and counts it.
fn keep_line(sofar: Sofar, kind: Kind, row: Row, rows: &mut [Row], orders: &mut [Order]) -> Sofar
    requires { (sofar.tasks ≤ lay.most_tasks) × (sofar.orders ≤ 65536)
        × (IsMask kind → 1 ≤ sofar.tasks) }
    ensures { Keeps sofar kind row (lent rows.old orders.old) (lent rows.new orders.new) result }
{
    let mut s = sofar;
    match kind {
        Kind::Workers { workers, form } => {
            s.workers = workers;
            s.form = form;
        }
        Kind::Task => {
            keep(rows, sofar.tasks, row);
            s.tasks += 1;
            s.after_task = true;
        }
        Kind::Mask(mask) => {
            keep_mask(rows, sofar.tasks - 1, mask);
            s.after_task = false;
        }
        Kind::Order(order) => {
            keep(orders, sofar.orders, order);
            s.orders += 1;
            s.after_task = false;
        }
    }
    s
}

// Reads the lines of a text that is not too long: lines outside, fields inside; the first fault leaves both
// loops.
fn read_lines(text: &[u8], rows: &mut [Row], orders: &mut [Order]) -> ReadText
    requires { length text.now ≤ 65536 }
    ensures { Gives text.now (lent rows.old orders.old)
        (lent rows.new orders.new) result (reading text.now) }
{
    let mut cursor = Cursor::new(text);
    let mut sofar = no_lines();
    let mut number: u64 = 1;
    let mut row = BLANK;
    let found = 'lines: loop {
        if cursor.is_at_end() {
            break 'lines whole_plan(sofar);
        }
        let line = match read_line(&mut cursor, sofar, &mut row) {
            Ok(line) => line,
            Err(malformed) => break 'lines Err(malformed.into()),
        };
        let mut accesses = no_accesses();
        let mut more = line.more;
        while more {
            match read_access(&mut cursor) {
                Ok(field) => {
                    accesses = with_access(accesses, &mut row, field.value);
                    more = field.more;
                }
                Err(malformed) => break 'lines Err(malformed.into()),
            }
        }
        if let Err(refusal) = judge(line, accesses, sofar.tasks) {
            break 'lines Err(refusal.into());
        }
        sofar = keep_line(sofar, line.kind, row, rows, orders);
        number += 1;
    };
    let plan = match found {
        Ok(plan) => Ok(plan),
        Err(fault) => {
            if fault.goes_on {
                cursor.finish_line();
            }
            Err(Refused {
                refusal: fault.refusal,
                line: number,
            })
        }
    };
    ReadText {
        plan,
        looks: cursor.looks() as u64,
    }
}

// Reads a plan text; its tasks and order lines are kept as far as there is room.
pub fn read(text: &[u8], rows: &mut [Row], orders: &mut [Order]) -> ReadText
    ensures { Gives text.now (lent rows.old orders.old)
        (lent rows.new orders.new) result (reading text.now) }
{
    if TEXT_SIZE < text.len() {
        return ReadText {
            plan: Err(Refused {
                refusal: Refusal::TextTooLong,
                line: 0,
            }),
            looks: 0,
        };
    }
    read_lines(text, rows, orders)
}

// Reads a plan text and keeps nothing of its tasks and order lines.
pub fn outline(text: &[u8]) -> ReadText
    ensures { result ≡ outlined text.now (reading text.now) }
{
    read(text, &mut [], &mut [])
}

// Checks a plan text.
pub fn check(text: &[u8]) -> CheckedText
    ensures answer { result ≡ verdict text.now }
    ensures told { told result ≡ told_of text.now }
{
    let read = outline(text);
    CheckedText {
        checked: read.plan.map(|_| ()),
        looks: read.looks,
    }
}
