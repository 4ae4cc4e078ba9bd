// The lines of a report.
ghost use Rattle.std.specs.Prelude.{◌≡◌, ℕ, ◌+◌, ◌^◌, ◌≤◌, ◌<◌, length};
ghost use Rattle.std.proofs.Math.Option.{Option};
ghost use Rattle.text.specs.Writing.{fields};
ghost use Rattle.text.specs.Writers.{Writes};
ghost use Rattle.tasks.specs.Tasks as Tasks;
ghost use Rattle.memory.specs.Layout as layout;
ghost use Rattle.memory.specs.Codes.{status_of, option_of};
ghost use Rattle.report.specs.Report.{outcome_fields, task_fields, lock_fields};
ghost use Rattle.report.specs.Sizes.{outcome_line_size, task_line_size, lock_line_size};

use crate::word::{put_leader, put_outcome, put_status};
use machine::Leader;
use memory::rows::{Outcome, Status};
use text::write::Writer;

pub(crate) fn put_outcome_line(finished: bool, picks: u64, permitted: u64, to: &mut Writer)
    requires { to.old.at + outcome_line_size < 2 ^ 64 }
    ensures short { to.new.at ≤ to.old.at + outcome_line_size }
    ensures wrote { Writes to.old (fields (outcome_fields finished picks permitted)) to.new }
{
    to.put_field(b"E", b'\t');
    put_outcome(finished, to);
    to.put_number(picks, b'\t');
    to.put_number(permitted, b'\n');
}

pub(crate) fn put_lock_line(head: u64, tail: u64, leader: Leader, to: &mut Writer)
    requires { to.old.at + lock_line_size < 2 ^ 64 }
    ensures { Writes to.old (fields (lock_fields head tail leader)) to.new }
{
    to.put_field(b"L", b'\t');
    to.put_number(head, b'\t');
    to.put_number(tail, b'\t');
    put_leader(leader, to);
}

pub(crate) fn put_task_line(
    i: u64,
    label: &[u8],
    task: Outcome,
    giver: Option<u64>,
    to: &mut Writer,
)
    requires { (to.old.at + task_line_size < 2 ^ 64) × (length label.now ≤ layout.most_label) }
    ensures short { to.new.at ≤ to.old.at + task_line_size }
    ensures wrote { (x : Tasks.Status) (g : Option ℕ) → status_of x ≡ task.status → option_of g ≡ giver
        → Writes to.old (fields (task_fields i label.now x task.runner task.receipt task.ending g)) to.new }
{
    let begun = Status::Running <= task.status;
    let over = Status::Over <= task.status;
    to.put_field(b"T", b'\t');
    to.put_number(i, b'\t');
    to.put_field(label, b'\t');
    put_status(task.status, to);
    to.put_option(begun.then_some(task.runner), b'\t');
    to.put_option(begun.then_some(task.receipt), b'\t');
    to.put_option(over.then_some(task.ending), b'\t');
    to.put_option(giver, b'\n');
}
