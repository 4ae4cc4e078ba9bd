// One line of a plan text: `specs/Lines.antt` says what is answered for its fields, `specs/Accesses.antt`
// what for a task's accesses.

#![tactic(auto)]

ghost use Rattle.std.specs.Prelude.{◌≡◌};
ghost use Rattle.lines.specs.Judging.{judged};

use accesses::{Accesses, judge_task};
use line::{Kind, Line};
use refusals::Refusal;

pub mod accesses; // accesses.rt: the accesses of a task's line
pub mod line; // line.rt: the other fields of a line, by its kind

// Judges a line that has ended.
pub fn judge(line: Line, a: Accesses, tasks: usize) -> Result<(), Refusal>
    ensures { result ≡ judged line a tasks }
{
    line.judged?;
    match line.kind {
        Kind::Task => judge_task(a, tasks),
        _ => Ok(()),
    }
}
