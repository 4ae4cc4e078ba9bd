// The fields of a report that are words, or a word before a number.
ghost use Rattle.std.specs.Prelude.{◌≡◌, ◌+◌, ◌^◌, ◌≤◌, ◌<◌};
ghost use Rattle.text.specs.Text.{tab, line_feed};
ghost use Rattle.text.specs.Writing.{field};
ghost use Rattle.text.specs.Writers.{Writes};
ghost use Rattle.tasks.specs.Tasks as Tasks;
ghost use Rattle.memory.specs.Codes.{status_of};
ghost use Rattle.report.specs.Report.{outcome_name, status_name, leader_field};
ghost use Rattle.report.specs.Sizes.{status_size, outcome_size, leader_size};

use machine::Leader;
use memory::rows::Status;
use text::write::Writer;

pub(crate) fn put_outcome(finished: bool, to: &mut Writer)
    requires { to.old.at + outcome_size < 2 ^ 64 }
    ensures short { to.new.at ≤ to.old.at + outcome_size }
    ensures wrote { Writes to.old (field (outcome_name finished) tab) to.new }
{
    let name: &[u8] = if finished { b"finished" } else { b"open" };
    to.put_field(name, b'\t');
}

pub(crate) fn put_status(status: Status, to: &mut Writer)
    requires { to.old.at + status_size < 2 ^ 64 }
    ensures short { to.new.at ≤ to.old.at + status_size }
    ensures wrote { (x : Tasks.Status) → status_of x ≡ status
        → Writes to.old (field (status_name x) tab) to.new }
{
    let name: &[u8] = match status {
        Status::New => b"new",
        Status::Waiting => b"waiting",
        Status::Ready => b"ready",
        Status::Held => b"held",
        Status::Running => b"run",
        Status::Over => b"over",
    };
    to.put_field(name, b'\t');
}

// Who leads the lock: the last field of its line.
pub(crate) fn put_leader(leader: Leader, to: &mut Writer)
    requires { to.old.at + leader_size < 2 ^ 64 }
    ensures { Writes to.old (field (leader_field leader) line_feed) to.new }
{
    match leader {
        Leader::Nobody => to.put_field(b"-", b'\n'),
        Leader::Owner(w) => to.put_number(w, b'\n'),
        Leader::Due(w) => {
            to.put_bytes(b">");
            to.put_number(w, b'\n');
        }
    }
}
