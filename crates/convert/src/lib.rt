// Converters between the two forms of a plan: its text with another W line. `specs/Convert.antt` says what both make of any text.

#![tactic(auto)]

ghost use Rattle.std.specs.Prelude.{◌≡◌, ◌+◌, ◌^◌, ◌<◌, ◌++◌, ◌≤◌, length};
ghost use Rattle.text.specs.Text.{line};
ghost use Rattle.text.specs.Writing.{fields};
ghost use Rattle.text.specs.Writers.{Writes};
ghost use Rattle.tools.specs.Result.{plan_text, outcome, written};
ghost use Rattle.tools.specs.Told.{told, told_of};
ghost use Rattle.convert.specs.Convert.{after_line, workers_fields, spelled_out, has_first_sizes, to_second, to_first};

use plan::form::{Form, capacity_of, slots_of};
use refusals::{Refusal, Refused};
use text::write::Writer;
use tools::TEXT_SIZE;

const FIRST_LINE: u64 = 1;

// The second form, with what the first one means spelled out.
fn spelled_out(form: Form) -> Form
    ensures { result ≡ spelled_out form }
{
    Form::Second {
        slots: slots_of(form),
        capacity: capacity_of(form),
    }
}

// Whether the sizes are those that the first form means.
fn has_first_sizes(form: Form) -> bool
    ensures { result ≡ has_first_sizes form }
{
    slots_of(form) == slots_of(Form::First) && capacity_of(form) == capacity_of(Form::First)
}

// Writes a W line; it has at most 65 bytes.
fn put_workers(workers: u64, form: Form, to: &mut Writer)
    requires { to.old.at + 65 < 2 ^ 64 }
    ensures short { to.new.at ≤ to.old.at + 65 }
    ensures wrote { Writes to.old (fields (workers_fields workers form)) to.new }
{
    to.put_field(b"W", b'\t');
    match form {
        Form::First => to.put_number(workers, b'\n'),
        Form::Second { slots, capacity } => {
            to.put_number(workers, b'\t');
            to.put_number(slots, b'\t');
            to.put_number(capacity, b'\n');
        }
    }
}

// How many bytes a W line has.
fn workers_size(workers: u64, form: Form) -> usize
    ensures { (result ≡ length (line (workers_fields workers form))) × (result ≤ 65) }
{
    let mut to = Writer {
        out: &mut [],
        at: 0,
    };
    put_workers(workers, form, &mut to);
    to.at
}

// Writes a plan's text with the W line of another form in the place of its own.
fn rewrite(
    text: &[u8],
    workers: u64,
    own: Form,
    wanted: Form,
    output: &mut [u8],
) -> Result<usize, Refused>
    requires { (length text.now ≤ 65536) × (line (workers_fields workers own) ++ after_line text.now ≡ text.now) }
    ensures { outcome result output.new
        ≡ written output.old (plan_text (line (workers_fields workers wanted) ++ after_line text.now)) }
{
    let rest = &text[workers_size(workers, own)..];
    let length = workers_size(workers, wanted) + rest.len();
    if TEXT_SIZE < length {
        return Err(Refused {
            refusal: Refusal::TextTooLong,
            line: 0,
        });
    }
    if output.len() < length {
        return Err(Refused {
            refusal: Refusal::OutputTooShort,
            line: 0,
        });
    }
    let mut to = Writer { out: output, at: 0 };
    put_workers(workers, wanted, &mut to);
    to.put_bytes(rest);
    Ok(length)
}

// Writes a plan's text in the second form.
pub fn to_second(text: &[u8], output: &mut [u8]) -> Result<usize, Refused>
    ensures outcome { outcome result output.new ≡ written output.old (to_second text.now) }
    ensures told { told result ≡ told_of output.old (to_second text.now) }
{
    let plan = reader::outline(text).plan?;
    rewrite(
        text,
        plan.workers,
        plan.form,
        spelled_out(plan.form),
        output,
    )
}

// Takes a plan's text back to the first form.
pub fn to_first(text: &[u8], output: &mut [u8]) -> Result<usize, Refused>
    ensures outcome { outcome result output.new ≡ written output.old (to_first text.now) }
    ensures told { told result ≡ told_of output.old (to_first text.now) }
{
    let plan = reader::outline(text).plan?;
    if !has_first_sizes(plan.form) {
        return Err(Refused {
            refusal: Refusal::OtherSizes,
            line: FIRST_LINE,
        });
    }
    rewrite(text, plan.workers, plan.form, Form::First, output)
}
