// What the program prints for a text.
ghost use Rattle.std.specs.Prelude.{◌≤◌, length};
ghost use Rattle.text.specs.Writing.{fields, Wrote};
ghost use Rattle.tools.specs.Result.{printed};
ghost use Rattle.tools.specs.Printing.{Front};
ghost use Rattle.bench_check.specs.Checking.{accepted_fields, checking};

use text::write::Writer;
use tools::show;

// Writes the line of an accepted plan, as far as the array reaches; it has at most 23 bytes.
fn put_accepted(looks: u64, out: &mut [u8]) -> usize
    ensures { Wrote out.old 0 (fields (accepted_fields looks)) result out.new × (result ≤ 23) }
{
    let mut to = Writer { out, at: 0 };
    to.put_field(b"A", b'\t');
    to.put_number(looks, b'\n');
    to.at
}

// Puts it into the first bytes of an output; how many bytes it has.
pub(crate) fn answer(text: &[u8], output: &mut [u8]) -> usize
    requires { 26 ≤ length output.old }
    ensures { Front result (printed (checking text.now)) output.old output.new }
{
    let answer = reader::check(text);
    match answer.checked {
        Ok(()) => put_accepted(answer.looks, output),
        Err(refused) => show(Err(refused), output),
    }
}
