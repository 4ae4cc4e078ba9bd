// Reads a plan from standard input and prints whether it is accepted, with the number of looks at its bytes, or the line of its refusal.

#![tactic(auto)]

ghost use Rattle.std.specs.Prelude.{OnOk, IfSome};
ghost use Rattle.std.specs.Io.KnownBytes.{Appends};
ghost use Rattle.tools.specs.Result.{printed};
ghost use Rattle.bench_check.specs.Checking.{checking};

use answer::answer;
use std::io;
use std::io::{Read, Write};

mod answer; // answer.rt: what is printed for a text

// From an input to what is printed for the whole of it.
fn serve<R: Read, W: Write>(input: &mut R, to: &mut W) -> io::Result<()>
    ensures { OnOk result (IfSome (R.remaining input.old) (λ text. Appends (W.contents to.old) (W.contents to.new) (printed (checking text)))) }
{
    // one byte more than a plan may have: of a longer text no more is needed, `cut_alike` in specs/Cut.antt of the crate tools
    let mut text = [0u8; 65537];
    // no line is longer
    let mut output = [0u8; 26];
    tools::serve(input, &mut text, to, &mut output, answer)
}

fn main(rt: HostRuntime) -> io::Result<()> {
    serve(&mut rt.stdin(), &mut rt.stdout())
}
