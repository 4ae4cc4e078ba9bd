// Reads a plan from standard input and prints its report, or the line of its refusal.

#![tactic(auto)]

ghost use Rattle.std.specs.Prelude.{OnOk, IfSome};
ghost use Rattle.std.specs.Io.KnownBytes.{Appends};
ghost use Rattle.bench.specs.Answer.{printed};

use answer::answer;
use std::io;
use std::io::{Read, Write};

mod answer; // answer.rt: what is printed for a text

// From an input to what is printed for the whole of it.
fn serve<R: Read, W: Write>(input: &mut R, to: &mut W) -> io::Result<()>
    ensures { OnOk result (IfSome (R.remaining input.old) (λ text. Appends (W.contents to.old) (W.contents to.new) (printed text))) }
{
    // one byte more than a plan may have: of a longer text no more is needed, `cut_alike` in specs/Cut.antt
    let mut text = [0u8; 65537];
    // the store starts as zeros
    let mut store = [0; 8192];
    // no report is longer: `accepted_short` in specs/Short.antt of the crate play
    let mut output = [0u8; 14439];
    tools::serve(
        input,
        &mut text,
        to,
        &mut output,
        |text, output| answer(text, &mut store, output),
    )
}

fn main(rt: HostRuntime) -> io::Result<()> {
    serve(&mut rt.stdin(), &mut rt.stdout())
}
