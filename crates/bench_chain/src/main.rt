// Reads a plan from standard input and prints its longest chain, or the line of its refusal.

#![tactic(auto)]

ghost use Rattle.std.specs.Prelude.{◌≤◌, length, OnOk, IfSome};
ghost use Rattle.std.specs.Io.KnownBytes.{Appends};
ghost use Rattle.tools.specs.Result.{printed};
ghost use Rattle.tools.specs.Printing.{Front};
ghost use Rattle.chain.specs.Longest.{chain_of};
ghost use Rattle.chain.specs.Short.{line_size};

use std::io;
use std::io::{Read, Write};
use tools::show;

// Puts what is printed for a text into the first bytes of an output; how many bytes it has.
fn answer(text: &[u8], output: &mut [u8]) -> usize
    requires { line_size ≤ length output.old }
    ensures { Front result (printed (chain_of text.now)) output.old output.new }
{
    show(chain::longest_chain(text, output), output)
}

// From an input to what is printed for the whole of it.
fn serve<R: Read, W: Write>(input: &mut R, to: &mut W) -> io::Result<()>
    ensures { OnOk result (IfSome (R.remaining input.old) (λ text. Appends (W.contents to.old) (W.contents to.new) (printed (chain_of text)))) }
{
    // one byte more than a plan may have: of a longer text no more is needed, `cut_alike` in specs/Cut.antt of the crate tools
    let mut text = [0u8; 65537];
    // no line is longer: `result_short` in proofs/Short.antt of the crate chain
    let mut output = [0u8; 409];
    tools::serve(input, &mut text, to, &mut output, answer)
}

fn main(rt: HostRuntime) -> io::Result<()> {
    serve(&mut rt.stdin(), &mut rt.stdout())
}
