// The longest chain for Rust and C callers: its answer in numbers, as `specs/Numbers.antt` of the crate tools says. `include/salfunye.h`
// declares the function.

#![tactic(auto)]

ghost use Rattle.std.specs.Prelude.{◌≡◌};
ghost use Rattle.tools.specs.Numbers.{numbers};
ghost use Rattle.tools.specs.Result.{written};
ghost use Rattle.chain.specs.Longest.{chain_of};

use tools::AnswerC;

// Writes the longest chain of a plan's text.
#[unsafe(no_mangle)]
pub extern "C" fn salfunye_chain(text: &[u8], output: &mut [u8]) -> AnswerC
    ensures answer { result ≡ numbers (written output.old (chain_of text.now)).answer }
    ensures output { output.new ≡ (written output.old (chain_of text.now)).output }
{
    AnswerC::from(chain::longest_chain(text, output))
}
