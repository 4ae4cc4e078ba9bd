// The converters for Rust and C callers: their answers in numbers, as `specs/Numbers.antt` of the crate tools says. `include/salfunye.h`
// declares both functions.

#![tactic(auto)]

ghost use Rattle.std.specs.Prelude.{◌≡◌};
ghost use Rattle.tools.specs.Numbers.{numbers};
ghost use Rattle.tools.specs.Result.{written};
ghost use Rattle.convert.specs.Convert.{to_second, to_first};

use tools::AnswerC;

// Writes a plan's text in the second form.
#[unsafe(no_mangle)]
pub extern "C" fn salfunye_to_second(text: &[u8], output: &mut [u8]) -> AnswerC
    ensures answer { result ≡ numbers (written output.old (to_second text.now)).answer }
    ensures output { output.new ≡ (written output.old (to_second text.now)).output }
{
    AnswerC::from(convert::to_second(text, output))
}

// Takes a plan's text back to the first form.
#[unsafe(no_mangle)]
pub extern "C" fn salfunye_to_first(text: &[u8], output: &mut [u8]) -> AnswerC
    ensures answer { result ≡ numbers (written output.old (to_first text.now)).answer }
    ensures output { output.new ≡ (written output.old (to_first text.now)).output }
{
    AnswerC::from(convert::to_first(text, output))
}
