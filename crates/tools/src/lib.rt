// What is common to the tools that make something of a plan: what their programs read and print, and their answer in numbers for C. A tool's
// answer is how many bytes the result has that it wrote, or the refusal. `specs/Result.antt` says what a tool answers and leaves in the
// output, `specs/Told.antt` which number and values of the paper that is.

#![tactic(auto)]

ghost use Rattle.std.specs.Prelude.{◌≡◌};
ghost use Rattle.tools.specs.Numbers.{numbers};
ghost use Rattle.tools.specs.Printing.{Shown};

mod input;
mod program;

pub use input::read_into;
pub use program::serve;
use refusals::Refused;
use text::write::Writer;

// How long a plan's text may be, one that is read or written.
pub const TEXT_SIZE: usize = 65536;

// The answer for C, in numbers as its interface needs them: the refusal's number, or 0 where there is a result, its line, and the length, which is 0 in a refusal.
#[repr(C)]
#[derive(Clone, Copy)]
pub struct AnswerC {
    pub number: u64,
    pub line: u64,
    pub length: u64,
}

impl From<Result<usize, Refused>> for AnswerC {
    ghost from_gives = { λ answer gives. gives ≡ numbers answer };

    fn from(answer: Result<usize, Refused>) -> AnswerC {
        match answer {
            Ok(length) => AnswerC {
                number: 0,
                line: 0,
                length: length as u64,
            },
            Err(refused) => AnswerC {
                number: refused.refusal.into(),
                line: refused.line,
                length: 0,
            },
        }
    }
}

// Brings what a program prints to the front of the output, where a result stands already; how many bytes it has.
pub fn show(answer: Result<usize, Refused>, output: &mut [u8]) -> usize
    ensures { Shown answer output.old result output.new }
{
    match answer {
        Ok(length) => length,
        Err(refused) => {
            let mut to = Writer { out: output, at: 0 };
            refused.put(&mut to);
            to.at
        }
    }
}
