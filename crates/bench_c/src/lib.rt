// The bench for Rust and C callers: its answers in numbers, as the C interface needs them and `specs/Numbers.antt` says.
// `include/salfunye.h` declares both functions.

#![tactic(auto)]

ghost use Rattle.std.specs.Prelude.{◌≡◌};
ghost use Rattle.bench.specs.Answer.{check, run};
ghost use Rattle.bench_c.specs.Numbers.{checked_numbers, ran_numbers};

use play::Ran;
use reader::CheckedText;
use refusals::Refused;

// The refusal's number, or 0 for a text that is accepted, its line, and the number of looks at bytes of the text.
#[repr(C)]
#[derive(Clone, Copy)]
pub struct CheckedC {
    pub number: u64,
    pub line: u64,
    pub looks: u64,
}

impl From<CheckedText> for CheckedC {
    ghost from_gives = { λ answer gives. gives ≡ checked_numbers answer };

    fn from(answer: CheckedText) -> CheckedC {
        match answer.checked {
            Ok(()) => CheckedC {
                number: 0,
                line: 0,
                looks: answer.looks,
            },
            Err(refused) => CheckedC {
                number: refused.refusal.into(),
                line: refused.line,
                looks: answer.looks,
            },
        }
    }
}

// Number and line of a run; then the picks taken and the report's length, which are 0 in a refusal.
#[repr(C)]
#[derive(Clone, Copy)]
pub struct RanC {
    pub number: u64,
    pub line: u64,
    pub picks: u64,
    pub length: u64,
}

impl From<Result<Ran, Refused>> for RanC {
    ghost from_gives = { λ answer gives. gives ≡ ran_numbers answer };

    fn from(answer: Result<Ran, Refused>) -> RanC {
        match answer {
            Ok(ran) => RanC {
                number: 0,
                line: 0,
                picks: ran.picks,
                length: ran.length as u64,
            },
            Err(refused) => RanC {
                number: refused.refusal.into(),
                line: refused.line,
                picks: 0,
                length: 0,
            },
        }
    }
}

// Checks a plan text.
#[unsafe(no_mangle)]
pub extern "C" fn salfunye_check(text: &[u8]) -> CheckedC
    ensures { result ≡ checked_numbers (check text.now) }
{
    CheckedC::from(bench::check(text))
}

// Runs a plan text, with as many picks as the limit allows, and writes the report.
#[unsafe(no_mangle)]
pub extern "C" fn salfunye_run(
    text: &[u8],
    limit: u64,
    store: &mut [u64],
    output: &mut [u8],
) -> RanC
    ensures answer { result ≡ ran_numbers (run limit store.old output.old text.now).answer }
    ensures store { store.new ≡ (run limit store.old output.old text.now).store }
    ensures output { output.new ≡ (run limit store.old output.old text.now).output }
{
    RanC::from(bench::run(text, limit, store, output))
}
