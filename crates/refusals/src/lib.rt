// Refusals: why, the paper's number, and the line that a program prints.

#![tactic(auto)]

ghost use Rattle.std.specs.Prelude.{◌≡◌, ◌+◌, ◌^◌, ◌≤◌, ◌<◌};
ghost use Rattle.refusals.specs.Number.{number};
ghost use Rattle.refusals.specs.Line.{refusal_fields};
ghost use Rattle.text.specs.Writing.{fields};
ghost use Rattle.text.specs.Writers.{Writes};

use text::write::Writer;

// Why a text, a store or an output is refused; `number` in specs/Number.antt gives the paper's number of each.
#[derive(Clone, Copy, PartialEq, Eq)]
pub enum Refusal {
    // a line without line feed, an unknown first field, a wrong number of fields, a field not of its form
    Malformed,
    // a number out of its range, a picked worker or one in a mask that there is not
    OutOfRange,
    // W not first or again, T after an order line, M elsewhere than directly after T, an empty text
    Misplaced,
    // a 129th task or a fifth access
    TooMany,
    // an address twice in one task
    AddressTwice,
    // a text of more than 65,536 bytes, read or to be written
    TextTooLong,
    // a store of fewer than 8,192 numbers
    StoreTooShort,
    // an output that is shorter than the report or the result
    OutputTooShort,
    // fewer slots than workers
    TooFewSlots,
    // taken back to the first form: slots and capacity that are not 64 and 8
    OtherSizes,
    // a task that no worker may run: a mask of 0
    EmptyMask,
}

// The paper's number.
impl From<Refusal> for u64 {
    ghost from_gives = { λ refusal n. n ≡ number refusal };

    fn from(refusal: Refusal) -> u64 {
        match refusal {
            Refusal::Malformed => 1,
            Refusal::OutOfRange => 2,
            Refusal::Misplaced => 3,
            Refusal::TooMany => 4,
            Refusal::AddressTwice => 5,
            Refusal::TextTooLong => 6,
            Refusal::StoreTooShort => 7,
            Refusal::OutputTooShort => 8,
            Refusal::TooFewSlots => 9,
            Refusal::OtherSizes => 10,
            Refusal::EmptyMask => 11,
        }
    }
}

// A refusal and its line, from 1, or 0 if it is not the plan's.
#[derive(Clone, Copy, PartialEq, Eq)]
pub struct Refused {
    pub refusal: Refusal,
    pub line: u64,
}

impl Refused {
    // Writes the line that a program prints; it has at most 26 bytes.
    pub fn put(self, to: &mut Writer)
        requires { to.old.at + 26 < 2 ^ 64 }
        ensures short { to.new.at ≤ to.old.at + 26 }
        ensures wrote { Writes to.old (fields (refusal_fields (number self.refusal) self.line)) to.new }
    {
        to.put_field(b"X", b'\t');
        to.put_number(self.refusal.into(), b'\t');
        to.put_number(self.line, b'\n');
    }
}
