// Numbers written as fields.
ghost use Rattle.std.specs.Prelude.{◌≡◌, ◌+◌, ◌^◌, ◌≤◌, ◌<◌, drop};
ghost use Rattle.text.specs.Text.{decimal};
ghost use Rattle.text.specs.Decimals.{number_size};
ghost use Rattle.text.specs.Writing.{field};
ghost use Rattle.text.specs.Writers.{Writes, option_field};

use crate::write::Writer;

// No number of 64 bits has more.
const MOST_DIGITS: usize = 20;

// Puts a number's digits at the back of an array, the last one first; where they begin.
fn put_digits(n: u64, digits: &mut [u8; MOST_DIGITS]) -> usize
    ensures { (result ≤ 20) × (drop result digits.new ≡ decimal n) }
{
    let mut left = n;
    let mut from = MOST_DIGITS;
    // no `for`: the number says where it ends, and a range would leave an end that is never reached
    loop {
        from -= 1;
        digits[from] = b'0' + (left % 10) as u8;
        if left < 10 {
            return from;
        }
        left /= 10;
    }
}

impl<'a> Writer<'a> {
    // A number as a field, and the tab or the line feed after it.
    pub fn put_number(&mut self, n: u64, end: u8)
        requires { self.old.at + number_size < 2 ^ 64 }
        ensures short { self.new.at ≤ self.old.at + number_size }
        ensures wrote { Writes self.old (field (decimal n) end) self.new }
    {
        let mut digits = [0u8; MOST_DIGITS];
        let from = put_digits(n, &mut digits);
        self.put_field(&digits[from..], end);
    }

    // The same of a number that may be none.
    pub fn put_option(&mut self, number: Option<u64>, end: u8)
        requires { self.old.at + number_size < 2 ^ 64 }
        ensures short { self.new.at ≤ self.old.at + number_size }
        ensures wrote { Writes self.old (field (option_field number) end) self.new }
    {
        match number {
            Some(n) => self.put_number(n, end),
            None => self.put_field(b"-", end),
        }
    }
}
