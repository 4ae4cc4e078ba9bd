// Readers of fields: a cursor goes through a text, and looks at each byte once, for form and value together. Its fields are its own, and
// `look` is the only read of a byte: the place is the number of looks so far.
ghost use Rattle.std.specs.Prelude.{◌≡◌, ◌≤◌, not, length, leb};
ghost use Rattle.text.specs.LineEnds.{line_end, after_look, seen_at, is_line_feed};
ghost use Rattle.text.specs.Fields.{ended, ReadNumber, digit_seen, Clipped, digit_after};

// A place in a text.
#[derive(Drop)]
pub struct Cursor<'a> {
    text: &'a [u8],
    at: usize,
    ghost within: { at ≤ length text.now },
}

// What a field says, and whether a tab ended it, so that one more follows: else a line feed did.
#[derive(Clone, Copy)]
pub struct Field<T> {
    pub value: T,
    pub more: bool,
}

// A field that is not of its form: it is left at the byte that shows it. The line goes on there, or has ended with that byte.
#[derive(Clone, Copy, PartialEq, Eq)]
pub struct Malformed {
    pub goes_on: bool,
}

// A number of 2^64 or more does not fit, and has the value 2^64 - 1. An option would be no plainer: ranges are tested by the value alone, and
// only of a seed it is asked whether it fits.
#[derive(Clone, Copy)]
pub struct Number {
    pub value: u64,
    pub fits: bool,
}

// Below this, any digit can follow; this itself is followed by one up to 5.
const SAFE: u64 = u64::MAX / 10;

impl Malformed {
    // What this byte shows.
    pub fn shown_by(seen: Option<u8>) -> Malformed
        ensures { result.goes_on ≡ not (is_line_feed seen) }
    {
        Malformed {
            goes_on: seen != Some(b'\n'),
        }
    }
}

impl<T: Copy> Field<T> {
    // The field that says this, if it ends with this byte.
    pub fn ended(value: T, seen: Option<u8>) -> Result<Field<T>, Malformed>
        ensures { result ≡ ended value seen }
    {
        match seen {
            Some(b'\t') => Ok(Field { value, more: true }),
            Some(b'\n') => Ok(Field { value, more: false }),
            _ => Err(Malformed { goes_on: true }),
        }
    }
}

// The digit that is seen.
fn digit_of(seen: Option<u8>) -> Option<u64>
    ensures { result ≡ digit_seen seen }
{
    match seen {
        Some(b @ b'0'..=b'9') => Some((b - b'0') as u64),
        _ => None,
    }
}

// One digit more.
fn with_digit(number: Number, d: u64) -> Number
    requires digit { d ≤ 9 }
    requires clipped { Clipped number }
    ensures { result ≡ digit_after number d }
{
    // nearly every number, and no division
    if number.value < SAFE || (number.value == SAFE && d <= 5) {
        return Number {
            value: number.value * 10 + d,
            fits: number.fits,
        };
    }
    Number {
        value: u64::MAX,
        fits: false,
    }
}

impl<'a> Cursor<'a> {
    pub fn new(text: &'a [u8]) -> Cursor<'a>
        ensures { (result.text.now ≡ text.now) × (result.at ≡ 0) }
    {
        Cursor { text, at: 0 }
    }

    // How many bytes have been looked at.
    pub fn looks(&self) -> usize
        ensures { result ≡ self.now.at }
    {
        self.at
    }

    pub fn is_at_end(&self) -> bool
        ensures { result ≡ leb (length self.now.text.now) self.now.at }
    {
        self.text.len() <= self.at
    }

    // Looks at the next byte, and goes past it.
    pub fn look(&mut self) -> Option<u8>
        ensures byte { result ≡ seen_at self.old.text.now self.old.at }
        ensures counted { self.new.at ≡ after_look self.old.text.now self.old.at }
        ensures text { self.new.text.now ≡ self.old.text.now }
    {
        if self.text.len() <= self.at {
            return None;
        }
        let byte = self.text[self.at];
        self.at += 1;
        Some(byte)
    }

    // Looks at what is left of a line, up to its end or that of the text.
    pub fn finish_line(&mut self)
        ensures place { self.new.at ≡ line_end self.old.text.now self.old.at }
        ensures text { self.new.text.now ≡ self.old.text.now }
    {
        while let Some(byte) = self.look() {
            if byte == b'\n' {
                return;
            }
        }
    }

    // A number: digits, no leading zero except 0 itself.
    pub fn number(&mut self) -> Result<Field<Number>, Malformed>
        ensures field { ReadNumber self.old.text.now self.old.at result self.new.at }
        ensures text { self.new.text.now ≡ self.old.text.now }
    {
        let first = self.look();
        let Some(leading) = digit_of(first) else {
            return Err(Malformed::shown_by(first));
        };
        let mut number = Number {
            value: leading,
            fits: true,
        };
        // no `for`: where it ends, the byte that ends it is seen, and is judged too
        loop {
            let seen = self.look();
            let Some(digit) = digit_of(seen) else {
                return Field::ended(number, seen);
            };
            if leading == 0 {
                return Err(Malformed { goes_on: true });
            }
            number = with_digit(number, digit);
        }
    }
}
