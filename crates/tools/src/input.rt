// What a program is given on standard input, as far as it asks for it.
ghost use Rattle.std.specs.Prelude.{◌≡◌, ◌<◌, ◌≤◌, length, take, IfOk, IfSome};
ghost use Rattle.std.specs.Io.KnownBytes.{Consumes, IsAtEnd};

use std::io;
use std::io::Read;

// Reads an input into the first bytes of a room, until that is full or the input ends; how many bytes there are.
// A rule of the project, no heap: the library's own loop, `read_to_end`, fills a Vec, and `read_exact` fails at an input that ends before.
pub fn read_into<R: Read>(input: &mut R, room: &mut [u8]) -> io::Result<usize>
    ensures within { IfOk result (λ n. n ≤ length room.new) }
    ensures bytes { IfOk result (λ n. Consumes (R.remaining input.old) (R.remaining input.new) (take n room.new)) }
    ensures whole { IfOk result (λ n. n < length room.new → IsAtEnd (R.remaining input.new)) }
    ensures front { IfOk result (λ n. IfSome (R.remaining input.old) (λ text. take n room.new ≡ take (length room.new) text)) }
{
    let mut size = 0;
    while size < room.len() {
        let more = input.read(&mut room[size..])?;
        if more == 0 {
            return Ok(size);
        }
        size += more;
    }
    Ok(size)
}
