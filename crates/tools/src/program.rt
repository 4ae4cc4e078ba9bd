// What the programs have in common: from an input to what is printed for the whole of it.
ghost use Rattle.std.specs.Prelude.{ℕ, List, ◌≡◌, length, take, OnOk, IfSome};
ghost use Rattle.std.specs.Io.KnownBytes.{Appends};
ghost use Rattle.tools.specs.Serving.{Takes, Prints};

use crate::input::read_into;
use std::io;
use std::io::{Read, Write};

// Reads an input as far as it finds room, and prints what the answer to that leaves at the front of the output. Where no more of the text is
// needed than there is room for, this is what is printed for the whole.
pub fn serve<R: Read, W: Write, F: FnOnce(&[u8], &mut [u8]) -> usize>(
    input: &mut R,
    room: &mut [u8],
    to: &mut W,
    output: &mut [u8],
    answer: F,
) -> io::Result<()>
    requires { Takes F.FnOnce answer output.old }
    ensures { (printed : List ℕ → List ℕ) → Prints F.FnOnce answer output.old printed
        → ((text : List ℕ) → printed (take (length room.old) text) ≡ printed text)
        → OnOk result (IfSome (R.remaining input.old) (λ text. Appends (W.contents to.old) (W.contents to.new) (printed text))) }
{
    let size = read_into(input, room)?;
    let length = answer(&room[..size], output);
    to.write_all(&output[..length])
}
