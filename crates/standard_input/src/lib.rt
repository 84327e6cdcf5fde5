// How the programs read standard input and write standard output, and how they say what failed.
#![tactic(auto)]

ghost use Rattle.std.specs.Prelude.{◌≡◌, length, All};
ghost use Rattle.standard_input.specs.Counts.{Counted, Taken};

mod failure;
mod writing;

pub use failure::{Failure, report};
use std::io;
use std::io::Read;
pub use writing::write_full;

// Reads until the buffer is full, the input ends or a read fails, and answers how many bytes came. They are at the start of the buffer: of a
// reader whose bytes are known, its first ones.
pub fn read_full<R: Read>(reader: &mut R, buffer: &mut [u8]) -> io::Result<usize>
    ensures counted { Counted result buffer.new }
    ensures taken { Taken (R.remaining reader.old) (R.remaining reader.new) result buffer.new }
{
    let mut done = 0;
    while done < buffer.len() {
        let more = reader.read(&mut buffer[done..])?;
        if more == 0 {
            return Ok(done);
        }
        done += more;
    }
    Ok(done)
}

// A large array, by a call: if it were made in place, the caller's proof would compare lists of that length.
pub fn filled<T: Copy, const N: usize>(value: T) -> [T; N]
    ensures size { length result ≡ N }
    ensures values { All (λ x. x ≡ value) result }
{
    [value; N]
}
