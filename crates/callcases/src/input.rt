// Parts of a case, of a known length.
ghost use Rattle.std.specs.Prelude.{◌≤◌, ◌≡◌, length, drop};

use standard_input::read_full;
use std::io::{Error, Read};

// Why a case has no line.
#[derive(Clone, Copy, Debug)]
pub enum CaseError {
    // What was read is no case.
    Bad,
    // A read failed.
    Failed(Error),
}

impl From<Error> for CaseError {
    ghost use Rattle.callcases.specs.declared.input.CaseError.TheVariants.{Failed};

    ghost from_gives = { λ error e. e ≡ Failed error };

    fn from(error: Error) -> CaseError {
        CaseError::Failed(error)
    }
}

// Fills the whole buffer.
fn read_all<R: Read>(reader: &mut R, bytes: &mut [u8]) -> Result<(), CaseError> {
    let wanted = bytes.len();
    let count = read_full(reader, bytes)?;
    if count < wanted {
        return Err(CaseError::Bad);
    }
    Ok(())
}

// The same for the first bytes of a buffer; the bytes after them stay.
pub fn read_front<R: Read>(reader: &mut R, space: &mut [u8], count: usize) -> Result<(), CaseError>
    requires { count ≤ length space.old }
    ensures { drop count space.new ≡ drop count space.old }
{
    read_all(reader, &mut space[..count])
}

// The next bytes.
pub fn read_array<R: Read, const N: usize>(reader: &mut R) -> Result<[u8; N], CaseError> {
    let mut bytes = [0; N];
    read_all(reader, &mut bytes)?;
    Ok(bytes)
}
