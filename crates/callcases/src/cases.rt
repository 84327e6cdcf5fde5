// The cases: the call that a letter names, with the operands that follow the description.
ghost use Rattle.std.specs.Prelude.{◌≤◌};
ghost use Rattle.callcases.specs.Room.{most_lent};

use crate::input::{CaseError, read_array, read_front};
use crate::output::SIZE;
use standard_input::read_full;
use std::io::Read;
use survey::Cursor;

// The most bytes of a lent buffer.
pub const MOST_LENT: usize = 2048;

// A placement, and how many bytes are lent to write to.
#[derive(Clone, Copy)]
pub struct Loan {
    pub placement: [u8; 16],
    pub room: usize,
    ghost within: { room ≤ most_lent },
}

// A call and its operands.
#[derive(Clone, Copy)]
pub enum Call {
    Read,
    Masks,
    Judge([u8; 16]),
    Census,
    Draw(Cursor),
    Transfers(Loan),
    Picture(Loan),
    Size([u8; 16]),
    Bill([u8; 16]),
    Standing(u8, u8),
}

// How long the description is, and what is asked of it.
#[derive(Clone, Copy)]
pub struct Case {
    pub length: u16,
    pub call: Call,
}

// Reads a case; its description goes to the front of the space. The input may end before it, and then there is none.
pub fn read_case<R: Read>(
    reader: &mut R,
    space: &mut [u8; SIZE],
) -> Result<Option<Case>, CaseError> {
    let mut header = [0u8; 3];
    let got = read_full(reader, &mut header)?;
    if got == 0 {
        return Ok(None);
    }
    if got < 3 {
        return Err(CaseError::Bad);
    }
    let length = u16::from_be_bytes([header[1], header[2]]);
    read_front(reader, space, usize::from(length))?;
    let call = read_call(reader, header[0])?;
    Ok(Some(Case { length, call }))
}

fn read_call<R: Read>(reader: &mut R, letter: u8) -> Result<Call, CaseError> {
    match letter {
        b'R' => Ok(Call::Read),
        b'M' => Ok(Call::Masks),
        b'J' => Ok(Call::Judge(read_array(reader)?)),
        b'C' => Ok(Call::Census),
        b'D' => Ok(Call::Draw(read_cursor(reader)?)),
        b'T' => Ok(Call::Transfers(read_loan(reader)?)),
        b'P' => Ok(Call::Picture(read_loan(reader)?)),
        b'B' => Ok(Call::Size(read_array(reader)?)),
        b'A' => Ok(Call::Bill(read_array(reader)?)),
        b'W' => {
            let place: [u8; 2] = read_array(reader)?;
            Ok(Call::Standing(place[0], place[1]))
        }
        _ => Err(CaseError::Bad),
    }
}

fn read_cursor<R: Read>(reader: &mut R) -> Result<Cursor, CaseError> {
    let kind: [u8; 1] = read_array(reader)?;
    let cost: [u8; 8] = read_array(reader)?;
    let placement: [u8; 16] = read_array(reader)?;
    if kind[0] > 1 {
        return Err(CaseError::Bad);
    }
    Ok(Cursor {
        start: kind[0] == 0,
        cost: u64::from_be_bytes(cost),
        placement,
    })
}

fn read_loan<R: Read>(reader: &mut R) -> Result<Loan, CaseError> {
    let placement: [u8; 16] = read_array(reader)?;
    let bytes: [u8; 2] = read_array(reader)?;
    let room = usize::from(u16::from_be_bytes(bytes));
    if room > MOST_LENT {
        return Err(CaseError::Bad);
    }
    Ok(Loan { placement, room })
}
