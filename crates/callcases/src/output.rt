// Standard output, collected in a buffer so that many lines take one write.
ghost use Rattle.std.specs.Prelude.{◌+◌, ◌*◌, ◌≤◌, ◌<◌, ◌≡◌, [], ◌++◌, length, OnOk, OnErr, IfErr};
ghost use Rattle.std.specs.Char.{digit_char};
ghost use Rattle.std.specs.Io.KnownBytes.{Appends};
ghost use Rattle.arrayvec.specs.ArrayVec.{array_vec_len};
ghost use Rattle.standard_input.specs.Failures.{OfOutput, BreaksOff};

use arrayvec::ArrayVec;
use standard_input::{Failure, write_full};
use std::io::Write;

// The most bytes that wait to be written.
pub const SIZE: usize = 65536;

// More bytes than the longest line has, which is that of a lent buffer with two digits a byte.
pub const LINE: usize = 8192;

// What is ready to be written.
pub type Output = ArrayVec<u8, SIZE>;

// Writes what is ready, and then nothing is.
pub fn flush<W: Write>(writer: &mut W, out: &mut Output) -> Result<(), Failure>
    ensures bytes { OnOk result (Appends (W.contents writer.old) (W.contents writer.new) out.old.items) }
    ensures empty { OnOk result (out.new.items ≡ []) }
    ensures broken { OnErr result (BreaksOff (W.contents writer.old) (W.contents writer.new) out.old.items) }
    ensures left { OnErr result (out.new.items ≡ out.old.items) }
    ensures error { IfErr result OfOutput }
{
    let ready = out.as_slice();
    write_full(writer, ready).map_err(Failure::Output)?;
    out.clear();
    Ok(())
}

pub fn put<const N: usize>(out: &mut ArrayVec<u8, N>, text: &[u8])
    requires { array_vec_len out.old + length text.now ≤ N }
    ensures bytes { out.new.items ≡ out.old.items ++ text.now }
    ensures count { array_vec_len out.new ≡ array_vec_len out.old + length text.now }
{
    out.try_extend_from_slice(text).unwrap();
}

// Puts a space and the number in decimal.
pub fn put_number<const N: usize>(out: &mut ArrayVec<u8, N>, n: u64)
    requires { array_vec_len out.old + 21 ≤ N }
    ensures { array_vec_len out.new ≤ array_vec_len out.old + 21 }
{
    put(out, b" ");
    put(out, itoa::Buffer::new().format(n).as_bytes());
}

// Puts a digit for each block's cloud.
pub fn put_clouds<const N: usize>(out: &mut ArrayVec<u8, N>, clouds: &[u8])
    requires { array_vec_len out.old + length clouds.now ≤ N }
    ensures { array_vec_len out.new ≡ array_vec_len out.old + length clouds.now }
{
    for &cloud in clouds {
        out.push(cloud_digit(cloud));
    }
}

// No description has ten clouds: a larger number shows as a question mark.
fn cloud_digit(cloud: u8) -> u8 {
    if cloud < 10 { b'0' + cloud } else { b'?' }
}

// The digits of as many bytes are put at once: with a call for each digit, cases that lend a buffer take more than twice as long.
const HEX_PART: usize = 256;

// Puts a space and the bytes in hexadecimal; nothing if there are none.
pub fn put_hex<const N: usize>(out: &mut ArrayVec<u8, N>, bytes: &[u8])
    requires { array_vec_len out.old + 1 + 2 * length bytes.now ≤ N }
    ensures { array_vec_len out.new ≤ array_vec_len out.old + 1 + 2 * length bytes.now }
{
    if bytes.is_empty() {
        return;
    }
    out.push(b' ');
    for part in bytes.chunks(HEX_PART) {
        put_hex_part(out, part);
    }
}

fn put_hex_part<const N: usize>(out: &mut ArrayVec<u8, N>, part: &[u8])
    requires { (length part.now ≤ 256) × (array_vec_len out.old + 2 * length part.now ≤ N) }
    ensures { array_vec_len out.new ≡ array_vec_len out.old + 2 * length part.now }
{
    let mut digits = [0u8; 2 * HEX_PART];
    for (k, &byte) in part.iter().enumerate() {
        digits[2 * k] = digit(byte / 16);
        digits[2 * k + 1] = digit(byte % 16);
    }
    put(out, &digits[..2 * part.len()]);
}

// A hexadecimal digit, in lower case.
fn digit(d: u8) -> u8
    requires { d < 16 }
    ensures { result ≡ digit_char d }
{
    if d < 10 { b'0' + d } else { b'a' + (d - 10) }
}
