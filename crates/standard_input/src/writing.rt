// Writing all of some bytes, and what is known if that fails.
ghost use Rattle.std.specs.Prelude.{OnErr, OnOk};
ghost use Rattle.std.specs.Io.KnownBytes.{Appends};
ghost use Rattle.standard_input.specs.Failures.{BreaksOff};

use std::io::{Error, ErrorKind, Write};

// Writes until all bytes are written, or a write fails or takes none. Of a writer whose bytes are known, the bytes then come after them: all
// of them, or after a failure the first ones alone.
pub fn write_full<W: Write>(out: &mut W, bytes: &[u8]) -> Result<(), Error>
    ensures ok { OnOk result (Appends (W.contents out.old) (W.contents out.new) bytes.now) }
    ensures err { OnErr result (BreaksOff (W.contents out.old) (W.contents out.new) bytes.now) }
{
    let mut done = 0;
    while done < bytes.len() {
        let more = out.write(&bytes[done..])?;
        if more == 0 {
            return Err(Error::from(ErrorKind::WriteZero));
        }
        done += more;
    }
    Ok(())
}
