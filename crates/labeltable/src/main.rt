// Prints the table of labels: each row as 64 digits and a newline byte.
#![tactic(auto)]

ghost use Rattle.std.specs.Prelude.{◌<◌, ◌≡◌, OnErr, OnOk};
ghost use Rattle.std.specs.Io.KnownBytes.{Appends};
ghost use Rattle.standard_input.specs.Failures.{BreaksOff};
ghost use Rattle.labeltable.specs.Printed.{byte_at, printed};

use labels::{LABELS, covers};
use standard_input::{Failure, report, write_full};
use std::io::Write;
use std::{array, io};

const LINE: usize = LABELS + 1;

const TEXT: usize = LABELS * LINE;

// The byte at place k of the text.
fn byte_at(k: usize) -> u8
    requires { k < 4160 }
    ensures { result ≡ byte_at k }
{
    let column = k % LINE;
    if column == LABELS {
        return b'\n';
    }
    if covers((k / LINE) as u8, column as u8) {
        return b'1';
    }
    b'0'
}

fn text() -> [u8; TEXT]
    ensures { result ≡ printed }
{
    array::from_fn(byte_at)
}

// Hands the text to the writer; nothing else does. No contract can say what becomes of bytes that standard output took, so this one asks
// before: the text is the table, all of it. A writer whose bytes are known has the table after them, or its first bytes if a
// write failed.
fn write_table<W: Write>(out: &mut W, text: &[u8]) -> io::Result<()>
    requires { text.now ≡ printed }
    ensures ok { OnOk result (Appends (W.contents out.old) (W.contents out.new) printed) }
    ensures err { OnErr result (BreaksOff (W.contents out.old) (W.contents out.new) printed) }
{
    write_full(out, text)
}

fn main(rt: HostRuntime) {
    let table = text();
    if let Err(error) = write_table(&mut rt.stdout(), &table) {
        report(&rt, "labeltable", Failure::Output(error));
    }
}
