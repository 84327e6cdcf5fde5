// Answers the cases on standard input, each with one line on standard output.
#![tactic(auto)]

ghost use Rattle.std.specs.Prelude.{◌≡◌, IfErr, OnErr, OnOk};
ghost use Rattle.standard_input.specs.Failures.{OfOutput, NotWritten, Grows};
ghost use Rattle.callcases.specs.Room.{Roomy, BrokeOffIn};

mod cases;
mod input;
mod lines;
mod output;

use cases::read_case;
use input::CaseError;
use lines::put_line;
use output::{LINE, Output, SIZE, flush, put};
use standard_input::{Failure, filled, report};
use std::io::{Read, Write};

// Whether another case may follow.
#[derive(Clone, Copy)]
enum Turn {
    Next,
    End,
}

// Writes the output that is ready, and ends.
fn finish<W: Write>(writer: &mut W, out: &mut Output) -> Result<Turn, Failure>
    ensures room { OnOk result (Roomy out.new) }
    ensures left { OnErr result (out.new.items ≡ out.old.items) }
    ensures error { IfErr result OfOutput }
    ensures broken { IfErr result (λ e. BrokeOffIn e (W.contents writer.old) (W.contents writer.new) out.new) }
    ensures kept { Grows (W.contents writer.old) (W.contents writer.new) }
{
    flush(writer, out)?;
    Ok(Turn::End)
}

// Reports that what was read is no case, and ends.
fn bad_case<W: Write>(writer: &mut W, out: &mut Output) -> Result<Turn, Failure>
    requires { Roomy out.old }
    ensures room { OnOk result (Roomy out.new) }
    ensures error { IfErr result OfOutput }
    ensures broken { IfErr result (λ e. BrokeOffIn e (W.contents writer.old) (W.contents writer.new) out.new) }
    ensures kept { Grows (W.contents writer.old) (W.contents writer.new) }
{
    put(out, b"bad case\n");
    finish(writer, out)
}

// Writes the output if another line might not fit after it.
fn make_room<W: Write>(writer: &mut W, out: &mut Output) -> Result<Turn, Failure>
    ensures room { OnOk result (Roomy out.new) }
    ensures left { OnErr result (out.new.items ≡ out.old.items) }
    ensures error { IfErr result OfOutput }
    ensures broken { IfErr result (λ e. BrokeOffIn e (W.contents writer.old) (W.contents writer.new) out.new) }
    ensures kept { Grows (W.contents writer.old) (W.contents writer.new) }
{
    if out.len() + LINE <= SIZE {
        return Ok(Turn::Next);
    }
    flush(writer, out)?;
    Ok(Turn::Next)
}

// Reads one case and answers it. The input may end only before a case. After a failed read nothing more is written, not even output that
// is ready: so output without an error line answers all cases.
fn next_case<R: Read, W: Write>(
    reader: &mut R,
    writer: &mut W,
    space: &mut [u8; SIZE],
    out: &mut Output,
) -> Result<Turn, Failure>
    requires { Roomy out.old }
    ensures room { OnOk result (Roomy out.new) }
    ensures unread { IfErr result (λ e. NotWritten e (W.contents writer.old) (W.contents writer.new)) }
    ensures broken { IfErr result (λ e. BrokeOffIn e (W.contents writer.old) (W.contents writer.new) out.new) }
    ensures kept { Grows (W.contents writer.old) (W.contents writer.new) }
{
    match read_case(reader, space) {
        Ok(Some(case)) => {
            put_line(out, &space[..usize::from(case.length)], case.call);
            make_room(writer, out)
        }
        Ok(None) => finish(writer, out),
        Err(CaseError::Bad) => bad_case(writer, out),
        Err(CaseError::Failed(error)) => Err(Failure::Input(error)),
    }
}

// A proved loop has to end, but nothing says that the input does. So the loop counts its turns, up to a number that no input reaches.
fn answer_all<R: Read, W: Write>(reader: &mut R, writer: &mut W) -> Result<(), Failure>
    ensures { Grows (W.contents writer.old) (W.contents writer.new) }
{
    let mut space: [u8; SIZE] = filled(0);
    let mut out = Output::new();
    for _ in 0..u64::MAX {
        let Turn::Next = next_case(reader, writer, &mut space, &mut out)? else {
            return Ok(());
        };
    }
    Ok(())
}

fn main(rt: HostRuntime) {
    if let Err(failure) = answer_all(&mut rt.stdin(), &mut rt.stdout()) {
        report(&rt, "callcases", failure);
    }
}
