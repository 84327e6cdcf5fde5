// What a program says on standard error when a stream failed.
use arrayvec::ArrayString;
use std::fmt;
use std::fmt::Write;
use std::io::Error;

// Which stream of a program failed, and why.
#[derive(Clone, Copy, Debug)]
pub enum Failure {
    Input(Error),
    Output(Error),
}

impl fmt::Display for Failure {
    // The stream, and what the system says of the failure or, where it says nothing, the library. Both are shorter than the text is.
    fn fmt<W: fmt::Write>(&self, f: &mut fmt::Formatter<W>) -> fmt::Result {
        let (stream, error) = match self {
            Failure::Input(error) => ("input", error),
            Failure::Output(error) => ("output", error),
        };
        let mut text = ArrayString::<256>::new();
        let _ = write!(text, "{error}");
        let words = without_number(text.as_str());
        write!(f, "standard {stream}: {words}")
    }
}

impl std::error::Error for Failure {}

// The text of an error without the system's number, which is in brackets behind it.
fn without_number(text: &str) -> &str {
    text.split_once(" (os error ")
        .map_or(text, |(words, _)| words)
}

// A line on standard error: which program, and what failed.
pub fn report(rt: &impl Eprint, program: &str, failure: Failure) {
    let _ = eprintln!(rt; "{program}: {failure}");
}
