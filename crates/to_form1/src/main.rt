// Reads a job sheet on standard input and writes it in the first form, or `refused` and the number, to standard
// output. What fails is said on standard error.
#![tactic(auto)]

use std::env::{Env, FillError};
use std::io;
use streams::Noted;

// to_form2 has the same but for its name and a flag. One for both would be public without a contract, since no trait
// promises what arguments and standard error hold.
fn main(rt: HostRuntime) -> io::Result<()> {
    let mut first = [0u8; 1];
    if !matches!(rt.arg(1, &mut first), Err(FillError::NotPresent)) {
        return eprintln!(rt; "usage: to_form1 <JOB-SHEET >JOB-SHEET");
    }
    let mut source = Noted::new(rt.stdin());
    let mut sink = Noted::new(rt.stdout());
    let end = convert::run::convert_input(false, &mut source, &mut sink);
    let unread = "the job sheet could not be read, and nothing is answered";
    let unwritten = "the job sheet could not be written, and is cut";
    streams::tell(
        &rt,
        "to_form1",
        end,
        (unread, source.reason),
        (unwritten, sink.reason),
    )
}
