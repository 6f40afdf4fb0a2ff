// Reads the two job sheets that are named and writes how the first job stands to the second in the fixed order of jobs,
// or `refused` and the number, to standard output. What fails is said on standard error.
#![tactic(auto)]

ghost use Rattle.std.specs.Prelude.{◌≡◌};
ghost use Rattle.streams.specs.Tape.{at_of};

use order_answer::run::{BrokenAt, Input, Output};
use std::env::{Env, FillError};
use std::fs::File;
use std::io::{Error, ErrorKind};
use std::{io, str};
use streams::{Noted, STDIN, STDOUT, Stream};

// The system's number of a name that is too long.
const ENAMETOOLONG: i32 = 36;

// Whether two arguments are given, and no more.
fn two_names(rt: &HostRuntime) -> bool {
    let mut first = [0u8; 1];
    if let Err(FillError::NotPresent) = rt.arg(2, &mut first) {
        return false;
    }
    matches!(rt.arg(3, &mut first), Err(FillError::NotPresent))
}

// Opens the file that argument i names. No longer path than 4,096 bytes can be opened, and a path is UTF-8.
fn open(rt: &HostRuntime, i: usize) -> io::Result<File> {
    let mut name = [0u8; 4096];
    let Ok(n) = rt.arg(i, &mut name) else {
        return Err(Error::from_raw_os_error(ENAMETOOLONG));
    };
    match str::from_utf8(&name[..n]) {
        Ok(path) => File::open(rt, path),
        Err(_) => Err(Error::from(ErrorKind::InvalidFilename)),
    }
}

// A file that is read. Its stream is a descriptor, so its number, the tape and the bytes that it gives are looked at by
// nobody.
fn reading<'a>(file: File, tape: &'a [usize], given: &'a [u8]) -> Input<'a, Noted<File>>
    ensures { at_of result.stream ≡ 0 }
{
    Input {
        stream: Stream::Descriptor(STDIN),
        tape,
        given,
        source: Noted::new(file),
    }
}

// Says what of which sheet failed, and why.
fn tell(rt: &HostRuntime, which: &str, what: &str, reason: Option<Error>) -> io::Result<()> {
    eprint!(rt; "order: the {which} job sheet ")?;
    streams::fail(rt, what, reason)
}

// Opens the file that argument i names, or says that it can't be.
fn open_or_tell(rt: &HostRuntime, i: usize, which: &str) -> io::Result<Option<File>> {
    match open(rt, i) {
        Ok(file) => Ok(Some(file)),
        Err(e) => {
            let what = "could not be opened, and nothing is answered";
            tell(rt, which, what, Some(e))?;
            Ok(None)
        }
    }
}

// Compares the two files, with tables of its own.
fn run(rt: &HostRuntime, a: File, b: File) -> io::Result<()> {
    let mut page = [0u8; 65536];
    let mut one = [0u8; 174680];
    let mut other = [0u8; 174680];
    let mut written = [0u8; 6144];
    let mut work = [0u8; 110600];
    let tape = [0usize; 1];
    let given = [0u8; 1];
    let mut paper = [0u8; 1];
    let mut first = reading(a, &tape, &given);
    let mut second = reading(b, &tape, &given);
    let mut output = Output {
        stream: Stream::Descriptor(STDOUT),
        tape: &tape,
        sink: Noted::new(rt.stdout()),
    };
    let end = order_answer::run::order(
        &mut first,
        &mut second,
        &mut output,
        &mut paper,
        &mut page,
        &mut one,
        &mut other,
        &mut written,
        &mut work,
    );
    let unread = "could not be read, and nothing is answered";
    match end {
        Ok(()) => Ok(()),
        Err(BrokenAt::First) => tell(rt, "first", unread, first.source.reason),
        Err(BrokenAt::Second) => tell(rt, "second", unread, second.source.reason),
        Err(BrokenAt::Output) => {
            let what = "order: the answer could not be written, and is cut";
            streams::fail(rt, what, output.sink.reason)
        }
    }
}

// Both files are opened before the first is read.
fn main(rt: HostRuntime) -> io::Result<()> {
    if !two_names(&rt) {
        return eprintln!(rt; "usage: order JOB-SHEET JOB-SHEET");
    }
    let Some(a) = open_or_tell(&rt, 1, "first")? else {
        return Ok(());
    };
    let Some(b) = open_or_tell(&rt, 2, "second")? else {
        return Ok(());
    };
    run(&rt, a, b)
}
