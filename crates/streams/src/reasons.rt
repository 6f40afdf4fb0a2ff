// Why the last call failed. A `Stop` or a `Cut` has no room for the reason: it is kept beside the reader or the writer.
ghost use Rattle.std.specs.Prelude.{◌≡◌, IfErr, OnOk, IsOk, Some, None};
ghost use Rattle.std.specs.Io.{ReadsAtMost, WritesAtMost};
ghost use Rattle.std.specs.Io.KnownBytes.{Keeps, ReadConsumes, WriteAppends};

use super::Broken;
use std::io::{Error, Read, Result, Write};
use std::result;

// A reader or a writer, and the reason of its last call that failed.
#[derive(Drop)]
pub struct Noted<T> {
    pub inner: T,
    pub reason: Option<Error>,
}

impl<T> Noted<T> {
    pub fn new(inner: T) -> Noted<T>
        ensures inner { result.inner ≡ inner }
        ensures reason { result.reason ≡ None }
    {
        Noted {
            inner,
            reason: None,
        }
    }
}

impl<R: Read> Read for Noted<R> {
    ghost remaining = { λ s. R.remaining s.inner };

    // Not one with `write`: they are methods of two traits of the library, and each has its own promise.
    fn read(&mut self, buf: &mut [u8]) -> Result<usize>
        ensures bound { ReadsAtMost result buf.new }
        ensures bytes { ReadConsumes (R.remaining self.old.inner) (R.remaining self.new.inner) result buf.new }
        ensures reason { IfErr result (λ e. self.new.reason ≡ Some e) }
        ensures cleared { OnOk result (self.new.reason ≡ None) }
    {
        match self.inner.read(buf) {
            Ok(n) => {
                self.reason = None;
                Ok(n)
            }
            Err(e) => {
                self.reason = Some(e);
                Err(e)
            }
        }
    }
}

impl<W: Write> Write for Noted<W> {
    ghost contents = { λ s. W.contents s.inner };

    // Not one with `read`: they are methods of two traits of the library, and each has its own promise.
    fn write(&mut self, buf: &[u8]) -> Result<usize>
        ensures bound { WritesAtMost result buf.now }
        ensures bytes { WriteAppends (W.contents self.old.inner) (W.contents self.new.inner) result buf.now }
        ensures reason { IfErr result (λ e. self.new.reason ≡ Some e) }
        ensures cleared { OnOk result (self.new.reason ≡ None) }
    {
        match self.inner.write(buf) {
            Ok(n) => {
                self.reason = None;
                Ok(n)
            }
            Err(e) => {
                self.reason = Some(e);
                Err(e)
            }
        }
    }

    fn flush(&mut self) -> Result<()> {
        self.inner.flush()
    }
}

// Says what broke off of the program that is named `name`, and why; of nothing it says nothing.
pub fn tell<P: Eprint + Alloc>(
    rt: &P,
    name: &str,
    end: result::Result<(), Broken>,
    unread: (&str, Option<Error>),
    unwritten: (&str, Option<Error>),
) -> Result<()>
    ensures { IsOk end → IsOk result }
{
    let (what, reason) = match end {
        Ok(()) => return Ok(()),
        Err(Broken::Input) => unread,
        Err(Broken::Output) => unwritten,
    };
    match reason {
        Some(e) => {
            // The name and what failed go in one write.
            eprint!(rt; "{name}: {what}: ")?;
            say_reason(rt, e)
        }
        None => eprintln!(rt; "{name}: {what}: nothing was taken"),
    }
}

// Writes a line to standard error: what failed, as the caller names it, a colon and the reason in the system's words. Only a write that took nothing has failed with no reason of its own.
pub fn fail<P: Eprint + Alloc>(rt: &P, what: &str, reason: Option<Error>) -> Result<()> {
    match reason {
        Some(e) => {
            // What failed is said before the words are put together, which takes memory.
            eprint!(rt; "{what}: ")?;
            say_reason(rt, e)
        }
        None => eprintln!(rt; "{what}: nothing was taken"),
    }
}

// Ends the line with the reason in the system's words.
fn say_reason<P: Eprint + Alloc>(rt: &P, e: Error) -> Result<()> {
    let text = format!(in rt.alloc(); "{e}")?;
    let words = text.as_str();
    // The number behind the system's words is not written.
    match words.split_once(" (os error ") {
        Some((words, _)) => eprintln!(rt; "{words}"),
        None => eprintln!(rt; "{words}"),
    }
}
