// All that `vregs` does between its first read and its last write, over streams: a job sheet is read, answered, and its
// register sheet written page by page.

ghost use Rattle.std.specs.Prelude.{◌≤◌, length, is_err};
ghost use Rattle.definition.specs.SheetForms.{vregs_of};
ghost use Rattle.sheet_output.specs.Left.{at_start};
ghost use Rattle.sheet_output.specs.AnswerPages.{Prints};
ghost use Rattle.vregs_answer.specs.Sheet.{vregs_tables};
ghost use Rattle.streams.specs.Tape.{at_of};
ghost use Rattle.streams.specs.Paper.{Ran};
ghost use Rattle.vregs_answer.specs.Shown.{Shown};

use crate::Space;
use build_answer::BuildEnd;
use std::io::{Read, Write};
use streams::{Broken, Cut, Stream};

// Writes the sheet of an answer page by page, up to the first write that fails.
// Not one with convert::run::print: the cursor is another, and a closure for the page would carry its contract.
fn print<W: Write>(
    end: BuildEnd,
    tables: &[u8],
    s: &mut Stream,
    tape: &[usize],
    paper: &mut [u8],
    buf: &mut [u8],
    sink: &mut W,
) -> Result<(), Cut>
    requires { Prints vregs_tables end tables.now at_start × (256 ≤ length buf.old) × (at_of s.old ≤ length paper.old) }
    ensures { Shown end tables.now tape.now paper.old s.old (is_err result) s.new paper.new }
{
    let ol = crate::vregs_tables();
    let mut cur = sheet_output::start();
    // Page by page, and how many lines a page takes is known behind it: no index counts here.
    while !cur.ended {
        let page = sheet_output::answer::page(end, tables, ol, cur, buf);
        let n = page.n;
        streams::write_all(s, tape, paper, &buf[..n], sink)?;
        cur = page.cur;
    }
    Ok(())
}

// On a tape: the definition's answer to the bytes that were given, on the paper; or its first bytes, where a write
// failed; or nothing, where a read failed.
pub fn answer<R: Read, W: Write>(
    input: &mut Stream,
    reads: &[usize],
    given: &[u8],
    output: &mut Stream,
    writes: &[usize],
    paper: &mut [u8],
    space: &mut Space,
    source: &mut R,
    sink: &mut W,
) -> Result<(), Broken>
    requires { (at_of input.old ≤ length given.now) × (at_of output.old ≤ length paper.old) }
    ensures { Ran vregs_of reads.now given.now input.old input.new
        writes.now paper.old output.old result output.new paper.new }
{
    let Ok(cur) = sheet_verdict::input::feed_all(
        input,
        reads,
        given,
        space.buf,
        space.table,
        space.written,
        source,
    ) else {
        return Err(Broken::Input);
    };
    let end = crate::answer_table(cur, space.table, space.written, space.out, space.work);
    print(end, space.out, output, writes, paper, space.buf, sink).or(Err(Broken::Output))
}
