// All that `to_form2` and `to_form1` do between their first read and their last write, over streams: a job sheet is
// read and judged, and then written in the other form page by page.

ghost use Rattle.std.specs.Prelude.{◌≡◌, ◌≤◌, length, is_err, IsOk};
ghost use Rattle.words.specs.Words.{word_count, words_of};
ghost use Rattle.job.specs.Regions.{max_work};
ghost use Rattle.definition.specs.SheetForms.{sheet_number_of};
ghost use Rattle.definition.specs.Conversion.{converted};
ghost use Rattle.sheet_rules.specs.Places.{table_words};
ghost use Rattle.job_pages.specs.Cursors.{at_start};
ghost use Rattle.job_pages.specs.Pages.{Shows};
ghost use Rattle.streams.specs.Tape.{at_of};
ghost use Rattle.streams.specs.Paper.{Ran};
ghost use Rattle.convert.specs.Shown.{Shown, Refused, Put};

use definition::SheetRefusal;
use std::io::{Read, Write};
use streams::{Broken, Cut, STDIN, STDOUT, Stream};

// Writes the sheet of a table page by page, up to the first write that fails.
// Not one with vregs_answer::run::print: the cursor is another, and a closure for the page would carry its contract.
// The buffer has 256 bytes or more, by a clause: an array would refuse a longer one.
fn print<W: Write>(
    second: bool,
    table: &[u8],
    s: &mut Stream,
    tape: &[usize],
    paper: &mut [u8],
    buf: &mut [u8],
    sink: &mut W,
) -> Result<(), Cut>
    requires { Shows table.now at_start × (256 ≤ length buf.old) × (at_of s.old ≤ length paper.old) }
    ensures { Shown second (words_of table.now) tape.now paper.old s.old (is_err result) s.new paper.new }
{
    let mut cur = job_pages::start();
    // Page by page, and how many lines a page takes is known behind it: no index counts here.
    while cur.key.is_some() {
        let page = job_pages::fill(second, table, cur, buf);
        let n = page.n;
        streams::write_all(s, tape, paper, &buf[..n], sink)?;
        cur = page.cur;
    }
    Ok(())
}

// Writes the line of a refusal.
fn refuse<W: Write>(
    r: SheetRefusal,
    s: &mut Stream,
    tape: &[usize],
    paper: &mut [u8],
    buf: &mut [u8],
    sink: &mut W,
) -> Result<(), Cut>
    requires { (256 ≤ length buf.old) × (at_of s.old ≤ length paper.old) }
    ensures { Refused (sheet_number_of r) tape.now paper.old s.old (is_err result) s.new paper.new }
{
    let n = register_sheet::put_refused(buf, 0, r.number());
    streams::write_all(s, tape, paper, &buf[..n], sink)
}

// Writes the answer of this verdict: the sheet of the table, or the refusal.
fn put<W: Write>(
    second: bool,
    verdict: Result<(), SheetRefusal>,
    table: &[u8],
    s: &mut Stream,
    tape: &[usize],
    paper: &mut [u8],
    buf: &mut [u8],
    sink: &mut W,
) -> Result<(), Cut>
    requires { (IsOk verdict → Shows table.now at_start)
        × (256 ≤ length buf.old) × (at_of s.old ≤ length paper.old) }
    ensures { Put second verdict (words_of table.now) tape.now paper.old s.old (is_err result) s.new paper.new }
{
    match verdict {
        Ok(()) => print(second, table, s, tape, paper, buf, sink),
        Err(r) => refuse(r, s, tape, paper, buf, sink),
    }
}

// On a tape: the bytes that were given in the second form or the first, as is asked for, or the definition's refusal,
// on the paper; or the first bytes of that, where a write failed; or nothing, where a read failed.
//
// A program that copies a sheet already in the form asked for, or one that writes some lines and then `refused`, has
// not this contract.
// The lent tables are parameters and no struct, as vregs_answer::Space is one: where their lengths are known at the
// call, moving the largest sheet of the second form takes a sixth less time (docs/BENCHMARKS.md).
pub fn convert<R: Read, W: Write>(
    second: bool,
    input: &mut Stream,
    reads: &[usize],
    given: &[u8],
    output: &mut Stream,
    writes: &[usize],
    paper: &mut [u8],
    buf: &mut [u8],
    table: &mut [u8],
    written: &mut [u8],
    work: &mut [u8],
    source: &mut R,
    sink: &mut W,
) -> Result<(), Broken>
    requires { (at_of input.old ≤ length given.now) × (at_of output.old ≤ length paper.old) × (256 ≤ length buf.old)
        × (word_count table.old ≡ table_words) × (word_count written.old ≡ 1536) × (max_work ≤ word_count work.old) }
    ensures { Ran (converted second) reads.now given.now input.old input.new
        writes.now paper.old output.old result output.new paper.new }
{
    let Ok(cur) = sheet_verdict::input::feed_all(input, reads, given, buf, table, written, source)
    else {
        return Err(Broken::Input);
    };
    let verdict = crate::verdict::verdict_on(second, cur, table, written, work);
    put(second, verdict, table, output, writes, paper, buf, sink).or(Err(Broken::Output))
}

// From a reader to a writer, with tables of its own. The streams are descriptors, so the tape, the bytes that it gives
// and the paper, of one each, are looked at by nobody.
// The five lines that make them stand in vregs and replay too: a type of all five would be longer to state.
// No ensures: no trait promises what descriptors hold. What is promised is `convert`'s, whose requires hold the tables
// to their sizes.
pub fn convert_input<R: Read, W: Write>(
    second: bool,
    source: &mut R,
    sink: &mut W,
) -> Result<(), Broken> {
    let mut buf = [0u8; 65536];
    let mut table = [0u8; 174680];
    let mut written = [0u8; 6144];
    let mut work = [0u8; 110600];
    let tape = [0usize; 1];
    let given = [0u8; 1];
    let mut paper = [0u8; 1];
    let mut input = Stream::Descriptor(STDIN);
    let mut output = Stream::Descriptor(STDOUT);
    convert(
        second,
        &mut input,
        &tape,
        &given,
        &mut output,
        &tape,
        &mut paper,
        &mut buf,
        &mut table,
        &mut written,
        &mut work,
        source,
        sink,
    )
}
