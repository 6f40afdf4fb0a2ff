// All that `order` does between its first read and its last write, over streams: two job sheets are read to their ends
// and judged, and the answer is written.

ghost use Rattle.std.specs.Prelude.{◌≡◌, ◌≤◌, length, is_err, is_ok, IsOk};
ghost use Rattle.words.specs.Words.{word_count, words_of};
ghost use Rattle.job.specs.Regions.{max_work};
ghost use Rattle.definition.specs.JobOrder.{answered};
ghost use Rattle.sheet_rules.specs.Places.{table_words};
ghost use Rattle.order_answer.specs.Answers.{out_of};
ghost use Rattle.streams.specs.Tape.{at_of};
ghost use Rattle.order_answer.specs.Tapes.{taped};
ghost use Rattle.order_answer.specs.Reads.{JobRead};
ghost use Rattle.order_answer.specs.Runs.{Written, Ordered};

mod ends;

use definition::{Order, SheetRefusal};
pub use ends::{Input, Output};
use std::io::{Read, Write};
use streams::Cut;

// Where a run broke off: the first sheet could not be read to its end, or the second, or the answer not be written.
#[derive(Clone, Copy, Debug, PartialEq, Eq)]
pub enum BrokenAt {
    First,
    Second,
    Output,
}

// Reads a sheet to its end: the verdict on it, and where it passes the table has its job.
fn read_job<R: Read>(
    input: &mut Input<R>,
    page: &mut [u8],
    table: &mut [u8],
    written: &mut [u8],
    work: &mut [u8],
) -> Result<Result<(), SheetRefusal>, Cut>
    requires { (at_of input.old.stream ≤ length input.old.given.now) × (1 ≤ length page.old)
        × (word_count table.old ≡ table_words) × (word_count written.old ≡ 1536) × (max_work ≤ word_count work.old) }
    ensures { JobRead (taped input.old.tape.now input.old.given.now input.old.stream input.new.stream)
        result table.new }
{
    let Ok(cur) = sheet_verdict::input::feed_all(
        &mut input.stream,
        input.tape,
        input.given,
        page,
        table,
        written,
        &mut input.source,
    ) else {
        return Err(Cut { after: 0 });
    };
    Ok(crate::verdict_on(cur, table, written, work))
}

// Writes the line of an answer.
fn put<W: Write>(
    r: Result<Order, SheetRefusal>,
    output: &mut Output<W>,
    paper: &mut [u8],
    page: &mut [u8],
) -> Result<(), Cut>
    requires { (256 ≤ length page.old) × (at_of output.old.stream ≤ length paper.old) }
    ensures { Written (taped output.old.tape.now paper.old output.old.stream output.new.stream)
        (answered (out_of r)) (is_err result) paper.new }
{
    let n = crate::put_answer(page, r);
    streams::write_all(
        &mut output.stream,
        output.tape,
        paper,
        &page[..n],
        &mut output.sink,
    )
}

// On tapes: the definition's answer to the bytes that both are given, on the paper; or the first bytes of that, where a
// write failed; or nothing, where a read failed.
//
// A program that gives the second job's number where neither passes, or one that answers before the second sheet was
// read to its end, has not this contract.
// The page that both sheets are read through, a table for each job, one of the written fields and the work space of the
// tests are lent by themselves: where their lengths are known at the call, reading is quicker (docs/BENCHMARKS.md).
pub fn order<R: Read, S: Read, W: Write>(
    first: &mut Input<R>,
    second: &mut Input<S>,
    output: &mut Output<W>,
    paper: &mut [u8],
    page: &mut [u8],
    one: &mut [u8],
    other: &mut [u8],
    written: &mut [u8],
    work: &mut [u8],
) -> Result<(), BrokenAt>
    requires { (at_of first.old.stream ≤ length first.old.given.now)
        × (at_of second.old.stream ≤ length second.old.given.now)
        × (at_of output.old.stream ≤ length paper.old)
        × (256 ≤ length page.old) × (word_count one.old ≡ table_words) × (word_count other.old ≡ table_words)
        × (word_count written.old ≡ 1536) × (max_work ≤ word_count work.old) }
    ensures { Ordered (taped first.old.tape.now first.old.given.now first.old.stream first.new.stream)
        (taped second.old.tape.now second.old.given.now second.old.stream second.new.stream)
        (taped output.old.tape.now paper.old output.old.stream output.new.stream)
        result paper.new }
{
    let Ok(v) = read_job(first, page, one, written, work) else {
        return Err(BrokenAt::First);
    };
    let Ok(w) = read_job(second, page, other, written, work) else {
        return Err(BrokenAt::Second);
    };
    let r = crate::answer(v, one, w, other);
    put(r, output, paper, page).or(Err(BrokenAt::Output))
}
