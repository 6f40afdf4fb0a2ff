// The answer to two job sheets that were read: the verdict on each, the order of the two jobs or a refusal, and its
// line.
#![tactic(auto)]

ghost use Rattle.std.specs.Prelude.{◌≡◌, ◌≤◌, length, IsOk};
ghost use Rattle.words.specs.Words.{word_count, words_of};
ghost use Rattle.job.specs.Regions.{max_work};
ghost use Rattle.definition.specs.JobOrder.{answered};
ghost use Rattle.sheet_rules.specs.Places.{table_words};
ghost use Rattle.lines.specs.Wrote.{Wrote};
ghost use Rattle.sheet.specs.Front.{formed, open_form};
ghost use Rattle.sheet.specs.Stream.{Streamed};
ghost use Rattle.job_pages.specs.Cursors.{at_start};
ghost use Rattle.job_pages.specs.Pages.{Shows};
ghost use Rattle.order_answer.specs.Shelved.{Shelves};
ghost use Rattle.order_answer.specs.Answers.{Answers, out_of};

pub mod memory;
pub mod run;

use definition::{Order, SheetRefusal};
use sheet::either::Reading;

// The refusal of every sheet that leads the reader to this state and these tables, or none where the table has its job.
pub fn verdict_on(
    cur: Reading,
    table: &[u8],
    written: &[u8],
    work: &mut [u8],
) -> Result<(), SheetRefusal>
    requires { Streamed (open_form table_words 1536) (formed cur (words_of table.now) (words_of written.now))
        × (word_count table.now ≡ table_words) × (word_count written.now ≡ 1536) × (max_work ≤ word_count work.old) }
    ensures { Shelves cur (words_of table.now) (words_of written.now) result }
{
    match sheet_verdict::judge(cur, table, written, work) {
        Ok(_) => Ok(()),
        Err(r) => Err(r),
    }
}

// The answer by the verdicts on two sheets and their tables. Where neither passes, it is the first one's refusal.
pub fn answer(
    first: Result<(), SheetRefusal>,
    x: &[u8],
    second: Result<(), SheetRefusal>,
    y: &[u8],
) -> Result<Order, SheetRefusal>
    requires { (IsOk first → Shows x.now at_start) × (IsOk second → Shows y.now at_start) }
    ensures { Answers first (words_of x.now) second (words_of y.now) result }
{
    match (first, second) {
        (Err(r), _) => Err(r),
        (Ok(()), Err(r)) => Err(r),
        (Ok(()), Ok(())) => Ok(job_order::compare(x, y)),
    }
}

// The line of an answer.
pub fn put_answer(out: &mut [u8], r: Result<Order, SheetRefusal>) -> usize
    requires { 256 ≤ length out.old }
    ensures { Wrote (256) 0 out.old result out.new (answered (out_of r)) }
{
    match r {
        Ok(o) => {
            let n = lines::put_bytes(out, 0, o.word());
            lines::put_bytes(out, n, b"\n")
        }
        Err(f) => register_sheet::put_refused(out, 0, f.number()),
    }
}
