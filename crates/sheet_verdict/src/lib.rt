// The verdict on a job sheet of either form that was read: the refusal of tests 1 to 7 and 10, or what a build needs of a
// sheet that passes; and reading a sheet in memory.
#![tactic(auto)]

ghost use Rattle.std.specs.Prelude.{◌≡◌, ◌≤◌};
ghost use Rattle.words.specs.Words.{word_count, words_of};
ghost use Rattle.job.specs.Regions.{max_work};
ghost use Rattle.sheet_rules.specs.Places.{table_words};
ghost use Rattle.sheet.specs.Front.{formed, open_form};
ghost use Rattle.sheet.specs.Stream.{Streamed};
ghost use Rattle.sheet_verdict.specs.Judged.{Tested, LeadsTo, Judged};

pub mod input;
pub mod read;
pub mod written;

use crate::written::Written;
use definition::{Refusal, SheetRefusal};
use entry::Entered;
use job::Job;
use job_shape::ShapedJob;
use sheet::either::Reading;
use sheet::first::SheetError;

// Feeds the reader a whole sheet in memory: the state that the sheet leads to, with its tables.
pub fn feed_sheet(sheet: &[u8], table: &mut [u8], written: &mut [u8]) -> Reading
    requires { (word_count table.old ≡ table_words) × (word_count written.old ≡ 1536) }
    ensures leads { LeadsTo sheet.now result (words_of table.new) (words_of written.new) }
    ensures streamed { Streamed (open_form table_words 1536)
        (formed result (words_of table.new) (words_of written.new)) }
{
    let first = sheet::either::open(table, written);
    sheet::either::feed(first, sheet, table, written)
}

// Tests 2 to 7 on the job of a table, then 10 where there are written fields.
#[tactic(auto, using(crate::proofs::Ways::tested_refused))]
fn judge_job(
    second: bool,
    shaped: &ShapedJob,
    words: &[u8],
    work: &mut [u8],
) -> Result<Entered, SheetRefusal>
    requires { (word_count words.now ≡ 1536) × (max_work ≤ word_count work.old) }
    ensures { Tested second shaped.now.job.bytes.now shaped.now.job.lay
        (words_of words.now) (words_of work.new) result }
{
    match entry::enter_prepared(shaped, work) {
        Ok(e) => {
            if second {
                let written = Written {
                    job: shaped.job,
                    words,
                };
                if !crate::written::as_implied(&written) {
                    return Err(SheetRefusal::WrittenDiffers);
                }
            }
            Ok(e)
        }
        Err(r) => Err(SheetRefusal::By(r)),
    }
}

// The verdict on every sheet that leads the reader to this state and these tables.
// The lent tables are slices of so many words, and the work slice one of `max_work` or more, by clauses: arrays would
// ask for just so many bytes.
pub fn judge(
    cur: Reading,
    table: &[u8],
    written: &[u8],
    work: &mut [u8],
) -> Result<Entered, SheetRefusal>
    requires { Streamed (open_form table_words 1536) (formed cur (words_of table.now) (words_of written.now)) × (word_count table.now ≡ table_words) × (word_count written.now ≡ 1536) × (max_work ≤ word_count work.old) }
    ensures { Judged cur table.now (words_of written.now) (words_of work.new) result }
{
    match sheet::either::finish(cur) {
        Ok(()) => {
            let lay = sheet_job::fixed_layout(table);
            let job = Job { bytes: table, lay };
            let shaped = ShapedJob { job };
            judge_job(sheet::either::is_second(cur), &shaped, written, work)
        }
        Err(SheetError::Malformed) => Err(SheetRefusal::By(Refusal::NotARecord)),
        Err(SheetError::TooMany) => Err(SheetRefusal::By(Refusal::OverALimit)),
    }
}
