// The verdict on a job sheet that was read and is to be moved to a form: 1 where it has that form already, else the
// refusal of its tests, or none.

ghost use Rattle.std.specs.Prelude.{◌≡◌, ◌≤◌};
ghost use Rattle.words.specs.Words.{word_count, words_of};
ghost use Rattle.job.specs.Regions.{max_work};
ghost use Rattle.definition.specs.Conversion.{already};
ghost use Rattle.sheet_rules.specs.Places.{table_words};
ghost use Rattle.sheet.specs.Fronts.{front_at};
ghost use Rattle.sheet.specs.Front.{formed, open_form, second_of};
ghost use Rattle.sheet.specs.Stream.{Streamed};
ghost use Rattle.convert.specs.Settled.{Settles};

use definition::{Refusal, SheetRefusal};
use sheet::either::Reading;

// Whether the sheet that was read has the form that is asked for, the second or the first.
fn is_already(second: bool, cur: Reading) -> bool
    ensures { result ≡ already second (second_of (front_at cur.front)) }
{
    second == sheet::either::is_second(cur)
}

// The refusal of every sheet that leads the reader to this state and these tables, or none where it is to be written. A
// sheet in the form that is asked for is refused with 1 before any test.
pub fn verdict_on(
    second: bool,
    cur: Reading,
    table: &[u8],
    written: &[u8],
    work: &mut [u8],
) -> Result<(), SheetRefusal>
    requires { Streamed (open_form table_words 1536) (formed cur (words_of table.now) (words_of written.now))
        × (word_count table.now ≡ table_words) × (word_count written.now ≡ 1536) × (max_work ≤ word_count work.old) }
    ensures { Settles second cur (words_of table.now) (words_of written.now) result }
{
    if is_already(second, cur) {
        return Err(SheetRefusal::By(Refusal::NotARecord));
    }
    sheet_verdict::judge(cur, table, written, work)?;
    Ok(())
}
