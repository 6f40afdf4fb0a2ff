// Two job sheets in memory in the fixed order of jobs, as `order` answers them.

ghost use Rattle.std.specs.Prelude.{◌≡◌, ◌≤◌};
ghost use Rattle.words.specs.Words.{word_count, words_of};
ghost use Rattle.job.specs.Regions.{max_work};
ghost use Rattle.definition.specs.Text.{same};
ghost use Rattle.definition.specs.JobOrder.{order_of, ordered_text};
ghost use Rattle.sheet_rules.specs.Places.{table_words};
ghost use Rattle.order_answer.specs.Shelved.{Shelved};
ghost use Rattle.order_answer.specs.Answers.{out_of};

mod lent;

use definition::{Order, SheetRefusal};
pub use lent::Lent;

// The verdict on a sheet; where it passes, the table has its job.
// By its parts and not by a Lent: of a part of a Lent that is lent on to be read, only its length is known then.
pub fn read_job(
    sheet: &[u8],
    table: &mut [u8],
    written: &mut [u8],
    work: &mut [u8],
) -> Result<(), SheetRefusal>
    requires { (word_count table.old ≡ table_words) × (word_count written.old ≡ 1536)
        × (max_work ≤ word_count work.old) }
    ensures { Shelved sheet.now (words_of table.new) result }
{
    let cur = sheet_verdict::feed_sheet(sheet, table, written);
    crate::verdict_on(cur, table, written, work)
}

// The answer to two sheets.
pub fn order_of(a: &[u8], b: &[u8], lent: &mut Lent) -> Result<Order, SheetRefusal>
    ensures { out_of result ≡ order_of a.now b.now }
{
    let v = read_job(a, lent.first, lent.written, lent.work);
    let w = read_job(b, lent.second, lent.written, lent.work);
    crate::answer(v, lent.first, w, lent.second)
}

// Whether a text is what `order` writes for two sheets.
pub fn is_answer(a: &[u8], b: &[u8], text: &[u8], lent: &mut Lent) -> bool
    ensures { result ≡ same text.now (ordered_text a.now b.now) }
{
    let mut line = [0u8; 256];
    let n = crate::put_answer(&mut line, order_of(a, b, lent));
    text == &line[..n]
}
