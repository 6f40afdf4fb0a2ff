// A job sheet in memory moved to the other form as `to_form2` and `to_form1` answer it, and home again.

ghost use Rattle.std.specs.Prelude.{◌≡◌, ◌≤◌, length, not};
ghost use Rattle.words.specs.Words.{word_count, words_of};
ghost use Rattle.definition.specs.Text.{same};
ghost use Rattle.definition.specs.SheetForms.{is_second};
ghost use Rattle.definition.specs.Conversion.{converted};
ghost use Rattle.job.specs.Regions.{max_work};
ghost use Rattle.sheet_rules.specs.Places.{table_words};
ghost use Rattle.job_pages.specs.Cursors.{at_start};
ghost use Rattle.job_pages.specs.Pages.{Shows};
ghost use Rattle.convert.specs.Settled.{Settled};
ghost use Rattle.convert.specs.Moved.{Answered, TellsSheet, gets_back};

mod lent;

use definition::SheetRefusal;
pub use lent::Lent;

// An answer of n bytes: a sheet, or a refusal.
#[derive(Clone, Copy)]
pub struct Moved {
    pub n: usize,
    pub refused: Option<SheetRefusal>,
}

// The verdict on the sheet, which is to be moved to a form; where that is none, the table has what is to be written.
// By its parts and not by a Lent: of a part of a Lent that is lent on to be read, only its length is known then.
fn settle(
    second: bool,
    sheet: &[u8],
    table: &mut [u8],
    written: &mut [u8],
    work: &mut [u8],
) -> Result<(), SheetRefusal>
    requires { (word_count table.old ≡ table_words) × (word_count written.old ≡ 1536)
        × (max_work ≤ word_count work.old) }
    ensures { Settled second sheet.now (words_of table.new) result }
{
    let cur = sheet_verdict::feed_sheet(sheet, table, written);
    crate::verdict::verdict_on(second, cur, table, written, work)
}

// The answer of the program that asks for this form, in one page; none where that has no room for it and a line.
pub fn move_sheet(second: bool, sheet: &[u8], out: &mut [u8], lent: &mut Lent) -> Option<Moved>
    requires { 256 ≤ length out.old }
    ensures { Answered second sheet.now result out.new }
{
    if let Err(r) = settle(second, sheet, lent.table, lent.written, lent.work) {
        let n = register_sheet::put_refused(out, 0, r.number());
        return Some(Moved {
            n,
            refused: Some(r),
        });
    }
    let page = job_pages::fill(second, lent.table, job_pages::start(), out);
    if page.cur.key.is_some() {
        return None;
    }
    Some(Moved {
        n: page.n,
        refused: None,
    })
}

// Whether the answer is the text of the records that the table has, in the form that is asked for.
fn same_sheet(second: bool, table: &[u8], answer: &[u8], buf: &mut [u8]) -> bool
    requires { Shows table.now at_start × (256 ≤ length buf.old) }
    ensures { TellsSheet second (words_of table.now) answer.now result }
{
    let mut cur = job_pages::start();
    let mut rest = answer;
    // Page by page, and how many lines a page takes is known behind it: no index counts here.
    while cur.key.is_some() {
        let page = job_pages::fill(second, table, cur, buf);
        let Some(behind) = rest.strip_prefix(&buf[..page.n]) else {
            return false;
        };
        rest = behind;
        cur = page.cur;
    }
    rest.is_empty()
}

// Whether the answer is what the program that asks for this form writes.
pub fn is_moved(second: bool, sheet: &[u8], answer: &[u8], lent: &mut Lent) -> bool
    ensures { result ≡ same answer.now (converted second sheet.now) }
{
    if let Err(r) = settle(second, sheet, lent.table, lent.written, lent.work) {
        let n = register_sheet::put_refused(lent.buf, 0, r.number());
        return answer == &lent.buf[..n];
    }
    same_sheet(second, lent.table, answer, lent.buf)
}

// Whether the sheet is of the second form.
fn form_of(sheet: &[u8], lent: &mut Lent) -> bool
    ensures { result ≡ is_second sheet.now }
{
    let cur = sheet_verdict::feed_sheet(sheet, lent.table, lent.written);
    sheet::either::is_second(cur)
}

// Whether the program of the sheet's own form refuses it with 1 and, where what it was moved to is no refusal, gives it
// back for that, byte for byte.
fn gets_back(second: bool, m: Moved, sheet: &[u8], moved: &[u8], lent: &mut Lent) -> bool
    ensures { result ≡ gets_back second m sheet.now moved.now }
{
    is_moved(second, sheet, b"refused\t1\n", lent)
        && (m.refused.is_some() || is_moved(second, moved, sheet, lent))
}

// The sheet moved to the other form, and home again: what it was moved to, or none. That each sheet comes home is
// proved of the definition, so none says that it had no room; here the programs' own code is run on it.
pub fn comes_home(sheet: &[u8], there: &mut [u8], lent: &mut Lent) -> Option<Moved>
    requires { 256 ≤ length there.old }
    ensures { Answered (not (is_second sheet.now)) sheet.now result there.new }
{
    let second = form_of(sheet, lent);
    let m = move_sheet(!second, sheet, there, lent)?;
    gets_back(second, m, sheet, &there[..m.n], lent).then_some(m)
}
