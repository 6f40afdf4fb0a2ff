// A stored answer held to the answer to its sheet, byte for byte.

ghost use Rattle.std.specs.Prelude.{◌≡◌, ◌≤◌, length};
ghost use Rattle.definition.specs.Text.{same};
ghost use Rattle.definition.specs.SheetForms.{vregs_of};
ghost use Rattle.sheet_output.specs.Left.{at_start};
ghost use Rattle.sheet_output.specs.AnswerPages.{Prints};
ghost use Rattle.vregs_answer.specs.Sheet.{vregs_tables};
ghost use Rattle.vregs_answer.specs.Same.{TellsSheet};

use crate::Space;
use build_answer::BuildEnd;

// Whether the answer is the register sheet that the end and the tables print.
fn same_sheet(end: BuildEnd, tables: &[u8], answer: &[u8], buf: &mut [u8]) -> bool
    requires { Prints vregs_tables end tables.now at_start × (256 ≤ length buf.old) }
    ensures { TellsSheet end tables.now answer.now result }
{
    let ol = crate::vregs_tables();
    let mut cur = sheet_output::start();
    let mut rest = answer;
    // Page by page, and how many lines a page takes is known behind it: no index counts here.
    while !cur.ended {
        let page = sheet_output::answer::page(end, tables, ol, cur, buf);
        let Some(behind) = rest.strip_prefix(&buf[..page.n]) else {
            return false;
        };
        rest = behind;
        cur = page.cur;
    }
    rest.is_empty()
}

// Whether the answer is what `vregs` prints for the sheet.
pub fn is_answer(sheet: &[u8], answer: &[u8], space: &mut Space) -> bool
    ensures { result ≡ same answer.now (vregs_of sheet.now) }
{
    let cur = sheet_verdict::feed_sheet(sheet, space.table, space.written);
    let end = crate::answer_table(cur, space.table, space.written, space.out, space.work);
    same_sheet(end, space.out, answer, space.buf)
}
