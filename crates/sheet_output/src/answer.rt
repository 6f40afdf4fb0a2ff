// The register sheet of an answer, a refusal's too, page by page through a lent buffer.

ghost use Rattle.std.specs.Prelude.{◌≤◌, length};
ghost use Rattle.sheet_output.specs.AnswerPages.{Refuses, Prints, Turned};

use crate::Cursor;
use build_answer::BuildEnd;
use lines::Page;
use virt_regs::OutLayout;

// The page of a refusal: its line, where the end is not printed.
fn refused_page(number: u32, cur: Cursor, buf: &mut [u8]) -> Page<Cursor>
    requires { 256 ≤ length buf.old }
    ensures { Refuses number cur result buf.new }
{
    if cur.ended {
        return Page { cur, n: 0 };
    }
    let n = register_sheet::put_refused(buf, 0, number);
    Page {
        cur: Cursor { ended: true, ..cur },
        n,
    }
}

// The next page of the sheet of an answer that stands in the tables. Its number is 0 or a refusal's: C reads it so.
// The buffer has 256 bytes or more, by a clause: an array would refuse a longer one.
pub fn page(
    end: BuildEnd,
    tables: &[u8],
    ol: OutLayout,
    cur: Cursor,
    buf: &mut [u8],
) -> Page<Cursor>
    requires { Prints ol end tables.now cur × (256 ≤ length buf.old) }
    ensures { Turned ol end tables.now cur result buf.new }
{
    if end.number == 0 {
        let regs = end.registers as usize;
        let groups = end.groups as usize;
        return crate::fill(tables, ol, regs, groups, cur, buf);
    }
    refused_page(end.number, cur, buf)
}
