// The register sheet of the result tables, page by page through a lent buffer: a cursor has how many lines of each kind are printed.
#![tactic(auto)]

ghost use Rattle.std.specs.Prelude.{◌≡◌, false, ◌+◌, ◌*◌, ◌^◌, ◌≤◌, ◌<◌, length, get_or};
ghost use Rattle.words.specs.Words.{word_count, words_of};
ghost use Rattle.virt_regs.specs.Encoding.{use_base, group_base, tables_end};
ghost use Rattle.lines.specs.Wrote.{Wrote};
ghost use Rattle.register_sheet.specs.Typed.{end_line};
ghost use Rattle.sheet_output.specs.Left.{at_start};
ghost use Rattle.sheet_output.specs.Rows.{row_in, register_in, use_text, seg_text, vreg_text, group_text, behind_use, behind_seg, behind_vreg, behind_group, behind_end};
ghost use Rattle.sheet_output.specs.Pages.{Shows, Stepped, Filled};

pub mod answer;

use definition::{RegClass, ValueSet};
use lines::Page;
use register_sheet::{put_end, put_group, put_seg, put_use, put_vreg};
use std::array;
use virt_regs::{OutLayout, RegisterRow, piece_at};

// How many register, piece, use and group lines are printed; how many pieces the printed registers have, and uses the printed pieces; and whether the end is printed.
// `ended` is a flag and no Option: no value hangs on it, it says that the last line is printed.
#[derive(Clone, Copy, Default)]
pub struct Cursor {
    pub regs: usize,
    pub segs: usize,
    pub segs_end: usize,
    pub uses: usize,
    pub uses_end: usize,
    pub groups: usize,
    pub ended: bool,
}

// Before the first line.
pub fn start() -> Cursor
    ensures { result ≡ at_start }
{
    Cursor::default()
}

// N words from word at on.
fn row<const N: usize>(tables: &[u8], at: usize) -> [u32; N]
    requires { at + N ≤ word_count tables.now }
    ensures { result ≡ row_in (words_of tables.now) at N }
{
    array::from_fn(|k| words::word_at(tables, at + k))
}

// Register i's row.
fn register_row(tables: &[u8], i: usize) -> RegisterRow
    requires { i * 8 + 8 ≤ word_count tables.now }
    ensures { result ≡ register_in (words_of tables.now) (i * 8) }
{
    let [set, class, weight, group, index, hint, first, count] = row::<8>(tables, i * 8);
    RegisterRow {
        set: ValueSet(set),
        class: RegClass(class),
        weight,
        group,
        index,
        hint,
        first,
        count,
    }
}

// The line of the next use.
fn next_use(tables: &[u8], ol: OutLayout, cur: Cursor, buf: &mut [u8], at: usize) -> Page<Cursor>
    requires { (tables_end ol ≤ word_count tables.now) × (cur.uses < ol.uses) × (get_or (words_of tables.now) (use_base ol + cur.uses * 6) 0 < 10) × (at + 256 ≤ length buf.old) }
    ensures { Wrote (256) at buf.old result.n buf.new (use_text ol (words_of tables.now) cur.uses) × (result.cur ≡ behind_use cur) }
{
    let row = row::<6>(tables, ol.use_base() + cur.uses * 6);
    let n = put_use(buf, at, &row);
    Page {
        cur: Cursor {
            uses: cur.uses + 1,
            ended: false,
            ..cur
        },
        n,
    }
}

// The line of the next piece.
fn next_seg(tables: &[u8], ol: OutLayout, cur: Cursor, buf: &mut [u8], at: usize) -> Page<Cursor>
    requires { (tables_end ol ≤ word_count tables.now) × (cur.segs < ol.segs) × (at + 256 ≤ length buf.old) }
    ensures { Wrote (256) at buf.old result.n buf.new (seg_text ol (words_of tables.now) cur.segs) × (result.cur ≡ behind_seg ol (words_of tables.now) cur) }
{
    let row = piece_at(tables, ol, cur.segs);
    let n = put_seg(
        buf,
        at,
        row.value.0,
        row.from.0,
        row.to.0,
        row.flags,
        row.origin,
    );
    Page {
        cur: Cursor {
            segs: cur.segs + 1,
            uses_end: row.first as usize + row.uses as usize,
            ended: false,
            ..cur
        },
        n,
    }
}

// The line of the next register.
fn next_vreg(tables: &[u8], cur: Cursor, buf: &mut [u8], at: usize) -> Page<Cursor>
    requires { (cur.regs * 8 + 8 ≤ word_count tables.now) × (cur.regs < 2 ^ 32) × (at + 256 ≤ length buf.old) }
    ensures { Wrote (256) at buf.old result.n buf.new (vreg_text (words_of tables.now) cur.regs) × (result.cur ≡ behind_vreg (words_of tables.now) cur) }
{
    let row = register_row(tables, cur.regs);
    let n = put_vreg(
        buf,
        at,
        cur.regs as u32,
        row.set.0,
        row.class.0,
        row.weight,
        row.group,
        row.index,
        row.hint,
    );
    Page {
        cur: Cursor {
            regs: cur.regs + 1,
            segs_end: row.first as usize + row.count as usize,
            ended: false,
            ..cur
        },
        n,
    }
}

// The line of the next group.
fn next_group(tables: &[u8], ol: OutLayout, cur: Cursor, buf: &mut [u8], at: usize) -> Page<Cursor>
    requires { (tables_end ol ≤ word_count tables.now) × (cur.groups < ol.groups) × (cur.groups < 2 ^ 32) × (get_or (words_of tables.now) (group_base ol + cur.groups * 9) 0 ≤ 8) × (at + 256 ≤ length buf.old) }
    ensures { Wrote (256) at buf.old result.n buf.new (group_text ol (words_of tables.now) cur.groups) × (result.cur ≡ behind_group cur) }
{
    let w = ol.group_base() + cur.groups * 9;
    let size = words::word_at(tables, w) as usize;
    let places = row::<8>(tables, w + 1);
    let n = put_group(buf, at, cur.groups as u32, &places[..size]);
    Page {
        cur: Cursor {
            groups: cur.groups + 1,
            ended: false,
            ..cur
        },
        n,
    }
}

// The end line.
fn next_end(regs: usize, groups: usize, cur: Cursor, buf: &mut [u8], at: usize) -> Page<Cursor>
    requires { (regs < 2 ^ 32) × (groups < 2 ^ 32) × (at + 256 ≤ length buf.old) }
    ensures { Wrote (256) at buf.old result.n buf.new (end_line regs groups) × (result.cur ≡ behind_end cur) }
{
    let n = put_end(buf, at, regs as u32, groups as u32);
    Page {
        cur: Cursor { ended: true, ..cur },
        n,
    }
}

// The next line, behind the first `at` bytes of the buffer.
pub fn put_next(
    tables: &[u8],
    ol: OutLayout,
    regs: usize,
    groups: usize,
    cur: Cursor,
    buf: &mut [u8],
    at: usize,
) -> Page<Cursor>
    requires { Shows ol (word_count tables.now) (words_of tables.now) regs groups cur × (cur.ended ≡ false) × (at + 256 ≤ length buf.old) }
    ensures { Stepped ol (words_of tables.now) regs groups cur at buf.old result buf.new }
{
    if cur.uses < cur.uses_end {
        return next_use(tables, ol, cur, buf, at);
    }
    if cur.segs < cur.segs_end {
        return next_seg(tables, ol, cur, buf, at);
    }
    if cur.regs < regs {
        return next_vreg(tables, cur, buf, at);
    }
    if cur.groups < groups {
        return next_group(tables, ol, cur, buf, at);
    }
    next_end(regs, groups, cur, buf, at)
}

// A page: lines from the cursor on, as long as the buffer has room for any line.
// Not one with job_pages::fill: the cursor is another, and a closure for the line would carry its contract.
pub fn fill(
    tables: &[u8],
    ol: OutLayout,
    regs: usize,
    groups: usize,
    cur: Cursor,
    buf: &mut [u8],
) -> Page<Cursor>
    requires { Shows ol (word_count tables.now) (words_of tables.now) regs groups cur }
    ensures { Filled ol (word_count tables.now) (words_of tables.now) regs groups cur result buf.new }
{
    let mut page = Page { cur, n: 0 };
    // Line by line, and how many bytes a line takes is known behind it: no index counts here.
    while page.n + 256 <= buf.len() && !page.cur.ended {
        page = put_next(tables, ol, regs, groups, page.cur, buf, page.n);
    }
    page
}
