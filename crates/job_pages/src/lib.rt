// A job sheet in either form from the table that the reader of job sheets filled, page by page through a lent buffer:
// of any length, but with fewer than 256 bytes no line is written.
#![tactic(auto)]

ghost use Rattle.std.specs.Prelude.{◌≡◌, true, false, ◌+◌, ◌^◌, ◌≤◌, ◌<◌, eqb, length, get_or};
ghost use Rattle.words.specs.Words.{word_count, words_of};
ghost use Rattle.definition.specs.Types.{Job};
ghost use Rattle.values.specs.ValueRows.{values_at};
ghost use Rattle.sheet_rules.specs.Kinds.{number_of};
ghost use Rattle.sheet_rules.specs.Places.{table_words, row_at};
ghost use Rattle.sheet_job.specs.Segments.{next_first};
ghost use Rattle.lines.specs.Wrote.{Wrote};
ghost use Rattle.job_pages.specs.Cursors.{cursor_of, at_start, shown_row, rows_in, has_row, passed_on, field_count};
ghost use Rattle.job_pages.specs.Cursors.{first_field, behind_row, written_by, front_text};
ghost use Rattle.job_pages.specs.Pages.{page_at, Shows, Stepped, Filled};

use definition::Value;
use lines::Page;
use sheet_rules::forms::Kind;
use words::rows::Rows;

// The kind of record that comes next, or none behind the end; how many rows of this kind, how many segments and how
// many uses are printed; how many instructions the printed blocks have.
#[derive(Clone, Copy)]
pub struct Cursor {
    pub key: Option<Kind>,
    pub row: usize,
    pub segs: usize,
    pub uses: usize,
    pub insts: u32,
}

// Before the first line.
pub fn start() -> Cursor
    ensures { cursor_of result ≡ at_start }
{
    Cursor {
        key: Some(Kind::Opt),
        row: 0,
        segs: 0,
        uses: 0,
        insts: 0,
    }
}

// The row of its kind's table that the cursor stands at.
#[tactic(auto, unfolding(crate::specs::Cursors::shown_row))]
pub fn shown(cur: Cursor) -> usize
    ensures { result ≡ shown_row (cursor_of cur) }
{
    match cur.key {
        Some(Kind::Seg) => cur.segs,
        Some(Kind::Use) => cur.uses,
        _ => cur.row,
    }
}

// How many records of a kind the table has.
fn count(table: &[u8], key: Kind) -> usize
    requires { (word_count table.now ≡ table_words) × (1 ≤ number_of key) × (number_of key ≤ 10) }
    ensures { result ≡ rows_in (words_of table.now) (number_of key) }
{
    words::word_at(table, key as usize - 1) as usize
}

// Where the uses end of the last one of the first s segments.
#[tactic(auto, unfolding(sheet_job::specs::Segments::next_first), using(crate::proofs::Places::segment_row))]
fn uses_end(table: &[u8], s: usize) -> usize
    requires { (word_count table.now ≡ table_words) × (rows_in (words_of table.now) 9 ≤ 1024) }
    ensures { result ≡ next_first (words_of table.now) s }
{
    if s < count(table, Kind::Seg) {
        words::word_at(
            table,
            sheet_rules::places::row_at(Some(Kind::Seg), s as u32) + 4,
        ) as usize
    } else {
        count(table, Kind::Use)
    }
}

// Whether a record of its kind comes next. There is one opt and one end.
#[tactic(auto, unfolding(crate::specs::Cursors::has_row))]
pub fn has_row(table: &[u8], cur: Cursor) -> bool
    requires { (word_count table.now ≡ table_words) × (rows_in (words_of table.now) 9 ≤ 1024) }
    ensures { result ≡ has_row (words_of table.now) (cursor_of cur) }
{
    match cur.key {
        None | Some(Kind::Opt | Kind::End) => true,
        Some(Kind::Use) => cur.uses < uses_end(table, cur.segs),
        Some(key) => shown(cur) < count(table, key),
    }
}

// The next kind; behind the uses of a segment come segments again, and behind all of these the end.
#[tactic(auto, unfolding(crate::specs::Cursors::passed_on))]
pub fn pass(cur: Cursor) -> Cursor
    requires { (cursor_of cur).key ≤ 10 }
    ensures { cursor_of result ≡ passed_on (cursor_of cur) }
{
    let key = match cur.key {
        Some(Kind::Opt) => Kind::Bank,
        Some(Kind::Bank) => Kind::Class,
        Some(Kind::Class) => Kind::Reg,
        Some(Kind::Reg) => Kind::Block,
        Some(Kind::Block) => Kind::Value,
        Some(Kind::Value) => Kind::Vgroup,
        Some(Kind::Vgroup) => Kind::Operand,
        Some(Kind::Operand) => Kind::Hint,
        Some(Kind::Hint | Kind::Use) => Kind::Seg,
        Some(Kind::Seg | Kind::End) | None => Kind::End,
    };
    Cursor {
        key: Some(key),
        row: 0,
        ..cur
    }
}

// How many fields the record has whose row begins at word w.
#[tactic(auto, unfolding(crate::specs::Cursors::field_count))]
pub fn fields(table: &[u8], key: Kind, w: usize) -> usize
    requires { (eqb (number_of key) 6 ≡ true → w < word_count table.now)
        × (eqb (number_of key) 10 ≡ true → (w < word_count table.now) × (get_or (words_of table.now) w 0 < 10)) }
    ensures { result ≡ field_count (words_of table.now) (number_of key) w }
{
    match key {
        Kind::Vgroup => words::word_at(table, w) as usize,
        Kind::Use => register_sheet::use_length(words::word_at(table, w)),
        _ => sheet_rules::places::stored(Some(key)) as usize,
    }
}

// The word of its first field: a vgroup's row begins with the number of its members.
#[tactic(auto, unfolding(crate::specs::Cursors::first_field))]
pub fn first_field(key: Kind, w: usize) -> usize
    requires { w < 2 ^ 32 }
    ensures { result ≡ first_field (number_of key) w }
{
    match key {
        Kind::Vgroup => w + 1,
        _ => w,
    }
}

// The field that the second form has behind a record: the first instruction of a block, the set of a segment.
#[tactic(auto, unfolding(crate::specs::Cursors::written_by), using(crate::proofs::Places::value_row))]
fn written(second: bool, table: &[u8], cur: Cursor, w: usize) -> Option<u32>
    requires { (word_count table.now ≡ table_words) × (rows_in (words_of table.now) 5 ≤ 1024)
        × (eqb (cursor_of cur).key 9 ≡ true → w < table_words) }
    ensures { (job : Job) → job.values ≡ values_at (words_of table.now) (row_at 5 0) (rows_in (words_of table.now) 5)
        → result ≡ written_by second (words_of table.now) job (cursor_of cur) w }
{
    if !second {
        return None;
    }
    match cur.key {
        Some(Kind::Block) => Some(cur.insts),
        Some(Kind::Seg) => {
            let values = Rows {
                words: table,
                at: sheet_rules::places::row_at(Some(Kind::Value), 0),
                n: count(table, Kind::Value),
            };
            let v = Value(words::word_at(table, w));
            let set = values::set_for_value(&values, v);
            Some(set.0)
        }
        _ => None,
    }
}

// The line of the form, before opt in the second form.
#[tactic(auto, unfolding(crate::specs::Cursors::front_text))]
fn open(second: bool, key: Kind, buf: &mut [u8], at: usize) -> usize
    requires { at + 7 ≤ length buf.old }
    ensures { Wrote (7) at buf.old result buf.new (front_text second (number_of key)) }
{
    if second && matches!(key, Kind::Opt) {
        lines::job::put_form(buf, at)
    } else {
        at
    }
}

// Behind the record whose row begins at word w.
#[tactic(auto, unfolding(crate::specs::Cursors::behind_row))]
pub fn behind(table: &[u8], cur: Cursor, w: usize) -> Cursor
    requires { ((cursor_of cur).key ≤ 11) × (cur.row < 2 ^ 32) × (cur.segs < 2 ^ 32) × (cur.uses < 2 ^ 32)
        × (eqb (cursor_of cur).key 4 ≡ true → (w < word_count table.now)
        × (cur.insts + get_or (words_of table.now) w 0 < 2 ^ 32)) }
    ensures { cursor_of result ≡ behind_row (words_of table.now) (cursor_of cur) w }
{
    let mut next = cur;
    match cur.key {
        Some(Kind::Opt) => {
            next.key = Some(Kind::Bank);
            next.row = 0;
        }
        Some(Kind::Block) => {
            next.row += 1;
            next.insts += words::word_at(table, w);
        }
        Some(Kind::Seg) => {
            next.key = Some(Kind::Use);
            next.segs += 1;
        }
        Some(Kind::Use) => next.uses += 1,
        Some(Kind::End) => next.key = None,
        _ => next.row += 1,
    }
    next
}

// The line of the record that the cursor stands at, which is of this kind.
fn next_line(
    second: bool,
    table: &[u8],
    key: Kind,
    cur: Cursor,
    buf: &mut [u8],
    at: usize,
) -> Page<Cursor>
    requires { Shows table.now (cursor_of cur) × ((cursor_of cur).key ≡ number_of key)
        × (has_row (words_of table.now) (cursor_of cur) ≡ true) × (at + 256 ≤ length buf.old) }
    ensures { Stepped second (words_of table.now) (cursor_of cur) at buf.old (page_at result) buf.new }
{
    let w = sheet_rules::places::row_at(Some(key), shown(cur) as u32);
    let next = behind(table, cur, w);
    let n = fields(table, key, w);
    let a = first_field(key, w);
    let more = written(second, table, cur, w);
    let front = open(second, key, buf, at);
    let end = lines::job::put_record(buf, front, Some(key), table, a, n, more);
    Page { cur: next, n: end }
}

// The next line, behind the first `at` bytes of the buffer; or nothing, where no record of this kind is left.
fn put_next(
    second: bool,
    table: &[u8],
    key: Kind,
    cur: Cursor,
    buf: &mut [u8],
    at: usize,
) -> Page<Cursor>
    requires { Shows table.now (cursor_of cur) × ((cursor_of cur).key ≡ number_of key) × (at + 256 ≤ length buf.old) }
    ensures { Stepped second (words_of table.now) (cursor_of cur) at buf.old (page_at result) buf.new }
{
    if has_row(table, cur) {
        next_line(second, table, key, cur, buf, at)
    } else {
        Page {
            cur: pass(cur),
            n: at,
        }
    }
}

// A page: lines from the cursor on, as long as the buffer has room for any line.
// Not one with sheet_output::fill: the cursor is another, and a closure for the line would carry its contract.
// That the table holds what the cursor shows is a clause: a cursor is a value, and the table comes with each call.
pub fn fill(second: bool, table: &[u8], cur: Cursor, buf: &mut [u8]) -> Page<Cursor>
    requires { Shows table.now (cursor_of cur) }
    ensures { Filled second table.now (cursor_of cur) (page_at result) buf.new }
{
    let mut page = Page { cur, n: 0 };
    // Line by line, and how many bytes a line takes is known behind it: no index counts here.
    while page.n + 256 <= buf.len() {
        let Some(key) = page.cur.key else {
            return page;
        };
        page = put_next(second, table, key, page.cur, buf, page.n);
    }
    page
}
