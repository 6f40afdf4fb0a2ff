// Two jobs in the tables that the reader of job sheets filled, compared in the fixed order of jobs: row by row from the
// top, and nothing is copied or written.
#![tactic(auto)]

ghost use Rattle.std.specs.Prelude.{◌≡◌, true, ◌+◌, ◌≤◌};
ghost use Rattle.words.specs.Words.{word_count, words_of};
ghost use Rattle.definition.specs.JobOrder.{by_number, by_places};
ghost use Rattle.sheet_rules.specs.Kinds.{number_of};
ghost use Rattle.job_pages.specs.Cursors.{cursor_of, at_start, has_row};
ghost use Rattle.job_pages.specs.Pages.{Shows};
ghost use Rattle.job_order.specs.Rows.{words_from, row_start, fields_at, behind_at};
ghost use Rattle.job_order.specs.Orders.{Stepped, Orders};

use definition::Order;
use job_pages::Cursor;
use sheet_rules::forms::Kind;

// Numbers by size.
fn by_number(a: usize, b: usize) -> Order
    ensures { result ≡ by_number a b }
{
    if a < b {
        Order::Before
    } else if a == b {
        Order::Same
    } else {
        Order::After
    }
}

// The n words of the one table and the m words of the other from word a on, place by place: where all are the same so
// far, the fewer go first.
fn by_fields(x: &[u8], y: &[u8], a: usize, n: usize, m: usize) -> Order
    requires { (a + n ≤ word_count x.now) × (a + m ≤ word_count y.now) }
    ensures { result ≡ by_places by_number (words_from (words_of x.now) a n) (words_from (words_of y.now) a m) }
{
    for i in 0..n.min(m) {
        let p = words::word_at(x, a + i) as usize;
        let q = words::word_at(y, a + i) as usize;
        match by_number(p, q) {
            Order::Same => {}
            o => return o,
        }
    }
    by_number(n, m)
}

// The first word of the row that a cursor stands at.
fn first_word(x: &[u8], key: Kind, cur: Cursor) -> usize
    requires { Shows x.now (cursor_of cur) × ((cursor_of cur).key ≡ number_of key)
        × (has_row (words_of x.now) (cursor_of cur) ≡ true) }
    ensures { result ≡ row_start (cursor_of cur) }
{
    sheet_rules::places::row_at(Some(key), job_pages::shown(cur) as u32)
}

// The two records that a cursor stands at, field by field.
fn by_record(x: &[u8], y: &[u8], key: Kind, cur: Cursor) -> Order
    requires { Shows x.now (cursor_of cur) × Shows y.now (cursor_of cur) × ((cursor_of cur).key ≡ number_of key)
        × (has_row (words_of x.now) (cursor_of cur) ≡ true) × (has_row (words_of y.now) (cursor_of cur) ≡ true) }
    ensures { result ≡ by_places by_number (fields_at (words_of x.now) (cursor_of cur))
        (fields_at (words_of y.now) (cursor_of cur)) }
{
    let w = first_word(x, key, cur);
    let a = job_pages::first_field(key, w);
    let n = job_pages::fields(x, key, w);
    let m = job_pages::fields(y, key, w);
    by_fields(x, y, a, n, m)
}

// Behind the record that a cursor stands at.
fn behind(x: &[u8], key: Kind, cur: Cursor) -> Cursor
    requires { Shows x.now (cursor_of cur) × ((cursor_of cur).key ≡ number_of key)
        × (has_row (words_of x.now) (cursor_of cur) ≡ true) }
    ensures { cursor_of result ≡ behind_at (words_of x.now) (cursor_of cur) }
{
    let w = first_word(x, key, cur);
    job_pages::behind(x, cur, w)
}

// Behind the two records that a cursor stands at, where they are the same; else the answer.
fn past(x: &[u8], y: &[u8], key: Kind, cur: Cursor) -> Result<Cursor, Order>
    requires { Shows x.now (cursor_of cur) × Shows y.now (cursor_of cur) × ((cursor_of cur).key ≡ number_of key)
        × (has_row (words_of x.now) (cursor_of cur) ≡ true) × (has_row (words_of y.now) (cursor_of cur) ≡ true) }
    ensures { Stepped x.now y.now (cursor_of cur) result }
{
    match by_record(x, y, key, cur) {
        Order::Same => Ok(behind(x, key, cur)),
        o => Err(o),
    }
}

// One step in both tables, which agree so far: the cursor behind it, or the answer. A record of this kind goes before
// one of a later kind.
fn step(x: &[u8], y: &[u8], key: Kind, cur: Cursor) -> Result<Cursor, Order>
    requires { Shows x.now (cursor_of cur) × Shows y.now (cursor_of cur) × ((cursor_of cur).key ≡ number_of key) }
    ensures { Stepped x.now y.now (cursor_of cur) result }
{
    match (job_pages::has_row(x, cur), job_pages::has_row(y, cur)) {
        (true, true) => past(x, y, key, cur),
        (true, false) => Err(Order::Before),
        (false, true) => Err(Order::After),
        (false, false) => Ok(job_pages::pass(cur)),
    }
}

// How the job of the one table stands to that of the other. The fields that the second form has besides never decide,
// so they are not looked at.
pub fn compare(x: &[u8], y: &[u8]) -> Order
    requires { Shows x.now at_start × Shows y.now at_start }
    ensures { Orders (words_of x.now) (words_of y.now) at_start result }
{
    let mut cur = job_pages::start();
    // Row by row, and where the next one stands is known behind it: no index counts here.
    while let Some(key) = cur.key {
        match step(x, y, key, cur) {
            Ok(next) => cur = next,
            Err(o) => return o,
        }
    }
    Order::Same
}
