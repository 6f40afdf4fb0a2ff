// A line of a job sheet, of either form, from a row of words, put into a lent buffer behind its first `at` bytes.
// Each function answers where its text ends.
// By hand: each contract names the bytes, as that of `write!` to a lent slice does not; a String would take the heap.

ghost use Rattle.std.specs.Prelude.{◌≡◌, ◌∷◌, ◌+◌, ◌*◌, ◌≤◌, length, take, drop};
ghost use Rattle.words.specs.Words.{word_count, words_of};
ghost use Rattle.definition.specs.SheetForms.{form_line};
ghost use Rattle.sheet_rules.specs.Kinds.{key_number};
ghost use Rattle.lines.specs.Wrote.{Wrote};
ghost use Rattle.lines.specs.Rows.{word_text, bits_at, value_text, row_text, more_text, line_text};

use sheet_rules::forms::Kind;

// The words that the records of each kind begin with, in the order of a sheet.
const WORDS: [&[u8]; 12] = [
    b"opt", b"bank", b"class", b"reg", b"block", b"value", b"vgroup", b"operand", b"hint", b"seg",
    b"use", b"end",
];

// The word of a kind; that of none is the last.
#[tactic(auto, unfolding(crate::specs::Rows::word_text))]
fn word(key: Option<Kind>) -> &'static [u8]
    ensures is { result.now ≡ word_text (key_number key) }
    ensures short { length result.now ≤ 7 }
{
    match key {
        Some(kind) => WORDS[kind as usize],
        None => b"end",
    }
}

// Whether field j of a record is a mask or a float: the scales of opt, mask and cost of a class, the frequency of a
// block.
#[tactic(auto, unfolding(crate::specs::Rows::bits_at))]
fn is_bits(key: Option<Kind>, j: usize) -> bool
    ensures { result ≡ bits_at (key_number key) j }
{
    match key {
        Some(Kind::Opt) => 0 < j,
        Some(Kind::Class) => j < 2,
        Some(Kind::Block) => j == 1,
        _ => false,
    }
}

// A tab and a field.
fn put_value(out: &mut [u8], at: usize, bits: bool, v: u32) -> usize
    requires { at + 21 ≤ length out.old }
    ensures { Wrote (21) at out.old result out.new (9 ∷ value_text bits v) }
{
    if bits {
        crate::put_bits_field(out, at, v)
    } else {
        crate::put_field(out, at, v)
    }
}

// The fields of a record: n words from word a on, each behind a tab.
fn put_row(out: &mut [u8], at: usize, key: Option<Kind>, table: &[u8], a: usize, n: usize) -> usize
    requires { (at + n * 21 ≤ length out.old) × (a + n ≤ word_count table.now) }
    ensures { Wrote (n * 21) at out.old result out.new
        (row_text (key_number key) (take n (drop a (words_of table.now)))) }
{
    let mut end = at;
    for j in 0..n {
        end = put_value(out, end, is_bits(key, j), words::word_at(table, a + j));
    }
    end
}

// The field that the second form has behind them, where it has one, and the line feed.
fn put_tail(out: &mut [u8], at: usize, more: Option<u32>) -> usize
    requires { at + 22 ≤ length out.old }
    ensures { Wrote (22) at out.old result out.new (more_text more) }
{
    match more {
        Some(field) => {
            let a = crate::put_field(out, at, field);
            crate::put_bytes(out, a, b"\n")
        }
        None => crate::put_bytes(out, at, b"\n"),
    }
}

// A record of this kind, or of none, whose fields are n words from word a on.
pub fn put_record(
    out: &mut [u8],
    at: usize,
    key: Option<Kind>,
    table: &[u8],
    a: usize,
    n: usize,
    more: Option<u32>,
) -> usize
    requires { (at + 248 ≤ length out.old) × (a + n ≤ word_count table.now) × (n ≤ 8) }
    ensures { Wrote (248) at out.old result out.new
        (line_text (key_number key) (take n (drop a (words_of table.now))) more) }
{
    let w = crate::put_bytes(out, at, word(key));
    let end = put_row(out, w, key, table, a, n);
    put_tail(out, end, more)
}

// The line that opens a sheet of the second form.
pub fn put_form(out: &mut [u8], at: usize) -> usize
    requires { at + 7 ≤ length out.old }
    ensures { Wrote (7) at out.old result out.new form_line }
{
    crate::put_bytes(out, at, b"form\t2\n")
}
