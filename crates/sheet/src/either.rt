// The reader of job sheets of either form: `open`, `feed` for each part, `finish`. The form line and the written fields
// are taken off in front of the reader of the first form, which is fed the rest; the written fields go into a lent table
// of their own, 512 words for first instructions and 1,024 for sets.

ghost use Rattle.std.specs.Prelude.{◌≡◌, get_or, eqb};
ghost use Rattle.words.specs.Words.{word_count, words_of};
ghost use Rattle.definition.specs.SheetForms.{form_line};
ghost use Rattle.sheet.specs.Fields.{fed};
ghost use Rattle.sheet_rules.specs.Kinds.{number_of};
ghost use Rattle.sheet.specs.Fronts.{front_at};
ghost use Rattle.sheet.specs.Front.{stood, stood_at, opening_of, front_after, in_word, in_plain, before_of, written_of, close_of};
ghost use Rattle.sheet.specs.Front.{keeping, keep_of, formed, open_form, push_form, run_form, first_of, second_of, finish_of};

use crate::fields::St;
use crate::first::SheetError;
use sheet_rules::digits::{Form, Num};
use sheet_rules::forms::Kind;

// Where a sheet stands: within the form line, behind so many of its bytes; in a sheet of the first form. In the second
// form: in the word of a line; in a line that has no written field; in a field before the written one, with its record
// and how many such fields there are from it on; in the written field, with its record.
#[derive(Clone, Copy)]
pub enum Front {
    Opening(u32),
    First,
    Word,
    Plain,
    Before(Kind, u32),
    Written(Kind, Num),
}

// The form, and the reader of the first form.
#[derive(Clone, Copy)]
pub struct Stood {
    pub front: Front,
    pub next: Option<St>,
}

// How many first instructions and sets were kept.
#[derive(Clone, Copy)]
pub struct Kept {
    pub firsts: u32,
    pub sets: u32,
}

#[derive(Clone, Copy)]
pub struct Reading {
    pub front: Front,
    pub next: Option<St>,
    pub kept: Kept,
}

const FORM_LINE: [u8; 7] = *b"form\t2\n";

// Whether the byte is byte k of the form line.
#[tactic(auto, unfolding(definition::specs::SheetForms::form_line))]
fn is_form_byte(k: u32, b: u8) -> bool
    ensures { result ≡ eqb (get_or form_line k 256) b }
{
    k < 7 && FORM_LINE[k as usize] == b
}

// The start of a sheet: tables of zeros.
#[tactic(auto, unfolding(crate::specs::Front::open_form))]
pub fn open(table: &mut [u8], written: &mut [u8]) -> Reading
    ensures { formed result (words_of table.new) (words_of written.new) ≡ open_form (word_count table.old) (word_count written.old) }
{
    let next = crate::first::open(table);
    crate::cells::clear(written);
    Reading {
        front: Front::Opening(0),
        next,
        kept: Kept { firsts: 0, sets: 0 },
    }
}

// Within the form line: the reader is fed each byte, and begins anew behind the last one.
#[tactic(auto, unfolding(crate::specs::Front::opening_of), using(words::specs::Laws::length_words))]
fn opening(k: u32, next: Option<St>, b: u8, table: &mut [u8]) -> Stood
    ensures { stood (stood_at result) (words_of table.new) ≡ opening_of k (fed next (words_of table.old)) b }
{
    let more = crate::first::push(next, b, table);
    if !is_form_byte(k, b) {
        return Stood {
            front: Front::First,
            next: more,
        };
    }
    if k < 6 {
        return Stood {
            front: Front::Opening(k + 1),
            next: more,
        };
    }
    Stood {
        front: Front::Word,
        next: crate::first::open(table),
    }
}

// Behind the word of a line: the records with a written field are block, with two fields before it, and seg, with four.
#[tactic(auto, unfolding(crate::specs::Front::front_after))]
fn front_after(next: Option<St>) -> Front
    ensures { front_at result ≡ front_after next }
{
    let Some(s) = next else { return Front::Plain };
    match crate::fields::kind_of(s.key) {
        Some(Kind::Block) => Front::Before(Kind::Block, 2),
        Some(Kind::Seg) => Front::Before(Kind::Seg, 4),
        _ => Front::Plain,
    }
}

#[tactic(auto, unfolding(crate::specs::Front::in_word))]
fn in_word(next: Option<St>, b: u8, table: &mut [u8]) -> Stood
    ensures { stood (stood_at result) (words_of table.new) ≡ in_word (fed next (words_of table.old)) b }
{
    let next = crate::first::push(next, b, table);
    let front = if b == b'\t' {
        front_after(next)
    } else {
        Front::Word
    };
    Stood { front, next }
}

#[tactic(auto, unfolding(crate::specs::Front::in_plain))]
fn in_plain(next: Option<St>, b: u8, table: &mut [u8]) -> Stood
    ensures { stood (stood_at result) (words_of table.new) ≡ in_plain (fed next (words_of table.old)) b }
{
    let next = crate::first::push(next, b, table);
    let front = if b == b'\n' {
        Front::Word
    } else {
        Front::Plain
    };
    Stood { front, next }
}

// In a field before the written one: the tab that ends the last of them is held back. A line that ends here lacks its
// written field.
#[tactic(auto, unfolding(crate::specs::Front::before_of))]
fn before(key: Kind, left: u32, next: Option<St>, b: u8, table: &mut [u8]) -> Stood
    ensures { stood (stood_at result) (words_of table.new) ≡ before_of (number_of key) left (fed next (words_of table.old)) b }
{
    match b {
        b'\n' => Stood {
            front: Front::Before(key, left),
            next: None,
        },
        b'\t' if left < 2 => Stood {
            front: Front::Written(key, Num { value: 0, len: 0 }),
            next,
        },
        b'\t' => Stood {
            front: Front::Before(key, left - 1),
            next: crate::first::push(next, b, table),
        },
        _ => Stood {
            front: Front::Before(key, left),
            next: crate::first::push(next, b, table),
        },
    }
}

// In the written field, another byte than a line feed: a digit, or none.
#[tactic(auto, unfolding(crate::specs::Front::written_of))]
fn in_written(key: Kind, x: Num, next: Option<St>, b: u8) -> Stood
    ensures { stood_at result ≡ written_of (number_of key) x next b }
{
    match sheet_rules::digits::take_byte(Form::Number(4294967295), x, b) {
        Some(y) if b != b'\t' => Stood {
            front: Front::Written(key, y),
            next,
        },
        _ => Stood {
            front: Front::Written(key, x),
            next: None,
        },
    }
}

// The written field ends with its line.
#[tactic(auto, unfolding(crate::specs::Front::close_of))]
fn close_written(x: Num, next: Option<St>, table: &mut [u8]) -> Stood
    ensures { stood (stood_at result) (words_of table.new) ≡ close_of x (fed next (words_of table.old)) }
{
    let front = Front::Word;
    if !sheet_rules::digits::closed(Form::Number(4294967295), x) {
        return Stood { front, next: None };
    }
    let next = crate::first::push(next, b'\n', table);
    Stood { front, next }
}

// Keeps a first instruction or a set, where there is room.
#[tactic(auto, unfolding(crate::specs::Front::keep_of))]
fn keep(key: Kind, v: u64, kept: Kept, written: &mut [u8]) -> Kept
    ensures { keeping result (words_of written.new) ≡ keep_of (number_of key) v (keeping kept (words_of written.old)) }
{
    let Kept { firsts, sets } = kept;
    let block = matches!(key, Kind::Block);
    if block && firsts < 512 {
        crate::cells::put(written, firsts as usize, sheet_rules::forms::low(v));
        return Kept {
            firsts: firsts + 1,
            sets,
        };
    }
    if !block && sets < 1024 {
        crate::cells::put(written, 512 + sets as usize, sheet_rules::forms::low(v));
        return Kept {
            firsts,
            sets: sets + 1,
        };
    }
    kept
}

fn with_kept(s: Stood, kept: Kept) -> Reading
    ensures { result ≡ record { front = s.front; next = s.next; kept = kept } }
{
    let Stood { front, next } = s;
    Reading { front, next, kept }
}

// One more byte of the sheet. A match, since where the reader stands is data that goes from byte to byte: a function
// for the next byte may not be handed out.
#[tactic(auto, unfolding(crate::specs::Front::push_form))]
fn push(cur: Reading, b: u8, table: &mut [u8], written: &mut [u8]) -> Reading
    ensures { formed result (words_of table.new) (words_of written.new) ≡ push_form (formed cur (words_of table.old) (words_of written.old)) b }
{
    let Reading { front, next, kept } = cur;
    match front {
        Front::Opening(k) => with_kept(opening(k, next, b, table), kept),
        Front::First => Reading {
            front,
            next: crate::first::push(next, b, table),
            kept,
        },
        Front::Word => with_kept(in_word(next, b, table), kept),
        Front::Plain => with_kept(in_plain(next, b, table), kept),
        Front::Before(key, left) => with_kept(before(key, left, next, b, table), kept),
        Front::Written(key, x) if b == b'\n' => {
            let more = keep(key, x.value, kept, written);
            with_kept(close_written(x, next, table), more)
        }
        Front::Written(key, x) => with_kept(in_written(key, x, next, b), kept),
    }
}

// Whether the sheet is of the second form.
#[tactic(auto, unfolding(crate::specs::Front::second_of))]
pub fn is_second(cur: Reading) -> bool
    ensures { result ≡ second_of (front_at cur.front) }
{
    !matches!(cur.front, Front::Opening(_) | Front::First)
}

// Whether the sheet is of the first form for sure.
fn is_first(cur: Reading) -> bool
    ensures { result ≡ first_of (front_at cur.front) }
{
    matches!(cur.front, Front::First)
}

// Goes on over one more part of the sheet. What is of the first form for sure goes to its reader at once.
#[tactic(auto, unfolding(crate::specs::Front::run_form))]
pub fn feed(cur: Reading, part: &[u8], table: &mut [u8], written: &mut [u8]) -> Reading
    ensures { formed result (words_of table.new) (words_of written.new) ≡ run_form (formed cur (words_of table.old) (words_of written.old)) part.now }
{
    let mut at = cur;
    for (i, b) in part.iter().enumerate() {
        if is_first(at) {
            let next = crate::first::feed(at.next, &part[i..], table);
            return Reading { next, ..at };
        }
        at = push(at, *b, table, written);
    }
    at
}

// The end of the sheet: within a line there is none.
#[tactic(auto, unfolding(crate::specs::Front::finish_of))]
pub fn finish(cur: Reading) -> Result<(), SheetError>
    ensures { result ≡ finish_of (front_at cur.front) cur.next }
{
    match cur.front {
        Front::Opening(_) | Front::First | Front::Word => crate::first::finish(cur.next),
        Front::Plain | Front::Before(_, _) | Front::Written(_, _) => Err(SheetError::Malformed),
    }
}
