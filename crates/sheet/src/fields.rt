// The reader of job sheets within a line: bytes, the end of a field, the end of a record. The state goes from call to call by value; the rows go into one lent table.

ghost use Rattle.std.specs.Prelude.{◌≡◌, ◌+◌, ◌-◌, ◌<◌, min};
ghost use Rattle.words.specs.Words.{words_of};
ghost use Rattle.sheet_rules.specs.Kinds.{key_number, number_of};
ghost use Rattle.sheet_rules.specs.Rules.{follows_of};
ghost use Rattle.sheet.specs.Fields.{fed, begin_of, byte_of, start_of, next_of, end_field, close_record};

use sheet_rules::digits::Num;
use sheet_rules::forms::Kind;

// Where the reader stands: the record before, the record of this line (12: its word is not read yet), its first field, how many fields
// it has so far, where its row goes, whether a table was full; and what was read of the field. A step gives None where the sheet is none.
// It is copied with every byte, so the small fields stand together.
// `prev` and `key` are numbers, and may be any: 0 to 11 name a kind, 12 and more none (`kind_of`); but what may follow none, may not follow more (`follows`).
// `kind` is a number: the first field of any record as it was read, and the kind of a use only where the record is one.
#[derive(Clone, Copy)]
pub struct St {
    pub prev: u32,
    pub key: u32,
    pub kind: u32,
    pub n: u32,
    pub over: bool,
    pub row: usize,
    pub value: u64,
    pub len: u64,
}

// The kind of record that a number stands for; none for 12 and more.
pub fn kind_of(number: u32) -> Option<Kind>
    ensures { key_number result ≡ min number 12 }
{
    Some(match number {
        0 => Kind::Opt,
        1 => Kind::Bank,
        2 => Kind::Class,
        3 => Kind::Reg,
        4 => Kind::Block,
        5 => Kind::Value,
        6 => Kind::Vgroup,
        7 => Kind::Operand,
        8 => Kind::Hint,
        9 => Kind::Seg,
        10 => Kind::Use,
        11 => Kind::End,
        _ => return None,
    })
}

// The start of a line.
#[tactic(auto, unfolding(crate::specs::Fields::begin_of))]
pub fn begin(prev: u32, over: bool) -> St
    ensures { result ≡ begin_of prev over }
{
    St {
        prev,
        key: 12,
        kind: 0,
        n: 0,
        over,
        row: 0,
        value: 0,
        len: 0,
    }
}

// A byte of a field.
#[tactic(auto, unfolding(crate::specs::Fields::byte_of), using(crate::proofs::Numbers::form_shown))]
pub fn byte(s: St, b: u8) -> Option<St>
    ensures { result ≡ byte_of s b }
{
    let form = sheet_rules::forms::form_at(kind_of(s.key), s.kind, s.n);
    let so_far = Num {
        value: s.value,
        len: s.len,
    };
    let Num { value, len } = sheet_rules::digits::take_byte(form, so_far, b)?;
    Some(St { value, len, ..s })
}

// Whether a record may follow the one before; 12 stands before the first, and nothing follows more.
#[tactic(auto, unfolding(sheet_rules::specs::Rules::follows_of))]
fn follows(prev: u32, key: Kind) -> bool
    ensures { result ≡ follows_of prev (number_of key) }
{
    prev <= 12 && sheet_rules::forms::follows(kind_of(prev), Some(key))
}

// The word of a record was read.
#[tactic(auto, unfolding(crate::specs::Fields::start_of, crate::specs::Fields::begin_of, sheet_rules::specs::Rules::follows_of))]
fn start(s: St, out: &[u8]) -> Option<St>
    ensures { result ≡ start_of s (words_of out.now) }
{
    let key = sheet_rules::forms::key_of(s.value)?;
    if !follows(s.prev, key) {
        return None;
    }
    let c = crate::cells::get(out, sheet_rules::places::count_at(Some(key)));
    let row = sheet_rules::places::row_at(Some(key), c);
    Some(St {
        key: key as u32,
        n: 1,
        row,
        ..begin(s.prev, s.over)
    })
}

#[tactic(auto, unfolding(crate::specs::Fields::next_of))]
fn next_field(s: St) -> St
    ensures { result ≡ next_of s }
{
    St {
        kind: sheet_rules::forms::kind_after(s.n, s.kind, s.value),
        n: sheet_rules::places::up(s.n),
        value: 0,
        len: 0,
        ..s
    }
}

// A field ends.
#[tactic(auto, unfolding(crate::specs::Fields::end_field), using(crate::proofs::Numbers::form_shown, crate::proofs::Numbers::place_shown))]
pub fn end_field(s: St, out: &mut [u8]) -> Option<St>
    ensures { fed result (words_of out.new) ≡ end_field s (words_of out.old) }
{
    let key = kind_of(s.key);
    let form = sheet_rules::forms::form_at(key, s.kind, s.n);
    let so_far = Num {
        value: s.value,
        len: s.len,
    };
    if !sheet_rules::digits::closed(form, so_far) {
        return None;
    }
    if s.n == 0 {
        return start(s, out);
    }
    crate::cells::put(
        out,
        sheet_rules::places::place(key, s.row, s.n),
        sheet_rules::forms::low(s.value),
    );
    Some(next_field(s))
}

// A record ends: its last word, and its count, unless its table is full.
#[tactic(auto, unfolding(crate::specs::Fields::close_record), using(crate::proofs::Numbers::more_shown, crate::proofs::Numbers::limit_shown, crate::proofs::Numbers::count_shown, crate::proofs::Numbers::tail_at_shown, crate::proofs::Numbers::tail_shown))]
pub fn close_record(t: St, out: &mut [u8]) -> Option<St>
    ensures { fed result (words_of out.new) ≡ close_record t (words_of out.old) }
{
    let key = kind_of(t.key);
    if sheet_rules::forms::more_after(key, t.kind, t.n) {
        return None;
    }
    let a = sheet_rules::places::count_at(key);
    let c = crate::cells::get(out, a);
    let uses = crate::cells::get(out, 9);
    crate::cells::put(
        out,
        sheet_rules::places::tail_at(key, t.row),
        sheet_rules::places::tail(key, t.n, uses),
    );
    if sheet_rules::places::limit(key) <= c {
        return Some(begin(t.key, true));
    }
    crate::cells::put(out, a, c + 1);
    Some(begin(t.key, t.over))
}
