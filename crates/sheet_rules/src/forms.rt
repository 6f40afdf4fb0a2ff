// The rules of the job sheet's records as tables of numbers: the forms of their fields, their words, their order.

ghost use Rattle.std.specs.Prelude.{◌≡◌, ◌+◌, ◌-◌, ◌*◌, ◌<◌};
ghost use Rattle.sheet_rules.specs.Kinds.{key_number};
ghost use Rattle.sheet_rules.specs.Rules.{form_row, code_at, form_of, form_at, more_after, key_of, follows_of, low_of, kind_after};

use crate::digits::Form;

// The kinds of records, in the order of a sheet. Tables have a line for each, by its number.
#[derive(Clone, Copy, PartialEq, Eq)]
pub enum Kind {
    Opt,
    Bank,
    Class,
    Reg,
    Block,
    Value,
    Vgroup,
    Operand,
    Hint,
    Seg,
    Use,
    End,
}

// A line for each record, then one for each kind of use. An entry is the form of a field: 0 none, 1 number, 2 mask, 3 word, 4 up to 1, 5 up to 3, 6 up to 9, 7 up to 15.
// Codes and no [Form; 242], as the definition has them: `Form::Number(9)` for a 6 would make it five times as long.
const FORMS: [u8; 242] = [
    3, 1, 2, 2, 2, 0, 0, 0, 0, 0, 0, 3, 1, 0, 0, 0, 0, 0, 0, 0, 0, 0, 3, 2, 2, 1, 4, 0, 0, 0, 0, 0,
    0, 3, 4, 0, 0, 0, 0, 0, 0, 0, 0, 0, 3, 1, 2, 0, 0, 0, 0, 0, 0, 0, 0, 3, 1, 1, 5, 0, 0, 0, 0, 0,
    0, 0, 3, 1, 1, 1, 1, 1, 1, 1, 1, 1, 1, 3, 1, 1, 1, 1, 0, 0, 0, 0, 0, 0, 3, 1, 1, 4, 0, 0, 0, 0,
    0, 0, 0, 3, 1, 1, 1, 7, 0, 0, 0, 0, 0, 0, 3, 6, 1, 0, 0, 0, 0, 0, 0, 0, 0, 3, 0, 0, 0, 0, 0, 0,
    0, 0, 0, 0, 3, 6, 1, 1, 0, 0, 0, 0, 0, 0, 0, 3, 6, 1, 1, 0, 0, 0, 0, 0, 0, 0, 3, 6, 1, 1, 1, 1,
    1, 0, 0, 0, 0, 3, 6, 1, 0, 0, 0, 0, 0, 0, 0, 0, 3, 6, 1, 1, 1, 0, 0, 0, 0, 0, 0, 3, 6, 1, 1, 1,
    0, 0, 0, 0, 0, 0, 3, 6, 1, 1, 1, 1, 0, 0, 0, 0, 0, 3, 6, 1, 1, 1, 1, 0, 0, 0, 0, 0, 3, 6, 1, 1,
    0, 0, 0, 0, 0, 0, 0, 3, 6, 1, 0, 0, 0, 0, 0, 0, 0, 0,
];

// A line for each record before, the last for none: 1 for each record that may follow.
// Numbers and no bools, as the definition has them: `false` and `true` would make it twice as long.
const FOLLOWS: [u8; 156] = [
    0, 1, 0, 0, 0, 0, 0, 0, 0, 0, 0, 0, 0, 1, 1, 0, 0, 0, 0, 0, 0, 0, 0, 0, 0, 0, 1, 1, 1, 0, 0, 0,
    0, 0, 0, 0, 0, 0, 0, 1, 1, 0, 0, 0, 0, 0, 0, 0, 0, 0, 0, 0, 1, 1, 1, 1, 1, 1, 0, 1, 0, 0, 0, 0,
    0, 1, 1, 1, 1, 1, 0, 1, 0, 0, 0, 0, 0, 0, 1, 1, 1, 1, 0, 1, 0, 0, 0, 0, 0, 0, 0, 1, 1, 1, 0, 1,
    0, 0, 0, 0, 0, 0, 0, 0, 1, 1, 0, 1, 0, 0, 0, 0, 0, 0, 0, 0, 0, 1, 1, 1, 0, 0, 0, 0, 0, 0, 0, 0,
    0, 1, 1, 1, 0, 0, 0, 0, 0, 0, 0, 0, 0, 0, 0, 0, 1, 0, 0, 0, 0, 0, 0, 0, 0, 0, 0, 0,
];

// The line of FORMS: a use's own, by its kind, from its third field on; that of end for none.
// The kind of a use is the number that was read, 10 and more too: an Option of an enum would first be made of it.
#[tactic(auto, unfolding(crate::specs::Rules::form_row))]
fn form_row(key: Option<Kind>, kind: u32, n: u32) -> usize
    ensures { result ≡ form_row (key_number key) kind n }
{
    match key {
        Some(Kind::Use) if 3 <= n && kind < 10 => 12 + kind as usize,
        Some(Kind::Use) if 3 <= n => 11,
        Some(k) => k as usize,
        None => 11,
    }
}

#[tactic(auto, unfolding(crate::specs::Rules::code_at, crate::specs::Rules::forms), using(crate::proofs::FormBounds::form_row_lt))]
fn code_at(key: Option<Kind>, kind: u32, n: u32) -> u8
    ensures { result ≡ code_at (key_number key) kind n }
{
    if n < 11 {
        FORMS[form_row(key, kind, n) * 11 + n as usize]
    } else {
        0
    }
}

#[tactic(auto, unfolding(crate::specs::Rules::form_of))]
fn form_of(code: u8) -> Form
    ensures { result ≡ form_of code }
{
    match code {
        1 => Form::Number(4294967295),
        2 => Form::Mask,
        3 => Form::Word,
        4 => Form::Number(1),
        5 => Form::Number(3),
        6 => Form::Number(9),
        7 => Form::Number(15),
        _ => Form::Nothing,
    }
}

// The form of field n of a record. Field 0 is the word that names its kind, so then the kind is none yet.
#[tactic(auto, unfolding(crate::specs::Rules::form_at))]
pub fn form_at(key: Option<Kind>, kind: u32, n: u32) -> Form
    ensures { result ≡ form_at (key_number key) kind n }
{
    form_of(code_at(key, kind, n))
}

// Whether a record wants a field n. A vgroup wants none.
#[tactic(auto, unfolding(crate::specs::Rules::more_after))]
pub fn more_after(key: Option<Kind>, kind: u32, n: u32) -> bool
    ensures { result ≡ more_after (key_number key) kind n }
{
    !matches!(key, Some(Kind::Vgroup)) && code_at(key, kind, n) != 0
}

// The kind of record that a word names.
#[tactic(auto, unfolding(crate::specs::Rules::key_of))]
pub fn key_of(word: u64) -> Option<Kind>
    ensures { key_number result ≡ key_of word }
{
    Some(match word {
        7303284 => Kind::Opt,
        1650552427 => Kind::Bank,
        427020088179 => Kind::Class,
        7497063 => Kind::Reg,
        422726034283 => Kind::Block,
        508440638821 => Kind::Value,
        130186673616240 => Kind::Vgroup,
        31367303427878500 => Kind::Operand,
        1751740020 => Kind::Hint,
        7562599 => Kind::Seg,
        7697253 => Kind::Use,
        6647396 => Kind::End,
        _ => return None,
    })
}

// Whether a record may follow another; none stands before the first, and what is none follows nothing.
#[tactic(auto, unfolding(crate::specs::Rules::follows_of, crate::specs::Rules::order))]
pub fn follows(prev: Option<Kind>, key: Option<Kind>) -> bool
    ensures { result ≡ follows_of (key_number prev) (key_number key) }
{
    let Some(key) = key else {
        return false;
    };
    let before = match prev {
        Some(k) => k as usize,
        None => 12,
    };
    FOLLOWS[before * 12 + key as usize] != 0
}

// A number as a word; 0 for one that is too large. No Option: each caller would put the same 0 in place of none.
#[tactic(auto, unfolding(crate::specs::Rules::low_of))]
pub fn low(v: u64) -> u32
    ensures { result ≡ low_of v }
{
    u32::try_from(v).unwrap_or(0)
}

// A record's first field is kept.
#[tactic(auto, unfolding(crate::specs::Rules::kind_after))]
pub fn kind_after(n: u32, kind: u32, value: u64) -> u32
    ensures { result ≡ kind_after n kind value }
{
    if n == 1 { low(value) } else { kind }
}
