// coalescing.rs, function.rs: values, value groups, and the value sets of a group's members.
// A value row has three words: bank, leader, remat. A value group row has nine: the number of members and eight places for them.
#![tactic(auto)]

ghost use Rattle.std.specs.Prelude.{◌≡◌, ◌+◌, ◌≤◌, ◌<◌, length, get_or};
ghost use Rattle.words.specs.Words.{word_count, words_of};
ghost use Rattle.definition.specs.Types.{Job, val};
ghost use Rattle.definition.specs.RegInfo.{set_of};
ghost use Rattle.definition.specs.Admit.{same_sets, sets_of};
ghost use Rattle.values.specs.ValueRows.{remat_of, value_row, values_in, set_in, vgroup_row};
ghost use Rattle.words.specs.Rows.{row_words};

pub mod operands;

use definition::{RegBank, Remat, Value, ValueData, ValueSet};
use words::rows::{Rows, word_of};

// The remat choice of a number; one above 3 is no choice and gives Never.
// The number is a lent word and may be any. A `From` would have to stand beside Remat, with this same match.
#[tactic(auto, unfolding(crate::specs::ValueRows::remat_of))]
fn remat_of(w: u32) -> Remat
    ensures { result ≡ remat_of w }
{
    match w {
        1 => Remat::CheaperThanMove,
        2 => Remat::CheaperThanLoad,
        3 => Remat::Indirect,
        _ => Remat::Never,
    }
}

// The value whose row begins at word i.
// By its word, and no Rows: a row of any table, and a struct for one call would say less.
#[tactic(auto, unfolding(crate::specs::ValueRows::value_row))]
pub fn value_at(t: &[u8], i: usize) -> ValueData
    requires { i + 3 ≤ word_count t.now }
    ensures { result ≡ value_row (words_of t.now) i }
{
    ValueData {
        bank: RegBank(words::word_at(t, i)),
        leader: Value(words::word_at(t, i + 1)),
        remat: remat_of(words::word_at(t, i + 2)),
    }
}

// The set of value v: its leader's number. That of an unknown value is 0.
fn set_in(values: &Rows<3>, v: Value) -> ValueSet
    ensures { result ≡ set_in (values_in values.now) v }
{
    let k = v.0 as usize;
    if k < values.n {
        ValueSet(word_of(values, k, 1))
    } else {
        ValueSet(0)
    }
}

// The same, of the values of a job.
pub fn set_for_value(values: &Rows<3>, v: Value) -> ValueSet
    ensures { (job : Job) → job.values ≡ values_in values.now → result ≡ set_of job v }
{
    set_in(values, v)
}

// The number of members of the value group at word i.
pub fn group_len(t: &[u8], i: usize) -> usize
    requires { i < word_count t.now }
    ensures { result ≡ length (vgroup_row (words_of t.now) i) }
{
    words::word_at(t, i) as usize
}

// Member k of the value group at word i.
pub fn member_at(t: &[u8], i: usize, k: usize) -> Value
    requires { (i + 9 ≤ word_count t.now) × (length (vgroup_row (words_of t.now) i) ≤ 8) × (k < length (vgroup_row (words_of t.now) i)) }
    ensures { result ≡ get_or (vgroup_row (words_of t.now) i) k (val 0) }
{
    Value(words::word_at(t, i + 1 + k))
}

// The value sets of the members of the value group at word i of the same slice; the reserved value fills the rest.
pub fn value_sets(values: &Rows<3>, i: usize) -> [ValueSet; 8]
    requires { (i + 9 ≤ word_count values.now.words.now) × (length (vgroup_row (row_words values.now) i) ≤ 8) }
    ensures { (job : Job) → job.values ≡ values_in values.now → result ≡ sets_of job (vgroup_row (row_words values.now) i) }
{
    let mut out = [ValueSet(4294967295); 8];
    for k in 0..group_len(values.words, i) {
        out[k] = set_in(values, member_at(values.words, i, k));
    }
    out
}

// Whether two groups have the same value sets at every place: `==`, under the definition's word for it.
pub fn same_sets(a: [ValueSet; 8], b: [ValueSet; 8]) -> bool
    ensures { result ≡ same_sets a b }
{
    a == b
}
