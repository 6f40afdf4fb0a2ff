// Fixed register hints by their keys (hints.rs), in a table of rows of 3 words: value, instruction, 1 for incoming or 0 for outgoing.
#![tactic(auto)]

ghost use Rattle.std.specs.Prelude.{◌≡◌, ◌+◌, ◌*◌, ◌≤◌};
ghost use Rattle.words.specs.Words.{word_count, words_of};
ghost use Rattle.definition.specs.Hints.{as_key, hinted};
ghost use Rattle.hints.specs.Hints.{hint_at, key_below, first_hint};
ghost use Rattle.hints.specs.Sorted.{hints_in};

pub mod cuts;
mod sorted;

use definition::{Hint, Inst, Value};
pub use sorted::Hints;
use words::rows::row_at;
use words::word_at;

// The hint whose row begins at word i; it is incoming exactly if its word is 1.
// By its word, and no Rows: a row of any table, and a struct for one call would say less.
#[tactic(auto, unfolding(crate::specs::Hints::hint_at))]
pub fn hint_at(t: &[u8], i: usize) -> Hint
    requires { i + 3 ≤ word_count t.now }
    ensures { result ≡ hint_at (words_of t.now) i }
{
    let v = word_at(t, i);
    let p = word_at(t, i + 1);
    let side = word_at(t, i + 2);
    Hint {
        value: Value(v),
        inst: Inst(p),
        incoming: side == 1,
    }
}

// Twice an instruction's number: the key of what is outgoing there.
fn outgoing(p: Inst) -> u64
    ensures { (result ≡ 2 * p.0) × (result ≤ 8589934590) }
{
    2 * u64::from(p.0)
}

// A hint's key within its value.
pub fn key(h: Hint) -> u64
    ensures { result ≡ as_key h }
{
    outgoing(h.inst) + u64::from(h.incoming)
}

// Whether a hint is sorted before key k of value v.
#[tactic(auto, unfolding(crate::specs::Hints::key_below))]
fn key_below(h: Hint, v: Value, k: u64) -> bool
    ensures { result ≡ key_below v k h }
{
    h.value < v || (h.value == v && key(h) < k)
}

// How many of the hints are before key k of value v.
fn first_hint(hints: &Hints, v: Value, k: u64) -> usize
    ensures { (result ≡ first_hint v k (hints_in hints.now)) × (result ≤ hints.now.rows.n) }
{
    // `partition_point` needs a slice of rows, and the table is words in a lent byte slice.
    let rows = &hints.rows;
    let mut low: usize = 0;
    let mut high = rows.n;
    while low < high {
        let mid = low + (high - low) / 2;
        if key_below(hint_at(rows.words, row_at(rows, mid)), v, k) {
            low = mid + 1;
        } else {
            high = mid;
        }
    }
    low
}

// Whether value v has a hint from incoming at instruction a to outgoing at instruction b.
pub fn hint_between(hints: &Hints, v: Value, a: Inst, b: Inst) -> bool
    ensures { result ≡ hinted (hints_in hints.now) v a.0 b.0 }
{
    let rows = &hints.rows;
    let i = first_hint(hints, v, outgoing(a) + 1);
    if rows.n <= i {
        return false;
    }
    let h = hint_at(rows.words, row_at(rows, i));
    h.value == v && key(h) <= outgoing(b)
}
