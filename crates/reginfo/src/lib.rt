// reginfo.rs: the records of the register book, and the lowest class that two classes have in common.
// A class row has four words: subclass mask, cost, group size, spillslots. A bank row has one, the top class; a reg row one, memory.
#![tactic(auto)]

ghost use Rattle.std.specs.Prelude.{◌≡◌, ◌+◌, ◌≤◌, ◌<◌, get_or};
ghost use Rattle.std.specs.Int.Bits.{bit_and};
ghost use Rattle.words.specs.Words.{word_count, words_of};
ghost use Rattle.definition.specs.Types.{Job};
ghost use Rattle.definition.specs.RegInfo.{lowest, common_subclass};
ghost use Rattle.reginfo.specs.Rows.{found_of, class_row, bank_row, memory_row, classes_in, mask_in};

use definition::{ClassData, RegClass};
use words::rows::{Rows, row_at};

// The class whose row begins at word i.
// By its word, and no Rows: a row of any table, and a struct for one call would say less.
#[tactic(auto, unfolding(crate::specs::Rows::class_row))]
pub fn class_at(t: &[u8], i: usize) -> ClassData
    requires { (i + 4 ≤ word_count t.now) × (get_or (words_of t.now) (i + 1) 0 ≤ 0x7f80_0000) }
    ensures { result ≡ class_row (words_of t.now) i }
{
    ClassData {
        mask: words::word_at(t, i),
        cost: weights::floats::float_of(words::word_at(t, i + 1)),
        size: words::word_at(t, i + 2),
        spillslots: words::word_at(t, i + 3) == 1,
    }
}

// The top class of the bank at word i.
#[tactic(auto, unfolding(crate::specs::Rows::bank_row))]
pub fn bank_at(t: &[u8], i: usize) -> RegClass
    requires { i < word_count t.now }
    ensures { result ≡ bank_row (words_of t.now) i }
{
    RegClass(words::word_at(t, i))
}

// Whether the register at word i is a memory register.
#[tactic(auto, unfolding(crate::specs::Rows::memory_row))]
pub fn is_memory(t: &[u8], i: usize) -> bool
    requires { i < word_count t.now }
    ensures { result ≡ memory_row (words_of t.now) i }
{
    words::word_at(t, i) == 1
}

// The lowest-numbered class in both masks.
pub fn lowest_common(a: u32, b: u32) -> Option<RegClass>
    ensures { result ≡ found_of (lowest (bit_and a b)) }
{
    let both = a & b;
    if both == 0 {
        None
    } else {
        Some(RegClass(both.trailing_zeros()))
    }
}

// The mask of class c; that of an unknown class is empty. Not one with the defaults of other tables
// (vreg_weight::costs::class_data, set_runs, scans::cost_bits): a line each, and the default is another value.
fn mask_of(classes: &Rows<4>, c: RegClass) -> u32
    ensures { result ≡ mask_in (classes_in classes.now) c }
{
    let k = c.0 as usize;
    if k < classes.n {
        words::word_at(classes.words, row_at(classes, k))
    } else {
        0
    }
}

// The common subclass of classes a and b.
pub fn common_subclass(classes: &Rows<4>, a: RegClass, b: RegClass) -> Option<RegClass>
    ensures { (job : Job) → job.classes ≡ classes_in classes.now → result ≡ found_of (common_subclass job a b) }
{
    lowest_common(mask_of(classes, a), mask_of(classes, b))
}
