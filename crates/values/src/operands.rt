// function.rs's inst_operands, HashMap's keys: the operand at an instruction and slot, found through an index by instruction.
// An operand row has four words: instruction, slot, value group, class.

ghost use Rattle.std.specs.Prelude.{◌≡◌, ℕ, ◌+◌, ◌*◌, ◌≤◌, ◌<◌};
ghost use Rattle.words.specs.Words.{word_count, words_of};
ghost use Rattle.definition.specs.Entry.{apart, same_place};
ghost use Rattle.values.specs.OperandRows.{operand_row, last_place, taken_before};
ghost use Rattle.values.specs.Chains.{last_before, chains_of, operands_of, linked, Fits, Under, Chained};
ghost use Rattle.values.specs.InIndex.{operands_in};

mod index;

use definition::{Inst, Operand, RegClass, ValueGroup};
pub use index::Index;

// Where the operands lie, `count` rows from word `at` of a job on, and their index: a word for each of `insts` instructions from word `heads` of the work
// slice on, and one for each operand from word `nexts` on. A word is 0, or an operand's number plus 1.
#[derive(Clone, Copy)]
pub struct Chains {
    pub at: usize,
    pub count: usize,
    pub heads: usize,
    pub nexts: usize,
    pub insts: usize,
}

// The operand whose row begins at word i.
#[tactic(auto, unfolding(crate::specs::OperandRows::operand_row))]
pub fn operand_at(t: &[u8], i: usize) -> Operand
    requires { i + 4 ≤ word_count t.now }
    ensures { result ≡ operand_row (words_of t.now) i }
{
    Operand {
        inst: Inst(words::word_at(t, i)),
        slot: words::word_at(t, i + 1),
        vgroup: ValueGroup(words::word_at(t, i + 2)),
        class: RegClass(words::word_at(t, i + 3)),
    }
}

// Makes operand k, at instruction i, the last of its instruction.
fn link(work: &mut [u8], c: Chains, k: usize, i: usize)
    requires { (k < c.count) × (i < c.insts) × (c.heads + c.insts ≤ c.nexts) × (c.nexts + c.count ≤ word_count work.old) × (c.count < 4294967295) }
    ensures { words_of work.new ≡ linked (words_of work.old) c k i }
{
    let head = c.heads + i;
    let before = words::word_at(work, head);
    words::put_word(work, c.nexts + k, before);
    words::put_word(work, head, k as u32 + 1);
}

// Builds the index of the operands. Before it the words are no index: so it takes the slices, and who reads makes the
// struct.
pub fn put_chains(t: &[u8], work: &mut [u8], c: Chains)
    requires { Fits (word_count t.now) (word_count work.old) c × Under c.insts (operands_of (words_of t.now) c) }
    ensures work_after { words_of work.new ≡ chains_of (words_of work.old) c (operands_of (words_of t.now) c) c.count }
    ensures chained { Chained (words_of work.new) c (operands_of (words_of t.now) c) }
{
    words::span::clear_words(work, c.heads, c.insts);
    for k in 0..c.count {
        let i = words::word_at(t, c.at + k * 4) as usize;
        link(work, c, k, i);
    }
}

// The last operand with the slot from link k on, back through its instruction's operands.
fn find_from(index: &Index, k: usize, slot: u32) -> Option<usize>
    requires { k ≤ index.now.chains.count }
    ensures { (i : ℕ) → last_before (operands_in index.now) k i ≡ k
        → result ≡ last_place (operands_in index.now) k i slot }
{
    let c = &index.chains;
    // The links lead the way: nothing is counted.
    let mut link = k;
    while 0 < link {
        let o = link - 1;
        if words::word_at(index.job, c.at + o * 4 + 1) == slot {
            return Some(o);
        }
        link = words::word_at(index.work, c.nexts + o) as usize;
    }
    None
}

// The operand at an instruction and slot; where there are several, the last.
pub fn find_operand(index: &Index, inst: Inst, slot: u32) -> Option<usize>
    requires { inst.0 < index.now.chains.insts }
    ensures { result ≡ last_place (operands_in index.now) index.now.chains.count inst.0 slot }
{
    let head = words::word_at(index.work, index.chains.heads + inst.0 as usize) as usize;
    find_from(index, head, slot)
}

// Whether operand k's place is that of an operand before it.
fn is_again(index: &Index, k: usize) -> bool
    requires { k < index.now.chains.count }
    ensures { result ≡ taken_before (operands_in index.now) k }
{
    let c = &index.chains;
    let slot = words::word_at(index.job, c.at + k * 4 + 1);
    let before = words::word_at(index.work, c.nexts + k) as usize;
    find_from(index, before, slot).is_some()
}

// Whether no two operands are at one place.
pub fn no_twice(index: &Index) -> bool
    ensures { result ≡ apart same_place (operands_in index.now) }
{
    (0..index.chains.count).all(|k| !is_again(index, k))
}
