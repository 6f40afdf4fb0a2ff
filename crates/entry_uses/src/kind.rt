// Entry test 7, of one use's kind and fields. The words of its row are tested as they stand, since a field beyond its
// UseKind type is to be seen.

ghost use Rattle.std.specs.Prelude.{◌≡◌, ◌+◌, ◌*◌, ◌≤◌, ◌<◌, get_or};
ghost use Rattle.words.specs.Words.{word_count};
ghost use Rattle.job.specs.JobWords.{words_in};
ghost use Rattle.definition.specs.Types.{cls};
ghost use Rattle.definition.specs.Entry.{group_use_ok, kind_ok};
ghost use Rattle.uses.specs.Rows.{raw_row};
ghost use Rattle.values.specs.OperandRows.{operand_row, fits_use};
ghost use Rattle.job.specs.Job.{raw_in};
ghost use Rattle.entry_uses.specs.KindTests.{class_use_ok, tied_use_ok};

mod indexed;

use definition::{Inst, RegClass, Value};
pub use indexed::Indexed;
use values::operands::Index;

// Whether a slot fits its type and a class is one of n.
#[tactic(auto, unfolding(crate::specs::KindTests::class_use_ok))]
fn class_use_ok(n: usize, slot: u32, class: u32) -> bool
    ensures { result ≡ class_use_ok n slot class }
{
    slot < 65536 && (class as usize) < n
}

// Whether two slots and a group index fit their types and a class is one of n.
#[tactic(auto, unfolding(crate::specs::KindTests::tied_use_ok))]
fn tied_use_ok(n: usize, slot: u32, def: u32, class: u32, index: u32) -> bool
    ensures { result ≡ tied_use_ok n slot def class index }
{
    def < 65536 && index < 256 && class_use_ok(n, slot, class)
}

// Whether operand k is of the class, and its value group has value v at the index.
fn operand_fits(indexed: &Indexed, k: usize, v: Value, class: u32, index: u32) -> bool
    requires { k < indexed.now.job.lay.operands.n }
    ensures { result ≡ fits_use (raw_in indexed.now.job) v (cls class) index
        (operand_row (words_in indexed.now.job) (indexed.now.job.lay.operands.at + k * 4)) }
{
    let job = &indexed.job;
    let lay = &job.lay;
    let o = values::operands::operand_at(job.bytes, lay.operands.at + k * 4);
    if o.class != RegClass(class) {
        return false;
    }
    let group = lay.vgroups.at + o.vgroup.0 as usize * 9;
    if values::group_len(job.bytes, group) <= index as usize {
        return false;
    }
    values::member_at(job.bytes, group, index as usize) == v
}

// Whether a group use of value v at instruction p has its operand, with this class, and v at its index.
fn group_use_ok(indexed: &Indexed, v: Value, p: Inst, slot: u32, class: u32, index: u32) -> bool
    requires { p.0 < indexed.now.chains.insts }
    ensures { result ≡ group_use_ok (raw_in indexed.now.job) v p slot (cls class) index }
{
    let links = Index {
        job: indexed.job.bytes,
        work: indexed.work,
        chains: indexed.chains,
    };
    match values::operands::find_operand(&links, p, slot) {
        Some(k) => operand_fits(indexed, k, v, class, index),
        None => false,
    }
}

// Whether the kind and fields of the use at word i, of value v, are within the job. A conflict is no kind for a job.
// The kind is matched as the word that the table has: a UseKind would first be made of it, by a match as long as this.
pub fn kind_ok(indexed: &Indexed, v: Value, i: usize) -> bool
    requires { (i + 6 ≤ word_count indexed.now.job.bytes.now)
        × (get_or (words_in indexed.now.job) (i + 1) 0 < indexed.now.chains.insts) }
    ensures { result ≡ kind_ok (raw_in indexed.now.job) v (raw_row (words_in indexed.now.job) i).pos
        (raw_row (words_in indexed.now.job) i).kind }
{
    let job = &indexed.job;
    let lay = &job.lay;
    let p = Inst(words::word_at(job.bytes, i + 1));
    let a = words::word_at(job.bytes, i + 2);
    let b = words::word_at(job.bytes, i + 3);
    let x = words::word_at(job.bytes, i + 4);
    let d = words::word_at(job.bytes, i + 5);
    let regs = lay.regs.n;
    let classes = lay.classes.n;
    match words::word_at(job.bytes, i) {
        0 | 1 => (a as usize) < regs,
        2 => tied_use_ok(classes, a, b, x, d),
        4 | 5 => class_use_ok(classes, a, b),
        6 | 7 => group_use_ok(indexed, v, p, a, b, x),
        8 | 9 => true,
        _ => false,
    }
}
