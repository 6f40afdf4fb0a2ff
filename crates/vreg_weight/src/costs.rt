// What a use costs and how often its block runs, read off a job's tables and the table of block starts.

ghost use Rattle.std.specs.Prelude.{◌≡◌, false, List, ◌+◌, ◌*◌, ◌≤◌, ◌<◌, T, get_or};
ghost use Rattle.std.specs.Float.{binary32};
ghost use Rattle.std.specs.Float.Ieee.{of_bits};
ghost use Rattle.job.specs.JobWords.{words_in};
ghost use Rattle.definition.specs.declared.BlockData.{BlockData};
ghost use Rattle.definition.specs.RegInfo.{class_at, value_at};
ghost use Rattle.definition.specs.Uses.{cost_of};
ghost use Rattle.definition.specs.Entry.{insts_of, small};
ghost use Rattle.function.specs.Blocks.{block_of};
ghost use Rattle.function.specs.Table.{Encodes};
ghost use Rattle.function.specs.Table as table;
ghost use Rattle.job.specs.Job.{job_in};
ghost use Rattle.vreg_weight.specs.Book.{SmallBook};

use definition::{Block, ClassData, Inst, PhysReg, RegClass, Remat, UseKind, Value};
use function::starts::BlockStarts;
use job::Job;
use weights::{Cost, Plain, fixed_cost};

// Class c; an unknown class costs nothing. That its cost is small stays a clause: `ClassData` is the definition's type,
// whose cost is a number as a table has it. That the book is small is one too: a struct with that fact would be made at four
// calls, each copying the job.
pub fn class_data(job: &Job, c: RegClass) -> ClassData
    requires { SmallBook (words_in job.now) job.now.lay }
    ensures { (result ≡ class_at (job_in job.now) c) × T (small result.cost) }
{
    let lay = &job.lay;
    let k = c.0 as usize;
    let n = lay.classes.n;
    let at = lay.classes.at;
    if k < n {
        return reginfo::class_at(job.bytes, at + k * 4);
    }
    ClassData {
        mask: 0,
        cost: 0.0,
        size: 0,
        spillslots: false,
    }
}

// Whether register reg is a memory register.
pub fn in_memory(job: &Job, reg: PhysReg) -> bool
    ensures { result ≡ get_or (job_in job.now).memory reg.0 false }
{
    let lay = &job.lay;
    let k = reg.0 as usize;
    let n = lay.regs.n;
    let at = lay.regs.at;
    if k < n {
        return reginfo::is_memory(job.bytes, at + k);
    }
    false
}

// The remat choice of value v.
pub fn remat_at(job: &Job, v: Value) -> Remat
    ensures { result ≡ (value_at (job_in job.now) v).remat }
{
    let lay = &job.lay;
    let k = v.0 as usize;
    let n = lay.values.n;
    let at = lay.values.at;
    if k < n {
        let d = values::value_at(job.bytes, at + k * 3);
        return d.remat;
    }
    Remat::Never
}

// The cost of a class use.
fn class_cost(job: &Job, c: RegClass) -> Cost
    requires { SmallBook (words_in job.now) job.now.lay }
    ensures { result.value ≡ (class_at (job_in job.now) c).cost }
{
    let d = class_data(job, c);
    Cost { value: d.cost }
}

// The cost of a use, `spill_cost` in uses.rs: the kinds in the order of the enum `UseKind`, which is not that of
// `spill_cost`. Quoted words are uses.rs's; its `SPILL_RELOAD_COST` is 1.0 and its `MOVE_COST` 0.5.
pub fn use_cost(job: &Job, kind: UseKind) -> Cost
    requires { SmallBook (words_in job.now) job.now.lay }
    ensures { result.value ≡ cost_of (job_in job.now) kind }
{
    match kind {
        // "just pay the cost of the spill/reload, except if reg represents a memory location"
        UseKind::FixedDef { reg } | UseKind::FixedUse { reg } => fixed_cost(in_memory(job, reg)),
        // "a move from one vreg to another": `SPILL_RELOAD_COST - MOVE_COST`
        UseKind::TiedUse { .. } | UseKind::ConstraintConflict => Cost { value: 0.5 },
        // "Some instructions can directly accept stack operands": "the class spill cost"
        UseKind::ClassUse { class, .. }
        | UseKind::ClassDef { class, .. }
        | UseKind::GroupClassUse { class, .. }
        | UseKind::GroupClassDef { class, .. } => class_cost(job, class),
        // "Blockparams don't care about being in a spill slot or in a register": nothing
        UseKind::BlockparamIn { .. } | UseKind::BlockparamOut => Cost { value: 0.0 },
    }
}

// The block that holds an instruction: b if it does, else by search.
pub fn block_near(t: &BlockStarts, b: Block, inst: Inst) -> Block
    requires { b.0 < t.now.n }
    ensures { (result.0 < t.now.n)
        × ((bs : List BlockData) → Encodes t.now bs → inst.0 < insts_of bs → result.0 ≡ block_of bs inst.0) }
{
    let from = function::starts::start_at(t, b);
    if from <= inst && inst < function::starts::start_at(t, Block(b.0 + 1)) {
        b
    } else {
        function::starts::block_of(t, inst)
    }
}

// The frequency of block b.
pub fn frequency_of(t: &BlockStarts, b: Block) -> Plain
    requires { (b.0 ≤ t.now.n) × (get_or (table.words_in t.now) (t.now.at + b.0 * 2 + 1) 0 < 0x7f80_0000) }
    ensures { result.value ≡ of_bits binary32 (get_or (table.words_in t.now) (t.now.at + b.0 * 2 + 1) 0) }
{
    let value = weights::floats::float_of(function::starts::bits_at(t, b));
    Plain { value }
}
