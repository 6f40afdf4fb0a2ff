// Entry test 4: blocks, leaders, value groups and operands of a job. It leaves the index of the operands in the work
// slice.
#![tactic(auto)]

ghost use Rattle.std.specs.Prelude.{◌≡◌, true, ◌+◌, ◌*◌, ◌≤◌, ◌<◌, length};
ghost use Rattle.words.specs.Words.{word_count, words_of};
ghost use Rattle.job.specs.JobWords.{words_in};
ghost use Rattle.definition.specs.Entry.{every, leader_ok, vgroup_ok, operand_ok, function_ok};
ghost use Rattle.values.specs.ValueRows.{value_row, values_at, vgroup_row, vgroups_at};
ghost use Rattle.values.specs.OperandRows.{operand_row, operands_at};
ghost use Rattle.values.specs.Chains.{Chained, operands_of, chains_of};
ghost use Rattle.job.specs.Job.{raw_in};
ghost use Rattle.entry_function.specs.Counts.{known, Within, Indexes};

mod counted;

pub use counted::Counted;
use definition::{Value, ValueSet};
use job::Job;
use values::operands::{Chains, Index};

// Whether value i's leader is a value that leads itself.
fn leads_at(job: &Job, i: usize) -> bool
    requires { i < job.now.lay.values.n }
    ensures { result ≡ leader_ok (raw_in job.now) (value_row (words_in job.now) (job.now.lay.values.at + i * 3)) }
{
    let lay = &job.lay;
    let at = lay.values.at;
    let n = lay.values.n;
    let leader = words::word_at(job.bytes, at + i * 3 + 1);
    if n <= leader as usize {
        return false;
    }
    values::set_for_value(&job::rows::values(job), Value(leader)) == ValueSet(leader)
}

// Every value's leader. Not one with vgroups_ok and operands_ok: a line each, over another test and another definition.
fn leaders_ok(job: &Job) -> bool
    ensures { result ≡ every (leader_ok (raw_in job.now))
        (values_at (words_in job.now) job.now.lay.values.at job.now.lay.values.n) }
{
    (0..job.lay.values.n).all(|i| leads_at(job, i))
}

// Whether the members of the value group at word `at` are among the first `values` values.
fn members_known(job: &[u8], at: usize, values: usize) -> bool
    requires { (at + 9 ≤ word_count job.now) × (length (vgroup_row (words_of job.now) at) ≤ 8) }
    ensures { result ≡ every (known values) (vgroup_row (words_of job.now) at) }
{
    (0..values::group_len(job, at)).all(|k| (values::member_at(job, at, k).0 as usize) < values)
}

// Whether value group i has 2 to 8 members, all known. One with more is refused before its members are read.
fn vgroup_ok(job: &Job, i: usize) -> bool
    requires { i < job.now.lay.vgroups.n }
    ensures { result ≡ vgroup_ok (raw_in job.now) (vgroup_row (words_in job.now) (job.now.lay.vgroups.at + i * 9)) }
{
    let lay = &job.lay;
    let at = lay.vgroups.at + i * 9;
    let n = values::group_len(job.bytes, at);
    if n < 2 {
        return false;
    }
    if 8 < n {
        return false;
    }
    members_known(job.bytes, at, lay.values.n)
}

// Every value group. Not one with leaders_ok and operands_ok: a line each, over another test and another definition.
fn vgroups_ok(job: &Job) -> bool
    ensures { result ≡ every (vgroup_ok (raw_in job.now))
        (vgroups_at (words_in job.now) job.now.lay.vgroups.at job.now.lay.vgroups.n) }
{
    (0..job.lay.vgroups.n).all(|i| vgroup_ok(job, i))
}

// Whether operand i is within the tables, and its class is as wide as its value group.
fn operand_ok(counted: &Counted, i: usize) -> bool
    requires { i < counted.now.job.lay.operands.n }
    ensures { result ≡ operand_ok (raw_in counted.now.job)
        (operand_row (words_in counted.now.job) (counted.now.job.lay.operands.at + i * 4)) }
{
    let job = &counted.job;
    let lay = &job.lay;
    let groups = lay.vgroups.n;
    let classes = lay.classes.n;
    let o = values::operands::operand_at(job.bytes, lay.operands.at + i * 4);
    if counted.insts <= o.inst.0 as usize {
        return false;
    }
    if 65536 <= o.slot {
        return false;
    }
    let group = o.vgroup.0 as usize;
    if groups <= group {
        return false;
    }
    let class = o.class.0 as usize;
    if classes <= class {
        return false;
    }
    let size = words::word_at(job.bytes, lay.classes.at + class * 4 + 2) as usize;
    size == values::group_len(job.bytes, lay.vgroups.at + group * 9)
}

// Every operand. Not one with leaders_ok and vgroups_ok: a line each, over another test and another definition.
fn operands_ok(counted: &Counted) -> bool
    ensures { result ≡ every (operand_ok (raw_in counted.now.job))
        (operands_at (words_in counted.now.job) counted.now.job.lay.operands.at counted.now.job.lay.operands.n) }
{
    (0..counted.job.lay.operands.n).all(|i| operand_ok(counted, i))
}

// Test 4. Where it passes, the work slice has the index c of the operands, and the rest of it is as it was.
// The limits are a clause here: the tests of hints and segments do without them, so that `Counted` does not hold them.
pub fn function_ok(counted: &Counted, work: &mut [u8], c: Chains) -> bool
    requires { Within (words_in counted.now.job) counted.now.job.lay
        × Indexes (word_count work.old) (words_in counted.now.job) counted.now.job.lay c }
    ensures value { result ≡ function_ok (raw_in counted.now.job) }
    ensures chained { result ≡ true → Chained (words_of work.new) c (operands_of (words_in counted.now.job) c)
        × (words_of work.new ≡ chains_of (words_of work.old) c (operands_of (words_in counted.now.job) c) c.count) }
{
    let job = &counted.job;
    let lay = &job.lay;
    if !function::blocks_ok(&job::rows::blocks(job)) {
        return false;
    }
    if !leaders_ok(job) {
        return false;
    }
    if !vgroups_ok(job) {
        return false;
    }
    if !operands_ok(counted) {
        return false;
    }
    values::operands::put_chains(job.bytes, work, c);
    let index = Index {
        job: job.bytes,
        work,
        chains: c,
    };
    values::operands::no_twice(&index)
}
