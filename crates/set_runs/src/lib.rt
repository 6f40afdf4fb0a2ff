// mod.rs build_initial_vregs: the set and the top class of a job's segment, and where the segments of one set end.
#![tactic(auto)]

ghost use Rattle.std.specs.Prelude.{◌≡◌, ◌∷◌, ◌≤◌, ◌<◌, get_or};
ghost use Rattle.definition.specs.Types.{cls};
ghost use Rattle.definition.specs.RegInfo.{value_at, set_of, top_of};
ghost use Rattle.definition.specs.Build.{runs, same_set};
ghost use Rattle.job.specs.Layout.{seg_at};
ghost use Rattle.job.specs.Job.{job_in};
ghost use Rattle.set_runs.specs.Sets.{segs_from};
ghost use Rattle.job.specs.JobWords.{words_in};

use definition::{RegBank, RegClass, Value, ValueSet};
use job::Job;

// The set of segment i.
pub fn set_at(job: &Job, i: usize) -> ValueSet
    requires { i < job.now.lay.segments.n }
    ensures { result ≡ set_of (job_in job.now) (seg_at (words_in job.now) job.now.lay i).value }
{
    let lay = &job.lay;
    let s = job::seg_at(job.bytes, lay.segments.at + i * 5);
    values::set_for_value(&job::rows::values(job), s.value)
}

// The bank of value v; that of an unknown value is 0.
fn bank_of(job: &Job, v: Value) -> RegBank
    ensures { result ≡ (value_at (job_in job.now) v).bank }
{
    let lay = &job.lay;
    let k = v.0 as usize;
    if k < lay.values.n {
        values::value_at(job.bytes, lay.values.at + k * 3).bank
    } else {
        RegBank(0)
    }
}

// The top class of bank b; that of an unknown bank is 0.
fn top_of(job: &Job, b: RegBank) -> RegClass
    ensures { result ≡ get_or (job_in job.now).banks b.0 (cls 0) }
{
    let lay = &job.lay;
    let k = b.0 as usize;
    if k < lay.banks.n {
        reginfo::bank_at(job.bytes, lay.banks.at + k)
    } else {
        RegClass(0)
    }
}

// The top class of the bank of segment i's value.
pub fn top_at(job: &Job, i: usize) -> RegClass
    requires { i < job.now.lay.segments.n }
    ensures { result ≡ top_of (job_in job.now) (seg_at (words_in job.now) job.now.lay i).value }
{
    let lay = &job.lay;
    let s = job::seg_at(job.bytes, lay.segments.at + i * 5);
    top_of(job, bank_of(job, s.value))
}

// The end of the run of segments with the set of segment a.
pub fn set_end(job: &Job, a: usize) -> usize
    requires { a < job.now.lay.segments.n }
    ensures { (a < result) × (result ≤ job.now.lay.segments.n) × (runs (same_set (job_in job.now)) (segs_from (words_in job.now) job.now.lay a job.now.lay.segments.n) ≡ segs_from (words_in job.now) job.now.lay a result ∷ runs (same_set (job_in job.now)) (segs_from (words_in job.now) job.now.lay result job.now.lay.segments.n)) }
{
    let lay = &job.lay;
    let n = lay.segments.n;
    let first = set_at(job, a);
    for e in a + 1..n {
        if set_at(job, e) != first {
            return e;
        }
    }
    n
}
