// Entry test 5: the hints of a job are known and sorted by their keys.

ghost use Rattle.std.specs.Prelude.{◌≡◌, ◌+◌, ◌*◌, ◌<◌};
ghost use Rattle.words.specs.RowsAt.{rows_at};
ghost use Rattle.definition.specs.Entry.{every, chained, not_after, hints_ok};
ghost use Rattle.hints.specs.Hints.{hint_at};
ghost use Rattle.job.specs.Job.{raw_in};
ghost use Rattle.entry_ranges.specs.HintTests.{hint_known};
ghost use Rattle.job.specs.JobWords.{words_in};

use definition::Hint;
use entry_function::Counted;
use job::Job;

// Whether hint i's value is known and its instruction is at most the number of instructions.
fn hint_known(counted: &Counted, i: usize) -> bool
    requires { i < counted.now.job.lay.hints.n }
    ensures { result ≡ hint_known (raw_in counted.now.job)
        (hint_at (words_in counted.now.job) (counted.now.job.lay.hints.at + i * 3)) }
{
    let job = &counted.job;
    let lay = &job.lay;
    let h = hints::hint_at(job.bytes, lay.hints.at + i * 3);
    (h.value.0 as usize) < lay.values.n && h.inst.0 as usize <= counted.insts
}

// Every hint. Not one with segment::segments_within: a line each, over another test and another definition.
fn hints_known(counted: &Counted) -> bool
    ensures { result ≡ every (hint_known (raw_in counted.now.job))
        (rows_at hint_at (words_in counted.now.job) counted.now.job.lay.hints.at 3 counted.now.job.lay.hints.n) }
{
    (0..counted.job.lay.hints.n).all(|i| hint_known(counted, i))
}

// Whether hint b is not sorted before hint a. Not `<=` of a derived order: that the order of the fields is that of the
// keys would have to be proved, which is longer than this line.
fn not_after(a: Hint, b: Hint) -> bool
    ensures { result ≡ not_after a b }
{
    a.value < b.value || (a.value == b.value && hints::key(a) <= hints::key(b))
}

fn hints_sorted(job: &Job) -> bool
    ensures { result ≡ chained not_after
        (rows_at hint_at (words_in job.now) job.now.lay.hints.at 3 job.now.lay.hints.n) }
{
    let lay = &job.lay;
    let at = lay.hints.at;
    (1..job.lay.hints.n).all(|i| {
        let h = hints::hint_at(job.bytes, at + (i - 1) * 3);
        not_after(h, hints::hint_at(job.bytes, at + i * 3))
    })
}

// Test 5. Not one with segment::segments_ok: a line each, over other tests and another definition.
pub fn hints_ok(counted: &Counted) -> bool
    ensures { result ≡ hints_ok (raw_in counted.now.job) }
{
    hints_known(counted) && hints_sorted(&counted.job)
}
