// Entry test 6: the segments of a job are within its function, and sorted by set and place.

ghost use Rattle.std.specs.Prelude.{◌≡◌, ◌-◌, ◌*◌, ◌<◌};
ghost use Rattle.words.specs.Tab.{tab};
ghost use Rattle.definition.specs.Entry.{every, chained, segment_ok, in_order, segments_ok};
ghost use Rattle.uses.specs.Rows.{raw_row};
ghost use Rattle.job.specs.Layout.{segment_of};
ghost use Rattle.job.specs.Job.{raw_in};
ghost use Rattle.entry_ranges.specs.SegmentTests.{span_ok};
ghost use Rattle.job.specs.JobWords.{words_in};

use definition::LiveRangePoint;
use entry_function::Counted;
use job::Job;

// Whether a segment from p to q is not empty, neither point has slot 3, and it ends at the latest where `count`
// instructions do.
#[tactic(auto, unfolding(crate::specs::SegmentTests::span_ok))]
fn span_ok(p: LiveRangePoint, q: LiveRangePoint, count: usize) -> bool
    ensures { result ≡ span_ok p q count }
{
    p < q && p.0 % 4 < 3 && q.0 % 4 < 3 && q.0 as usize <= count.saturating_mul(4)
}

// Whether segment i is within the function, and its value known.
fn segment_ok(counted: &Counted, i: usize) -> bool
    requires { i < counted.now.job.lay.segments.n }
    ensures { result ≡ segment_ok (raw_in counted.now.job)
        (segment_of raw_row (words_in counted.now.job) counted.now.job.lay i) }
{
    let job = &counted.job;
    let lay = &job.lay;
    let s = job::seg_at(job.bytes, lay.segments.at + i * 5);
    (s.value.0 as usize) < lay.values.n && span_ok(s.from, s.to, counted.insts)
}

// Every segment. Not one with hint::hints_known: a line each, over another test and another definition.
fn segments_within(counted: &Counted) -> bool
    ensures { result ≡ every (segment_ok (raw_in counted.now.job))
        (tab (segment_of raw_row (words_in counted.now.job) counted.now.job.lay) 0 counted.now.job.lay.segments.n) }
{
    (0..counted.job.lay.segments.n).all(|i| segment_ok(counted, i))
}

// Whether segment i is of a later set than the one before it, or behind it in its set.
fn is_behind(job: &Job, i: usize) -> bool
    requires { (0 < i) × (i < job.now.lay.segments.n) }
    ensures { result ≡ in_order (raw_in job.now) (segment_of raw_row (words_in job.now) job.now.lay (i - 1))
        (segment_of raw_row (words_in job.now) job.now.lay i) }
{
    let lay = &job.lay;
    let at = lay.segments.at;
    let s = job::seg_at(job.bytes, at + (i - 1) * 5);
    let t = job::seg_at(job.bytes, at + i * 5);
    let values = job::rows::values(job);
    let a = values::set_for_value(&values, s.value);
    let b = values::set_for_value(&values, t.value);
    a < b || (a == b && s.to <= t.from)
}

// Every two neighbours. Not one with segments_within: it begins at the second, and the definition is another.
fn segments_sorted(job: &Job) -> bool
    ensures { result ≡ chained (in_order (raw_in job.now))
        (tab (segment_of raw_row (words_in job.now) job.now.lay) 0 job.now.lay.segments.n) }
{
    (1..job.lay.segments.n).all(|i| is_behind(job, i))
}

// Test 6. Not one with hint::hints_ok: a line each, over other tests and another definition.
pub fn segments_ok(counted: &Counted) -> bool
    ensures { result ≡ segments_ok (raw_in counted.now.job) }
{
    segments_within(counted) && segments_sorted(&counted.job)
}
