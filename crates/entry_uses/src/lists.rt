// Entry test 7: the uses of each segment of a job.

ghost use Rattle.std.specs.Prelude.{◌≡◌, ◌+◌, ◌*◌, ◌≤◌, ◌<◌};
ghost use Rattle.words.specs.RowsAt.{rows_at};
ghost use Rattle.words.specs.Rows.{row_words};
ghost use Rattle.job.specs.JobWords.{words_in};
ghost use Rattle.definition.specs.Entry.{every, chained, use_ok, uses_ok};
ghost use Rattle.uses.specs.Rows.{raw_row};
ghost use Rattle.job.specs.Layout.{segment_of};
ghost use Rattle.job.specs.Job.{raw_in};
ghost use Rattle.entry_uses.specs.ListTests.{seg_of, not_falling};

mod bounded;

use crate::kind::Indexed;
pub use bounded::Bounded;
use job::SegRow;
use words::rows::{Rows, word_of};

// Whether use k of segment s is one that it may have.
fn use_ok(indexed: &Indexed, s: SegRow, k: usize) -> bool
    requires { s.first + k < indexed.now.job.lay.uses.n }
    ensures { result ≡ use_ok (raw_in indexed.now.job) (seg_of s)
        (raw_row (words_in indexed.now.job) (indexed.now.job.lay.uses.at + (s.first + k) * 6)) }
{
    let job = &indexed.job;
    let lay = &job.lay;
    let count = indexed.chains.insts;
    let i = lay.uses.at + (s.first as usize + k) * 6;
    let pos = words::word_at(job.bytes, i + 1);
    if count <= pos as usize {
        return false;
    }
    if !crate::kind::kind_ok(indexed, s.value, i) {
        return false;
    }
    if 4 * pos + 4 <= s.from.0 {
        return false;
    }
    uses::end_point(uses::use_at(job.bytes, i)) <= s.to
}

// The same of the first n uses of segment s.
fn each_use_ok(indexed: &Indexed, s: SegRow, n: usize) -> bool
    requires { s.first + n ≤ indexed.now.job.lay.uses.n }
    ensures { result ≡ every (use_ok (raw_in indexed.now.job) (seg_of s))
        (rows_at raw_row (words_in indexed.now.job) (indexed.now.job.lay.uses.at + s.first * 6) 6 n) }
{
    (0..n).all(|k| use_ok(indexed, s, k))
}

// Whether the positions of the uses do not fall.
fn uses_rise(uses: &Rows<6>) -> bool
    ensures { result ≡ chained not_falling (rows_at raw_row (row_words uses.now) uses.now.at 6 uses.now.n) }
{
    (1..uses.n).all(|i| word_of(uses, i - 1, 1) <= word_of(uses, i, 1))
}

// Test 7 of segment k.
fn segment_uses_ok(bounded: &Bounded, k: usize) -> bool
    requires { k < bounded.now.indexed.job.lay.segments.n }
    ensures { result ≡ uses_ok (raw_in bounded.now.indexed.job)
        (segment_of raw_row (words_in bounded.now.indexed.job) bounded.now.indexed.job.lay k) }
{
    let indexed = &bounded.indexed;
    let job = &indexed.job;
    let lay = &job.lay;
    let s = job::seg_at(job.bytes, lay.segments.at + k * 5);
    let next = job::next_use(job, k);
    let at = lay.uses.at + s.first as usize * 6;
    let n = (next - s.first) as usize;
    let uses = Rows {
        words: job.bytes,
        at,
        n,
    };
    each_use_ok(indexed, s, n) && uses_rise(&uses)
}

// Test 7. The use table is walked from the first segment's uses to the last one's.
pub fn uses_ok(bounded: &Bounded) -> bool
    ensures { result ≡ every (uses_ok (raw_in bounded.now.indexed.job)) (raw_in bounded.now.indexed.job).segments }
{
    (0..bounded.indexed.job.lay.segments.n).all(|k| segment_uses_ok(bounded, k))
}
