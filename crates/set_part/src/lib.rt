// The working part of a value set: a window over the job's segments and uses. Nothing is copied.
#![tactic(auto)]

ghost use Rattle.std.specs.Prelude.{◌≡◌, cond, ◌+◌, ◌≤◌, ◌<◌, eqb};
ghost use Rattle.set_part.specs.Part.{use_bound, part_row, whole_part};
ghost use Rattle.job.specs.JobWords.{words_in};

pub mod cuts;
pub mod mark;

use definition::{LiveRangePoint, UseFlags, Value};
use job::Job;

// Segments `seg` to `last` of the job. The first begins at `from`, has `flags`, and its uses begin at use number `first`;
// the last ends at `to`, its uses end before use number `end`, and it has `tail` as its flags if it is not the first too.
#[derive(Clone, Copy)]
pub struct SetPart {
    pub seg: usize,
    pub from: LiveRangePoint,
    pub flags: UseFlags,
    pub first: usize,
    pub last: usize,
    pub to: LiveRangePoint,
    pub tail: UseFlags,
    pub end: usize,
}

// A segment of a part: its uses are those from number `first` up to `end`.
#[derive(Clone, Copy)]
pub struct PartSeg {
    pub value: Value,
    pub from: LiveRangePoint,
    pub to: LiveRangePoint,
    pub flags: UseFlags,
    pub first: usize,
    pub end: usize,
}

// The use number at which the uses of segment i begin; behind the last segment, the end.
// That a part or a segment's number is one of the job's is a clause, here and above: a part goes by value, and the
// job is lent.
#[tactic(auto, unfolding(crate::specs::Part::use_bound, job::specs::Layout::seg_at, job::specs::Layout::seg_row))]
pub fn use_bound(job: &Job, sp: SetPart, i: usize) -> usize
    requires { sp.last < job.now.lay.segments.n }
    ensures { result ≡ use_bound (words_in job.now) job.now.lay sp i }
{
    let lay = &job.lay;
    if i == sp.seg {
        return sp.first;
    }
    if sp.last < i {
        return sp.end;
    }
    words::word_at(job.bytes, lay.segments.at + i * 5 + 4) as usize
}

// What segment i has: `own` if it is segment k, else what it has in the job.
pub fn at_segment<T: Copy>(i: usize, k: usize, own: T, other: T) -> T
    ensures { result ≡ cond (eqb i k) own other }
{
    if i == k { own } else { other }
}

// Segment i of a part. Inlined, since each call copies the part.
#[inline(always)]
#[tactic(auto, unfolding(crate::specs::Part::part_row, job::specs::Layout::seg_at))]
pub fn part_seg(job: &Job, sp: SetPart, i: usize) -> PartSeg
    requires { (sp.last < job.now.lay.segments.n) × (i ≤ sp.last) }
    ensures { result ≡ part_row (words_in job.now) job.now.lay sp i }
{
    let lay = &job.lay;
    let row = job::seg_at(job.bytes, lay.segments.at + i * 5);
    let flags = at_segment(i, sp.last, sp.tail, row.flags);
    PartSeg {
        value: row.value,
        from: at_segment(i, sp.seg, sp.from, row.from),
        to: at_segment(i, sp.last, sp.to, row.to),
        flags: at_segment(i, sp.seg, sp.flags, flags),
        first: use_bound(job, sp, i),
        end: use_bound(job, sp, i + 1),
    }
}

// The part that is a whole set: segments a to b - 1 of the job.
#[tactic(auto, unfolding(crate::specs::Part::whole_part, job::specs::Layout::seg_at))]
pub fn whole_part(job: &Job, a: usize, b: usize) -> SetPart
    requires { (a < b) × (b ≤ job.now.lay.segments.n) × (job.now.lay.uses.n ≤ 4096) }
    ensures { result ≡ whole_part (words_in job.now) job.now.lay a b }
{
    let lay = &job.lay;
    let at = lay.segments.at;
    let head = job::seg_at(job.bytes, at + a * 5);
    let behind = job::seg_at(job.bytes, at + (b - 1) * 5);
    SetPart {
        seg: a,
        from: head.from,
        flags: head.flags,
        first: head.first as usize,
        last: b - 1,
        to: behind.to,
        tail: behind.flags,
        end: job::next_use(job, b - 1) as usize,
    }
}
