// A working part cut at an instruction into the part before it and the part behind it (live_range.rs `split_segments_at`).

ghost use Rattle.std.specs.Prelude.{◌≡◌, true, ◌+◌, ◌-◌, ◌*◌, ◌≤◌, ◌<◌};
ghost use Rattle.words.specs.RowsAt.{rows_at};
ghost use Rattle.definition.specs.Entry.{chained, not_after};
ghost use Rattle.hints.specs.Hints.{hint_at};
ghost use Rattle.hints.specs.Sorted.{hints_in};
ghost use Rattle.uses.specs.Rows.{uses_at, uses_in};
ghost use Rattle.set_part.specs.Part.{PartOk};
ghost use Rattle.set_part.specs.Cut.{first_past, left_part, right_part, cut_across, cut_between, cut_part};
ghost use Rattle.job.specs.JobWords.{words_in};

use crate::{PartSeg, SetPart, at_segment};
use definition::{Inst, LiveRangePoint, UseFlags};
use hints::Hints;
use job::Job;
use words::rows::Rows;

// The two sides of a cut.
#[derive(Clone, Copy)]
pub struct Parts {
    pub left: SetPart,
    pub right: SetPart,
}

// The first segment that does not end by point q; the last one is not looked at.
fn first_past(job: &Job, sp: SetPart, q: u32) -> usize
    requires { (sp.seg ≤ sp.last) × (sp.last < job.now.lay.segments.n) }
    ensures { (result ≡ first_past (words_in job.now) job.now.lay sp q) × (sp.seg ≤ result) × (result ≤ sp.last) }
{
    let lay = &job.lay;
    for i in sp.seg..sp.last {
        if q < words::word_at(job.bytes, lay.segments.at + i * 5 + 2) {
            return i;
        }
    }
    sp.last
}

// The part up to segment k, which ends at `to`, has `tail` as its flags, and whose uses end before number `end`.
// Not one with right_part: a literal each, in which other fields are set.
#[tactic(auto, unfolding(crate::specs::Cut::left_part))]
fn left_part(sp: SetPart, k: usize, to: LiveRangePoint, tail: UseFlags, end: usize) -> SetPart
    ensures { result ≡ left_part sp k to tail end }
{
    SetPart {
        flags: at_segment(k, sp.seg, tail, sp.flags),
        last: k,
        to,
        tail,
        end,
        ..sp
    }
}

// The part from segment k on, which begins at `from`, has `flags`, and whose uses begin at number `first`.
// Not one with left_part: a literal each, in which other fields are set.
#[tactic(auto, unfolding(crate::specs::Cut::right_part))]
fn right_part(sp: SetPart, k: usize, from: LiveRangePoint, flags: UseFlags, first: usize) -> SetPart
    ensures { result ≡ right_part sp k «from» flags first }
{
    SetPart {
        seg: k,
        from,
        flags,
        first,
        ..sp
    }
}

// The uses of a segment.
fn uses_of<'a>(job: &Job<'a>, row: PartSeg) -> Rows<'a, 6>
    requires { (row.first ≤ row.end) × (row.end ≤ job.now.lay.uses.n) }
    ensures { (uses_in result ≡ uses_at (words_in job.now) (job.now.lay.uses.at + row.first * 6) (row.end - row.first))
        × (result.n ≡ row.end - row.first) }
{
    Rows {
        words: job.bytes,
        at: job.lay.uses.at + row.first * 6,
        n: row.end - row.first,
    }
}

// A cut across segment k, whose row is `row`.
#[tactic(auto, unfolding(crate::specs::Cut::cut_across, crate::specs::Cut::mid_use))]
fn cut_across(job: &Job, hints: &Hints, sp: SetPart, p: Inst, k: usize, row: PartSeg) -> Parts
    requires { (row.first ≤ row.end) × (row.end ≤ job.now.lay.uses.n) × (4 * p.0 < row.to.0) }
    ensures { result ≡ cut_across (hints_in hints.now) (words_in job.now) job.now.lay p sp k row }
{
    let here = LiveRangePoint(4 * p.0);
    let mid = row.first + uses::count_before(&uses_of(job, row), p);
    let before = hints::cuts::left_flags(hints, row.value, row.from, p, row.flags);
    let behind = hints::cuts::right_flags(hints, row.value, row.to, p, row.flags);
    Parts {
        left: left_part(sp, k, here, before, mid),
        right: right_part(sp, k, here, behind, mid),
    }
}

// A cut between segment k - 1 and segment k, whose rows are `old` and `row`.
#[tactic(auto, unfolding(crate::specs::Cut::cut_between))]
fn cut_between(sp: SetPart, k: usize, old: PartSeg, row: PartSeg) -> Parts
    requires { 1 ≤ k }
    ensures { result ≡ cut_between sp k old row }
{
    Parts {
        left: left_part(sp, k - 1, old.to, old.flags, old.end),
        right: right_part(sp, k, row.from, row.flags, row.first),
    }
}

// The part before point 4p and the part behind it: both are there.
pub fn cut_part(job: &Job, sp: SetPart, p: Inst) -> Parts
    requires { PartOk (words_in job.now) job.now.lay sp × (sp.«from».0 < 4 * p.0) × (4 * p.0 < sp.to.0)
        × (chained not_after (rows_at hint_at (words_in job.now) job.now.lay.hints.at 3 job.now.lay.hints.n) ≡ true) }
    ensures { result ≡ cut_part (rows_at hint_at (words_in job.now) job.now.lay.hints.at 3 job.now.lay.hints.n) (words_in job.now) job.now.lay p sp }
{
    let q = 4 * p.0;
    let k = first_past(job, sp, q);
    let row = crate::part_seg(job, sp, k);
    if row.from.0 < q {
        let rows = Rows {
            words: job.bytes,
            at: job.lay.hints.at,
            n: job.lay.hints.n,
        };
        return cut_across(job, &Hints { rows }, sp, p, k, row);
    }
    let old = crate::part_seg(job, sp, k - 1);
    cut_between(sp, k, old, row)
}
