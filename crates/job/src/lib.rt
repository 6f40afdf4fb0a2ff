// Where the tables of a job stand in its slice, and the records that the builder reads.
#![tactic(auto)]

ghost use Rattle.std.specs.Prelude.{◌≡◌, ◌+◌, ◌*◌, ◌≤◌, ◌<◌, get_or};
ghost use Rattle.words.specs.Words.{word_count, words_of};
ghost use Rattle.job.specs.JobWords.{words_in};
ghost use Rattle.job.specs.Layout.{options_row, flags_of, seg_row, next_use};

mod job;
pub mod rows;
pub mod work;

use definition::{LiveRangePoint, Options, UseFlags, Value};
pub use job::Job;

// A table: the word at which its first row begins, and how many rows it has.
#[derive(Clone, Copy)]
pub struct Table {
    pub at: usize,
    pub n: usize,
}

// The tables of a job. `opts` is the word at which k and the three scales begin.
#[derive(Clone, Copy)]
pub struct Layout {
    pub opts: usize,
    pub banks: Table,
    pub classes: Table,
    pub regs: Table,
    pub blocks: Table,
    pub values: Table,
    pub vgroups: Table,
    pub operands: Table,
    pub hints: Table,
    pub segments: Table,
    pub uses: Table,
}

// A segment row: `first` is how many uses come before its own.
#[derive(Clone, Copy)]
pub struct SegRow {
    pub value: Value,
    pub from: LiveRangePoint,
    pub to: LiveRangePoint,
    pub flags: UseFlags,
    pub first: u32,
}

// The options whose words begin at word i.
#[tactic(auto, unfolding(crate::specs::Layout::options_row))]
pub fn options_at(t: &[u8], i: usize) -> Options
    requires { (i + 4 ≤ word_count t.now) × (get_or (words_of t.now) (i + 1) 0 ≤ 0x7f80_0000) × (get_or (words_of t.now) (i + 2) 0 ≤ 0x7f80_0000) × (get_or (words_of t.now) (i + 3) 0 ≤ 0x7f80_0000) }
    ensures { result ≡ options_row (words_of t.now) i }
{
    Options {
        adjust: words::word_at(t, i),
        cheaper_than_move: weights::floats::float_of(words::word_at(t, i + 1)),
        cheaper_than_load: weights::floats::float_of(words::word_at(t, i + 2)),
        indirect: weights::floats::float_of(words::word_at(t, i + 3)),
    }
}

// "Flags: 1 live-in, 2 live-out, 4 fixed hint, 8 fixed def."
#[tactic(auto, unfolding(crate::specs::Layout::flags_of))]
pub fn flags_of(w: u32) -> UseFlags
    ensures { result ≡ flags_of w }
{
    UseFlags {
        livein: w % 2 == 1,
        liveout: w / 2 % 2 == 1,
        fixedhint: w / 4 % 2 == 1,
        fixeddef: w / 8 % 2 == 1,
    }
}

// The segment whose row begins at word i.
#[tactic(auto, unfolding(crate::specs::Layout::seg_row))]
pub fn seg_at(t: &[u8], i: usize) -> SegRow
    requires { i + 5 ≤ word_count t.now }
    ensures { result ≡ seg_row (words_of t.now) i }
{
    SegRow {
        value: Value(words::word_at(t, i)),
        from: LiveRangePoint(words::word_at(t, i + 1)),
        to: LiveRangePoint(words::word_at(t, i + 2)),
        flags: flags_of(words::word_at(t, i + 3)),
        first: words::word_at(t, i + 4),
    }
}

// The use number at which the uses of segment i end: the next segment's first, or the number of uses.
#[tactic(auto, unfolding(crate::specs::Layout::next_use))]
pub fn next_use(job: &Job, i: usize) -> u32
    requires { (i < job.now.lay.segments.n) × (job.now.lay.uses.n ≤ 4096) }
    ensures { result ≡ next_use (words_in job.now) job.now.lay i }
{
    let lay = &job.lay;
    let at = lay.segments.at;
    let n = lay.segments.n;
    if i + 1 < n {
        return words::word_at(job.bytes, at + (i + 1) * 5 + 4);
    }
    lay.uses.n as u32
}
