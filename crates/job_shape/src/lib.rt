// Entry test 1 on a binary job: the layout that its header gives, and whether the slice has that shape.
#![tactic(auto)]

ghost use Rattle.std.specs.Prelude.{◌≡◌, ◌+◌, ◌*◌, ◌≤◌, ◌<◌, eqb, get_or};
ghost use Rattle.words.specs.Words.{word_count, words_of};
ghost use Rattle.job.specs.JobWords.{words_in};
ghost use Rattle.job_shape.specs.Shape.{Placed, table_behind, layout_of, all_below, choices_ok, rises, use_counts, tables_ok, Formed};

mod shaped;

use job::{Job, Layout, Table};
pub use shaped::ShapedJob;

// Word i as a number of rows or uses.
fn count(job: &[u8], i: usize) -> usize
    requires { i < word_count job.now }
    ensures { (result ≡ get_or (words_of job.now) i 0) × (result < 4294967296) }
{
    words::word_at(job, i) as usize
}

// Table k + 1 of the header, behind table k, which has rows of `stride` words.
fn table_behind(job: &[u8], k: usize, t: Table, stride: usize) -> Table
    requires { (14 ≤ word_count job.now) × (k ≤ 8) × (stride ≤ 9) × Placed k t }
    ensures { (result ≡ table_behind t stride (get_or (words_of job.now) (k + 1) 0)) × Placed (k + 1) result }
{
    Table {
        at: t.at + t.n * stride,
        n: count(job, k + 1),
    }
}

// The layout that the header gives: the tables one after the other, behind the header's fourteen words.
fn layout_of(job: &[u8]) -> Layout
    requires { 14 ≤ word_count job.now }
    ensures { (result ≡ layout_of (words_of job.now)) × Placed 9 result.uses }
{
    let banks = Table {
        at: 14,
        n: count(job, 0),
    };
    let classes = table_behind(job, 0, banks, 1);
    let regs = table_behind(job, 1, classes, 4);
    let blocks = table_behind(job, 2, regs, 1);
    let values = table_behind(job, 3, blocks, 2);
    let vgroups = table_behind(job, 4, values, 3);
    let operands = table_behind(job, 5, vgroups, 9);
    let hints = table_behind(job, 6, operands, 4);
    let segments = table_behind(job, 7, hints, 3);
    let uses = table_behind(job, 8, segments, 5);
    Layout {
        opts: 10,
        banks,
        classes,
        regs,
        blocks,
        values,
        vgroups,
        operands,
        hints,
        segments,
        uses,
    }
}

// Whether word `col` of every row of a table, in rows of `stride` words, is below the bound.
pub fn all_below(job: &[u8], t: Table, stride: usize, col: usize, bound: u32) -> bool
    requires { (col < stride) × (t.at + t.n * stride ≤ word_count job.now) }
    ensures { result ≡ all_below (words_of job.now) t stride col bound }
{
    (0..t.n).all(|i| words::word_at(job, t.at + i * stride + col) < bound)
}

// Every choice is on its list: spillslots, memory, remat, incoming, flags, kind.
#[tactic(auto, unfolding(crate::specs::Shape::choices_ok, definition::specs::Entry::conj))]
fn choices_ok(job: &Job) -> bool
    ensures { result ≡ choices_ok (words_in job.now) job.now.lay }
{
    let lay = &job.lay;
    all_below(job.bytes, lay.classes, 4, 3, 2)
        && all_below(job.bytes, lay.regs, 1, 0, 2)
        && all_below(job.bytes, lay.values, 3, 2, 4)
        && all_below(job.bytes, lay.hints, 3, 2, 2)
        && all_below(job.bytes, lay.segments, 5, 3, 16)
        && all_below(job.bytes, lay.uses, 6, 0, 10)
}

// The first segment's use count is 0; without a segment there is no use.
fn counts_begin(job: &Job) -> bool
    ensures { result ≡ eqb (get_or (use_counts (words_in job.now) job.now.lay) 0 job.now.lay.uses.n) 0 }
{
    let lay = &job.lay;
    if lay.segments.n == 0 {
        lay.uses.n == 0
    } else {
        words::word_at(job.bytes, lay.segments.at + 4) == 0
    }
}

// The use counts do not fall, nor does the number of uses behind them.
fn counts_rise(job: &Job) -> bool
    ensures { result ≡ rises 0 (use_counts (words_in job.now) job.now.lay) job.now.lay.uses.n }
{
    let lay = &job.lay;
    let mut last: usize = 0;
    for i in 0..lay.segments.n {
        let next = count(job.bytes, lay.segments.at + i * 5 + 4);
        if next < last {
            return false;
        }
        last = next;
    }
    last <= lay.uses.n
}

// The tests behind the length: at least one bank, class and block, choices on their lists, use counts that rise.
#[tactic(auto, unfolding(crate::specs::Shape::tables_ok, crate::specs::Shape::counts_ok, definition::specs::Entry::conj))]
fn tables_ok(job: &Job) -> bool
    ensures { result ≡ tables_ok (words_in job.now) job.now.lay }
{
    let lay = &job.lay;
    1 <= lay.banks.n
        && 1 <= lay.classes.n
        && 1 <= lay.blocks.n
        && choices_ok(job)
        && counts_begin(job)
        && counts_rise(job)
}

// Test 1: the layout of a slice that is exactly as long as its header says and whose tables pass.
pub fn find_layout(job: &[u8]) -> Option<Layout>
    ensures { Formed job.now result }
{
    if job.len() < 56 {
        return None;
    }
    let lay = layout_of(job);
    if job.len() != (lay.uses.at + lay.uses.n * 6) * 4 {
        return None;
    }
    let job = Job { bytes: job, lay };
    tables_ok(&job).then_some(lay)
}
