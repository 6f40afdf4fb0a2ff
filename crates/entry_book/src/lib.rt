// Entry tests 2 and 3 on a binary job: counts within their limits, and the register book.
#![tactic(auto)]

ghost use Rattle.std.specs.Prelude.{◌≡◌, ◌&&◌, ◌||◌, ◌+◌, ◌*◌, ◌%◌, ◌^◌, ◌≤◌, ◌<◌, ltb, eqb, get_or};
ghost use Rattle.words.specs.Words.{word_count, words_of};
ghost use Rattle.job.specs.JobWords.{words_in};
ghost use Rattle.reginfo.specs.Rows.{class_row, classes_at};
ghost use Rattle.definition.specs.Entry.{conj, every, sized, class_ok, limits_ok, book_ok};
ghost use Rattle.job.specs.Job.{raw_in};
ghost use Rattle.entry_book.specs.Limits.{function_counts, other_counts, Limited};
ghost use Rattle.entry_book.specs.Book.{scale_tests};

use job::{Job, Layout};
use job_shape::ShapedJob;

// The counts of all tables, in the order of the definition's tests.
#[tactic(auto, unfolding(definition::specs::Entry::conj))]
fn counts_ok(lay: &Layout) -> bool
    ensures { result ≡ conj (function_counts lay.now) && conj (other_counts lay.now) }
{
    lay.blocks.n <= 512
        && lay.values.n <= 1024
        && lay.vgroups.n <= 256
        && lay.operands.n <= 1024
        && lay.hints.n <= 1024
        && lay.segments.n <= 1024
        && lay.uses.n <= 4096
        && lay.classes.n <= 32
        && lay.banks.n <= 8
        && lay.regs.n <= 256
}

// Test 2: no count and no k above its limit.
pub fn limits_ok(shaped: &ShapedJob) -> bool
    ensures { result ≡ limits_ok (raw_in shaped.now.job) }
{
    let job = &shaped.job;
    let lay = &job.lay;
    if !counts_ok(lay) {
        return false;
    }
    words::word_at(job.bytes, lay.opts) <= 65535
        && function::count_insts(&job::rows::blocks(job)) <= 4096
}

// Whether a mask has no bit from bit n on.
fn mask_known(mask: u32, n: usize) -> bool
    requires { n ≤ 32 }
    ensures { result ≡ ltb mask (2 ^ n) }
{
    u64::from(mask) >> (n as u64) == 0
}

// A class that is in the mask, whose first bit is its own, has this size: its size is word i.
fn size_agrees(job: &[u8], i: usize, mask: u32, size: u32) -> bool
    requires { i < word_count job.now }
    ensures { result ≡ (eqb (mask % 2) 0 || eqb (get_or (words_of job.now) i 0) size) }
{
    mask % 2 == 0 || words::word_at(job, i) == size
}

// All classes in the mask have this size.
fn sizes_agree(job: &Job, mask: u32, size: u32) -> bool
    ensures { result ≡ sized mask size (classes_at (words_in job.now) job.now.lay.classes.at job.now.lay.classes.n) }
{
    let classes = job.lay.classes;
    let mut rest = mask;
    for i in 0..classes.n {
        if !size_agrees(job.bytes, classes.at + i * 4 + 2, rest, size) {
            return false;
        }
        rest /= 2;
    }
    true
}

// The class whose row begins at word i: a known mask, a small cost, a size of 1 to 8, subclasses of its size if that is 2 or more.
fn class_ok(job: &Job, i: usize) -> bool
    requires { (job.now.lay.classes.n ≤ 32) × (i + 4 ≤ word_count job.now.bytes.now) }
    ensures { result ≡ class_ok (classes_at (words_in job.now) job.now.lay.classes.at job.now.lay.classes.n) (class_row (words_in job.now) i) }
{
    let mask = words::word_at(job.bytes, i);
    let size = words::word_at(job.bytes, i + 2);
    mask_known(mask, job.lay.classes.n)
        && weights::floats::is_small(words::word_at(job.bytes, i + 1))
        && 1 <= size
        && size <= 8
        && (size < 2 || sizes_agree(job, mask, size))
}

fn classes_ok(job: &Job) -> bool
    requires { job.now.lay.classes.n ≤ 32 }
    ensures { result ≡ every (class_ok (classes_at (words_in job.now) job.now.lay.classes.at job.now.lay.classes.n)) (classes_at (words_in job.now) job.now.lay.classes.at job.now.lay.classes.n) }
{
    let classes = job.lay.classes;
    (0..classes.n).all(|i| class_ok(job, classes.at + i * 4))
}

// The three scales of the options that begin at word i.
#[tactic(auto, unfolding(definition::specs::Entry::conj))]
fn scales_ok(job: &[u8], i: usize) -> bool
    requires { i + 4 ≤ word_count job.now }
    ensures { result ≡ conj (scale_tests (words_of job.now) i) }
{
    weights::floats::is_small(words::word_at(job, i + 1))
        && weights::floats::is_small(words::word_at(job, i + 2))
        && weights::floats::is_small(words::word_at(job, i + 3))
}

// Test 3: the register book and the scales.
pub fn book_ok(job: &Job) -> bool
    requires { Limited (words_in job.now) job.now.lay }
    ensures { result ≡ book_ok (raw_in job.now) }
{
    let lay = &job.lay;
    job_shape::all_below(job.bytes, lay.banks, 1, 0, lay.classes.n as u32)
        && job_shape::all_below(job.bytes, lay.values, 3, 0, lay.banks.n as u32)
        && classes_ok(job)
        && scales_ok(job.bytes, lay.opts)
}
