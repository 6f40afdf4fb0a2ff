// The entry tests on a job of good shape, lowest number first, and the work slice of a job that passes them.
#![tactic(auto)]

ghost use Rattle.std.specs.Prelude.{◌≡◌, true, ℕ, ◌+◌, ◌*◌, ◌≤◌, ◌<◌, IfOk, get_or};
ghost use Rattle.words.specs.Words.{word_count, words_of};
ghost use Rattle.job.specs.JobWords.{words_in};
ghost use Rattle.definition.specs.Entry.{insts_of, limits_ok, lowest_of, entry};
ghost use Rattle.function.specs.Blocks.{blocks_at};
ghost use Rattle.values.specs.Chains.{Chained, operands_of};
ghost use Rattle.job.specs.Job.{raw_in};
ghost use Rattle.entry_function.specs.Counts.{Indexes};
ghost use Rattle.entry_uses.specs.ListTests.{Rising};
ghost use Rattle.job.specs.Regions.{max_work};
ghost use Rattle.entry.specs.Number.{refusal_in, list_tests, table_tests};
ghost use Rattle.entry.specs.Accepted.{Accepted, Prepared, prepared};

use definition::Refusal;
use entry_function::Counted;
use entry_uses::kind::Indexed;
use entry_uses::lists::Bounded;
use job::work::WorkLayout;
use job::{Layout, Table};
use job_shape::ShapedJob;
use values::operands::Chains;
use words::rows::Rows;

// Of a job that passes: its layout, the parts of the work slice and the number of instructions.
#[derive(Clone, Copy)]
pub struct Entered {
    pub lay: Layout,
    pub wl: WorkLayout,
    pub insts: usize,
}

// Tests 5 to 7, of a job that passed 1 to 4.
fn test_lists(bounded: &Bounded) -> Result<(), Refusal>
    ensures { refusal_in result ≡ lowest_of (list_tests (raw_in bounded.now.indexed.job)) }
{
    let indexed = &bounded.indexed;
    let counted = Counted {
        job: indexed.job,
        insts: indexed.chains.insts,
    };
    if !entry_ranges::hint::hints_ok(&counted) {
        return Err(Refusal::BadHint);
    }
    if !entry_ranges::segment::segments_ok(&counted) {
        return Err(Refusal::BadSegment);
    }
    if !entry_uses::lists::uses_ok(bounded) {
        return Err(Refusal::BadUse);
    }
    Ok(())
}

// Tests 4 to 7, of a job that passed 1 to 3. Test 4 leaves the index of the operands in the work slice.
fn test_tables(counted: &Counted, work: &mut [u8], c: Chains) -> Result<(), Refusal>
    requires { Rising (words_in counted.now.job) counted.now.job.lay × (limits_ok (raw_in counted.now.job) ≡ true)
        × Indexes (word_count work.old) (words_in counted.now.job) counted.now.job.lay c }
    ensures value { refusal_in result ≡ lowest_of (table_tests (raw_in counted.now.job)) }
    ensures chained { IfOk result (λ u. Chained (words_of work.new) c (operands_of (words_in counted.now.job) c)) }
{
    if !entry_function::function_ok(counted, work, c) {
        return Err(Refusal::BadFunction);
    }
    let indexed = Indexed {
        job: counted.job,
        work,
        chains: c,
    };
    test_lists(&Bounded { indexed })
}

// How many instructions the blocks have. That each byte is below 256 is promised too: a proof knows it of a slice that
// is a parameter, and not of one in a struct.
fn insts_in(bytes: &[u8], blocks: Table) -> u64
    requires { (blocks.at + blocks.n * 2 ≤ word_count bytes.now) × (blocks.n ≤ 512) }
    ensures insts { result ≡ insts_of (blocks_at (words_of bytes.now) blocks.at blocks.n) }
    ensures bytes { (i : ℕ) → get_or bytes.now i 0 < 256 }
{
    let rows = Rows {
        words: bytes,
        at: blocks.at,
        n: blocks.n,
    };
    function::count_insts(&rows)
}

// Tests 2 to 7, of a job that passed 1.
pub fn enter(shaped: &ShapedJob, work: &mut [u8]) -> Result<Entered, Refusal>
    requires { max_work ≤ word_count work.old }
    ensures refused { refusal_in result ≡ entry (raw_in shaped.now.job) }
    ensures accepted { IfOk result (λ e. (e.lay ≡ shaped.now.job.lay)
        × Accepted shaped.now.job.bytes.now (words_of work.new) e.lay e.wl e.insts) }
{
    let job = &shaped.job;
    let lay = &job.lay;
    if !entry_book::limits_ok(shaped) {
        return Err(Refusal::OverALimit);
    }
    if !entry_book::book_ok(job) {
        return Err(Refusal::BadBook);
    }
    let insts = insts_in(job.bytes, lay.blocks) as usize;
    let wl = job::work::work_layout(lay, insts);
    let counted = Counted { job: *job, insts };
    test_tables(&counted, work, job::work::chains_in(lay, wl))?;
    Ok(Entered {
        lay: job.lay,
        wl,
        insts,
    })
}

// The rest of the work slice of an accepted job: no operand is mapped, no use is turned, and the table of block starts
// is made.
pub fn prepare(job: &[u8], e: Entered, work: &mut [u8])
    requires { Accepted job.now (words_of work.old) e.lay e.wl e.insts × (max_work ≤ word_count work.old) }
    ensures work_after { words_of work.new ≡ prepared (words_of job.now) (words_of work.old) e.lay e.wl }
    ensures accepted { Accepted job.now (words_of work.new) e.lay e.wl e.insts
        × Prepared (words_of job.now) (words_of work.new) e.lay e.wl }
{
    let lay = &e.lay;
    let wl = e.wl;
    words::span::clear_words(work, wl.mapping, lay.operands.n);
    let blocks = Rows {
        words: job,
        at: lay.blocks.at,
        n: lay.blocks.n,
    };
    function::starts::put_starts(&blocks, work, wl.starts);
    words::span::clear_words(work, wl.marks, lay.uses.n);
}

// The tests, and the work slice of a job that passes them.
pub fn enter_prepared(shaped: &ShapedJob, work: &mut [u8]) -> Result<Entered, Refusal>
    requires { max_work ≤ word_count work.old }
    ensures refused { refusal_in result ≡ entry (raw_in shaped.now.job) }
    ensures accepted { IfOk result (λ e. (e.lay ≡ shaped.now.job.lay)
        × Accepted shaped.now.job.bytes.now (words_of work.new) e.lay e.wl e.insts
        × Prepared (words_in shaped.now.job) (words_of work.new) e.lay e.wl) }
{
    let e = enter(shaped, work)?;
    prepare(shaped.job.bytes, e, work);
    Ok(e)
}
