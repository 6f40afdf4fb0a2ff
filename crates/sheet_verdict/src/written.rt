// Refusal 10: whether the first instructions and the sets written in a sheet of the second form are those of its job.

ghost use Rattle.std.specs.Prelude.{◌≡◌, take, drop};
ghost use Rattle.words.specs.Words.{words_of};
ghost use Rattle.definition.specs.Text.{same};
ghost use Rattle.definition.specs.SheetForms.{implied_firsts, implied_sets, as_implied};
ghost use Rattle.job.specs.Job.{raw_in};

mod written;

use definition::Block;
pub use written::Written;

// Whether the first instruction written for each block is the number of instructions before it.
fn firsts_as_implied(written: &Written) -> bool
    ensures { result ≡ same (take written.now.job.lay.blocks.n (words_of written.now.words.now))
        (implied_firsts (raw_in written.now.job)) }
{
    let job = &written.job;
    let lay = &job.lay;
    let blocks = job::rows::blocks(job);
    let mut first: u32 = 0;
    for i in 0..lay.blocks.n as u32 {
        if words::word_at(written.words, i as usize) != first {
            return false;
        }
        first += function::count_at(&blocks, Block(i));
    }
    true
}

// Whether the set written for each segment is the leader of the segment's value.
fn sets_as_implied(written: &Written) -> bool
    ensures { result ≡ same (take written.now.job.lay.segments.n (drop 512 (words_of written.now.words.now)))
        (implied_sets (raw_in written.now.job)) }
{
    let job = &written.job;
    let lay = &job.lay;
    let values = job::rows::values(job);
    for j in 0..lay.segments.n {
        let s = job::seg_at(job.bytes, lay.segments.at + j * 5);
        let set = values::set_for_value(&values, s.value);
        let leader = set.0;
        if words::word_at(written.words, 512 + j) != leader {
            return false;
        }
    }
    true
}

// Whether no written field differs from the implied one.
#[tactic(auto, unfolding(definition::specs::SheetForms::as_implied))]
pub fn as_implied(written: &Written) -> bool
    ensures { result ≡ as_implied (take written.now.job.lay.blocks.n (words_of written.now.words.now))
        (take written.now.job.lay.segments.n (drop 512 (words_of written.now.words.now)))
        (raw_in written.now.job) }
{
    firsts_as_implied(written) && sets_as_implied(written)
}
