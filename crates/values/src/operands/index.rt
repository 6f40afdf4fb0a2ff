// The index of the operands as it is lent: the job's slice, the work slice, and where the rows and links stand in them.
ghost use Rattle.words.specs.Words.{word_count, words_of};
ghost use Rattle.values.specs.Chains.{operands_of, Fits, Chained};

use super::Chains;

// The tables lie in the slices, and the work slice holds the index of the job's operands.
#[derive(Clone, Copy)]
pub struct Index<'a> {
    pub job: &'a [u8],
    pub work: &'a [u8],
    pub chains: Chains,
    pub ghost fits: { Fits (word_count job.now) (word_count work.now) chains },
    pub ghost chained: { Chained (words_of work.now) chains (operands_of (words_of job.now) chains) },
}
