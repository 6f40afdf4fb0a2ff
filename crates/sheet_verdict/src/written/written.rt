// A job of a sheet as it is lent, with the fields that the sheet wrote.
ghost use Rattle.std.specs.Prelude.{◌≡◌};
ghost use Rattle.words.specs.Words.{word_count};
ghost use Rattle.sheet_verdict.specs.Passed.{Passed};

use job::Job;

// The job passed the entry tests. Word i is the first instruction of block i, word 512 + j the set of segment j.
#[derive(Clone, Copy)]
pub struct Written<'a> {
    pub job: Job<'a>,
    pub words: &'a [u8],
    pub ghost passed: { Passed job.bytes.now job.lay },
    pub ghost long: { word_count words.now ≡ 1536 },
}
