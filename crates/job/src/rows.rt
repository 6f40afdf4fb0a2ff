// The job that a slice stands for, and its tables as they are lent. What a slice stands for is a definition, in specs.

ghost use Rattle.std.specs.Prelude.{◌≡◌};
ghost use Rattle.reginfo.specs.Rows.{classes_at, classes_in};
ghost use Rattle.values.specs.ValueRows.{values_at, values_in};
ghost use Rattle.job.specs.JobWords.{words_in};

use crate::Job;
use words::rows::Rows;

// The classes of a job. Not one with blocks and values: of another width, and one over the width would ask each caller
// for the room that the job says of each table.
pub fn classes<'a>(job: &Job<'a>) -> Rows<'a, 4>
    ensures { classes_in result ≡ classes_at (words_in job.now) job.now.lay.classes.at job.now.lay.classes.n }
{
    Rows {
        words: job.bytes,
        at: job.lay.classes.at,
        n: job.lay.classes.n,
    }
}

// The blocks of a job, in its slice.
pub fn blocks<'a>(job: &Job<'a>) -> Rows<'a, 2>
    ensures { (result.words.now ≡ job.now.bytes.now) × (result.at ≡ job.now.lay.blocks.at)
        × (result.n ≡ job.now.lay.blocks.n) }
{
    Rows {
        words: job.bytes,
        at: job.lay.blocks.at,
        n: job.lay.blocks.n,
    }
}

// The values of a job, in its slice.
pub fn values<'a>(job: &Job<'a>) -> Rows<'a, 3>
    ensures { (values_in result ≡ values_at (words_in job.now) job.now.lay.values.at job.now.lay.values.n)
        × (result.words.now ≡ job.now.bytes.now) }
{
    Rows {
        words: job.bytes,
        at: job.lay.values.at,
        n: job.lay.values.n,
    }
}
