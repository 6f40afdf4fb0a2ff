// A job as it is lent, with the index of its operands and what test 7 builds on.
ghost use Rattle.std.specs.Prelude.{◌≡◌, true};
ghost use Rattle.job.specs.JobWords.{words_in};
ghost use Rattle.definition.specs.Entry.{limits_ok};
ghost use Rattle.job.specs.Job.{raw_in};
ghost use Rattle.entry_uses.specs.ListTests.{Rising};

use crate::kind::Indexed;

// The use counts of the job's segments rise, and the job is within the limits.
#[derive(Clone, Copy)]
pub struct Bounded<'a> {
    pub indexed: Indexed<'a>,
    pub ghost rising: { Rising (words_in indexed.job) indexed.job.lay },
    pub ghost limited: { limits_ok (raw_in indexed.job) ≡ true },
}
