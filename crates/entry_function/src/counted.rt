// A job as it is lent, with the number of its instructions.
ghost use Rattle.std.specs.Prelude.{◌≡◌};
ghost use Rattle.definition.specs.Entry as definition;
ghost use Rattle.job.specs.Job.{raw_in};

use job::Job;

// The blocks of the job have `insts` instructions.
#[derive(Clone, Copy)]
pub struct Counted<'a> {
    pub job: Job<'a>,
    pub insts: usize,
    pub ghost counted: { insts ≡ definition.insts (raw_in job) },
}
