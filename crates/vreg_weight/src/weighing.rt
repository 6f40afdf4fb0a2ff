// What pieces are weighed by.
ghost use Rattle.std.specs.Prelude.{◌≡◌};
ghost use Rattle.job.specs.Job.{job_in};
ghost use Rattle.vreg_weight.specs.InFrame.{Weighable};

use definition::Options;
use frame::Frame;

// A frame, the work slice with the table of its block starts, and the options of its job, which are read once.
#[derive(Clone, Copy)]
pub struct Weighing<'a> {
    pub fr: &'a Frame<'a>,
    pub work: &'a [u8],
    pub options: Options,
    pub ghost weighable: { Weighable fr.now work.now },
    pub ghost of_job: { options ≡ (job_in fr.now.job).options },
}
