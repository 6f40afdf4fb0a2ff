// A job of good shape as it is lent.
ghost use Rattle.job_shape.specs.Shape.{Shaped};

use job::Job;

// The job passed test 1.
#[derive(Clone, Copy)]
pub struct ShapedJob<'a> {
    pub job: Job<'a>,
    pub ghost shaped: { Shaped job.bytes.now job.lay },
}
