// What a build works on: the job, and where the result tables' rows and the parts of the work slice stand.
#![tactic(auto)]

ghost use Rattle.frame.specs.Framed.{Framed};

mod lent;

use job::Job;
use job::work::WorkLayout;
pub use lent::Frame;
use virt_regs::OutLayout;

// The frame of a job.
pub fn frame_of<'a>(job: &Job<'a>, ol: OutLayout, wl: WorkLayout) -> Frame<'a>
    ensures { Framed job.now ol wl result }
{
    Frame { job: *job, ol, wl }
}
