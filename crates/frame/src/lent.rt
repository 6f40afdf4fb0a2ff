// What a build works on, lent from function to function as one reference.
ghost use Rattle.std.specs.Prelude.{◌^◌, ◌<◌, length};

use job::Job;
use job::work::WorkLayout;
use virt_regs::OutLayout;

// The job, the result tables' numbers of rows, and the places of the work slice. `short` is true of every slice, but a
// proof knows it of a job that is lent by itself alone, and not of one in a struct.
// Three kinds of facts are clauses and no ghost fields: what is true of a frame with a slice that is lent `&mut` beside
// it, as `Ready`; what some functions ask and others do not, as `MapApart`; and what numbers of a call are in the job,
// as `PartOk`.
#[derive(Clone, Copy)]
pub struct Frame<'a> {
    pub job: Job<'a>,
    pub ol: OutLayout,
    pub wl: WorkLayout,
    pub ghost short: { length job.bytes.now < 2 ^ 64 },
}
