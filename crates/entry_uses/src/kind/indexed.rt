// A job as it is lent, with the index of its operands.
ghost use Rattle.entry_uses.specs.InJob.{Ready};

use job::Job;
use values::operands::Chains;

// The job passed test 4, and the work slice holds the index of its operands.
#[derive(Clone, Copy)]
pub struct Indexed<'a> {
    pub job: Job<'a>,
    pub work: &'a [u8],
    pub chains: Chains,
    pub ghost ready: { Ready job work.now chains },
}
