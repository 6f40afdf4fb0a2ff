// The builder of crates/build for C, which include/cundzeli.h declares. Nothing is asked of the caller.
#![tactic(auto)]

ghost use Rattle.std.specs.Prelude.{◌/◌, length};
ghost use Rattle.job_shape.specs.Answer.{binary_answer};
ghost use Rattle.virt_regs.specs.Encoding.{room_of};
ghost use Rattle.build_answer.specs.Answered.{out_layout_of, Answered};

use build_answer::BuildEnd;

// job: a binary job. out: the result tables, with as many rows as are named and fit. work: what it holds does not matter.
#[unsafe(no_mangle)]
pub extern "C" fn build_initial_vregs(
    job: &[u8],
    out: &mut [u8],
    regs: u32,
    segs: u32,
    uses: u32,
    groups: u32,
    work: &mut [u8; 110600],
) -> BuildEnd
    ensures { Answered (length out.old) (out_layout_of (length out.old / 4) regs segs uses groups)
        (binary_answer job.now (room_of (out_layout_of (length out.old / 4) regs segs uses groups))) result out.new }
{
    build::build_initial_vregs(job, out, regs, segs, uses, groups, work)
}
