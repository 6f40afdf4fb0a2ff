// mod.rs build_initial_vregs: the build of a binary job into lent result tables, as an entry point on bytes and numbers. Nothing is asked of the caller.
#![tactic(auto)]

ghost use Rattle.std.specs.Prelude.{◌≡◌, ◌/◌, ◌≤◌, ◌<◌, length};
ghost use Rattle.words.specs.Words.{word_count, words_of};
ghost use Rattle.definition.specs.Build.{build};
ghost use Rattle.definition.specs.Entry.{answer};
ghost use Rattle.job.specs.Job.{raw_job, raw_in};
ghost use Rattle.job_shape.specs.Answer.{binary_answer};
ghost use Rattle.virt_regs.specs.Encoding.{room_of};
ghost use Rattle.job.specs.Regions.{max_work};
ghost use Rattle.entry.specs.Accepted.{Accepted, Prepared};
ghost use Rattle.build_answer.specs.Answered.{out_layout_of, Answered};
ghost use Rattle.build.specs.Ends.{end_number, built_end, Cleared};

pub mod sets;

use crate::sets::build_sets;
use build_answer::{BuildEnd, out_layout, refuse, tables_bytes};
use definition::Refusal;
use entry::{Entered, enter_prepared};
use job::Job;
use job_shape::{ShapedJob, find_layout};
use placing::end::NotPlaced;
use virt_regs::{Counts, OutLayout};
use words::span::clear;

// The number of why the sets are not built, which C gets: 8 for a stop, 9 for a full table.
fn end_number(e: NotPlaced) -> u32
    ensures { result ≡ end_number e }
{
    match e {
        NotPlaced::Stopped(s) => Refusal::Stopped(s).number(),
        NotPlaced::Full => Refusal::Full.number(),
    }
}

fn built(c: Counts) -> BuildEnd
    requires { (c.regs < 4294967296) × (c.groups < 4294967296) }
    ensures { result ≡ built_end c }
{
    BuildEnd {
        number: 0,
        registers: c.regs as u32,
        groups: c.groups as u32,
    }
}

// A job that passed the entry tests, in result tables that are just as long as `out` and zero.
// They are cleared again where the build does not come to its end.
pub fn build_entered(
    job: &[u8],
    e: Entered,
    out: &mut [u8],
    ol: OutLayout,
    work: &mut [u8],
) -> BuildEnd
    requires { Accepted job.now (words_of work.old) e.lay e.wl e.insts
        × Prepared (words_of job.now) (words_of work.old) e.lay e.wl
        × (max_work ≤ word_count work.old) × Cleared ol out.old }
    ensures { Answered (length out.old) ol
        (build (raw_job (words_of job.now) e.lay) (room_of ol)) result out.new }
{
    match build_sets(job, &e.lay, out, ol, work, e.wl) {
        Err(why) => {
            let number = end_number(why);
            clear(out);
            refuse(number)
        }
        Ok(counts) => built(counts),
    }
}

// A job of good shape, in such tables.
pub fn build_shaped(shaped: &ShapedJob, out: &mut [u8], ol: OutLayout, work: &mut [u8]) -> BuildEnd
    requires { (max_work ≤ word_count work.old) × Cleared ol out.old }
    ensures { Answered (length out.old) ol (answer (raw_in shaped.now.job) (room_of ol)) result out.new }
{
    match enter_prepared(shaped, work) {
        Ok(e) => build_entered(shaped.job.bytes, e, out, ol, work),
        Err(r) => refuse(r.number()),
    }
}

// job: a binary job. out: the result tables, with as many rows as are named and fit. work: what it holds does not matter.
// The contract rules out, for one, number 9 with the rows placed so far left behind, and number 0 with a turned use that stands in no conflict register.
pub fn build_initial_vregs(
    job: &[u8],
    out: &mut [u8],
    regs: u32,
    segs: u32,
    uses: u32,
    groups: u32,
    work: &mut [u8; 110600],
) -> BuildEnd
    ensures { Answered (length out.old) (out_layout_of (length out.old / 4) regs segs uses groups)
        (binary_answer job.now (room_of (out_layout_of (length out.old / 4) regs segs uses groups))) result out.new }
{
    clear(out);
    let ol = out_layout(out.len() / 4, regs, segs, uses, groups);
    let Some(lay) = find_layout(job) else {
        return refuse(Refusal::NotARecord.number());
    };
    let end = tables_bytes(ol);
    let job = Job { bytes: job, lay };
    let shaped = ShapedJob { job };
    build_shaped(&shaped, &mut out[..end], ol, work)
}
