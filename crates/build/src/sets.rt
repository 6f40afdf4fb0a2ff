// mod.rs build_initial_vregs: the value sets one after the other, by rising number.
//
// How a set becomes registers. The segments of a set, one after the other, are its working part: a window over the
// job's rows, of which nothing is copied or written (crate set_part). A part begins with the top class of the set's
// bank.
//
// The scan goes over the part's uses from the first on and holds what they ask (scans): a class, which each class use
// narrows to the common subclass of it and its own (scans::walk, on numbers); and from the first group use on an
// index, the group and value sets of its operand, and a register to be merged into (constraints). If all uses are
// admitted, the part becomes one register. If one is not, the end, the scan back from it finds the use that it can't
// share a register with, the start.
//
// Start and end in two instructions: the part is cut between them, where a block runs seldom, early or late by the
// costs of the two classes held (split_placement, set_part::cuts). In one instruction: the end is turned, or the start
// where the end is a definition. A turned use is marked and stays where it is as a conflict, which asks nothing; it is
// kept in a row of the work space for later (set_part::mark, steps). Behind a turned end the scan goes on with what it
// holds, since all before it is as it was; a turned start lies before, so that all is scanned again (build_part,
// `turn_uses`). A definition can't be turned, and an end without a start is a stop too.
//
// What has gone through becomes a register in four steps (place::part). Where a new group is to be made, its group
// operands are mapped to it. Then it is decided what the pieces become, and nothing is written for that
// (placing::plan): a register of no group; one that leads a new group; one in an empty place of a group that is there;
// or pieces among those of the register at that place; or a stop; or, if it is none, a table that is full. Then room
// is made for the pieces, and one walk writes them with their uses and tells what the row needs: the sum of costs, the
// instructions touched, the hint (emit). Last the rows of the register and of its group are set, with the least weight
// of its members (placing::finish).
//
// Behind a cut the same is done with the part that is left, as a recursion, each time with fewer class uses
// (build_part, `build_behind`). When all of the set is placed, its turned uses become conflict registers, instruction
// by instruction (conflicts). Those of one instruction have one value, or there is a stop; they go in rounds: from the
// top class on each use is tried, and one that is not admitted trades places with the last untried one
// (conflicts::round). What is admitted is one register, of a piece that covers the instruction alone, placed as a part
// is (place::conflict); what is left over starts the next one, and a round that admits none is a stop.

ghost use Rattle.std.specs.Prelude.{◌<◌};
ghost use Rattle.words.specs.Words.{word_count, words_of};
ghost use Rattle.job.specs.JobWords.{words_in};
ghost use Rattle.definition.specs.Types.{State};
ghost use Rattle.definition.specs.Place.{empty};
ghost use Rattle.definition.specs.Build.{build_set};
ghost use Rattle.job.specs.Layout.{seg_at};
ghost use Rattle.job.specs.Job.{job_in, job_of};
ghost use Rattle.virt_regs.specs.Encoding.{room_of};
ghost use Rattle.set_runs.specs.Sets.{segs_from};
ghost use Rattle.build.specs.Begun.{Onward};
ghost use Rattle.build.specs.Loop.{build_from};
ghost use Rattle.steps.specs.StateInFrame.{StandsAs};
ghost use Rattle.conflicts.specs.Conflicts.{EndsAs};
ghost use Rattle.conflicts.specs.InFrame.{EndsAs as InFrame·EndsAs};
ghost use Rattle.build.specs.InFrame.{SetReady, SetsReady as InFrame·SetsReady};
ghost use Rattle.build.specs.SetsSets.{SetsReady};

use build_part::build_part;
use conflicts::conflicts;
use frame::{Frame, frame_of};
use job::work::WorkLayout;
use job::{Job, Layout};
use placing::end::NotPlaced;
use set_part::whole_part;
use set_runs::{set_at, set_end, top_at};
use virt_regs::{Counts, OutLayout};

// A set, segments a to b - 1: the steps over all of it, then its conflict registers.
pub fn build_set(
    fr: &Frame,
    out: &mut [u8],
    work: &mut [u8],
    a: usize,
    b: usize,
    c: Counts,
) -> Result<Counts, NotPlaced>
    requires { SetReady fr.now work.old out.old a b c }
    ensures onward { b < fr.now.job.lay.segments.n → Onward (word_count fr.now.job.bytes.now) (word_count work.old) (words_in fr.now.job) (words_of work.new) fr.now.job.lay fr.now.wl (seg_at (words_in fr.now.job) fr.now.job.lay b).first }
    ensures ends_as { (st : State) → StandsAs fr.now out.old work.old c st
        → InFrame·EndsAs fr.now out.new work.new result
        (build_set (job_in fr.now.job) (room_of fr.now.ol) (segs_from (words_in fr.now.job) fr.now.job.lay a b) st) }
{
    let job = &fr.job;
    let sp = whole_part(job, a, b);
    let set = set_at(job, a);
    let top = top_at(job, a);
    let r = build_part(fr, out, work, set, top, sp, c, 0)?;
    conflicts(fr, out, work, set, top, r.turned, r.counts)
}

// No row of any table.
const NONE: Counts = Counts {
    regs: 0,
    segs: 0,
    uses: 0,
    groups: 0,
};

// "It takes the value sets by rising number": the segments of a job that is accepted stand in that order.
fn each_set(fr: &Frame, out: &mut [u8], work: &mut [u8]) -> Result<Counts, NotPlaced>
    requires { InFrame·SetsReady fr.now work.old out.old }
    ensures { InFrame·EndsAs fr.now out.new work.new result
        (build_from (words_in fr.now.job) fr.now.job.lay (room_of fr.now.ol) 0 empty) }
{
    let job = &fr.job;
    let n = job.lay.segments.n;
    let mut a = 0;
    let mut c = NONE;
    // Set by set, and where one ends is known when it is reached: no index counts here.
    while a < n {
        let b = set_end(job, a);
        c = build_set(fr, out, work, a, b, c)?;
        a = b;
    }
    Ok(c)
}

// All sets of a job. The tables need lie in the slice only where there is a segment: so it takes the slice and the
// layouts, and makes the frame.
pub fn build_sets(
    job: &[u8],
    lay: &Layout,
    out: &mut [u8],
    ol: OutLayout,
    work: &mut [u8],
    wl: WorkLayout,
) -> Result<Counts, NotPlaced>
    requires { SetsReady (word_count job.now) (word_count work.old) (word_count out.old) (words_of job.now) (words_of work.old) (words_of out.old) lay.now wl ol }
    ensures { EndsAs (job_of (words_of job.now) lay.now) ol (words_of job.now) lay.now wl (words_of out.new) (words_of work.new) result
        (build_from (words_of job.now) lay.now (room_of ol) 0 empty) }
{
    if lay.segments.n == 0 {
        return Ok(NONE);
    }
    let lent = Job {
        bytes: job,
        lay: *lay,
    };
    each_set(&frame_of(&lent, ol, wl), out, work)
}
