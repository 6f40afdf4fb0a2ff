// builder.rs emit_vregs_for_conflicts: the conflict registers of a set, from its rows of turned uses.
#![tactic(auto)]

ghost use Rattle.std.specs.Prelude.{◌≡◌, IfOk, cond, ℕ, ◌+◌, ◌-◌, ◌*◌, ◌≤◌, ◌<◌, eqb, get_or};
ghost use Rattle.std.proofs.Math.Option.{none, some};
ghost use Rattle.words.specs.Words.{word_count, words_of};
ghost use Rattle.job.specs.JobWords.{words_in};
ghost use Rattle.definition.specs.Types.{State, Turned};
ghost use Rattle.definition.specs.Entry.{insts_of};
ghost use Rattle.definition.specs.Build as build;
ghost use Rattle.job.specs.Job.{job_in};
ghost use Rattle.virt_regs.specs.Encoding.{room_of};
ghost use Rattle.pieces.specs.Conflict.{turned_row_at, param_by};
ghost use Rattle.conflicts.specs.Conflicts.{Between, Rounded, IsFirst};
ghost use Rattle.constraints.specs.InFrame.{Ready};
ghost use Rattle.pieces.specs.MapsInFrame.{MapApart};
ghost use Rattle.pieces.specs.ConflictInFrame.{turned_rows_of, RowsOk};
ghost use Rattle.steps.specs.StateInFrame.{StandsAs, Builds};
ghost use Rattle.steps.specs.InFrame.{TurnRoom};
ghost use Rattle.conflicts.specs.InFrame.{Given, EndsAs, RoundAs};

pub mod round;

use crate::round::{one_value, run_end, try_rows};
use definition::{RegClass, Stop, Value, ValueSet};
use frame::Frame;
use pieces::conflict::{First, turned_use};
use place::conflict::place_conflict;
use placing::end::NotPlaced;
use virt_regs::Counts;

// A round placed a register: the rows in use then, and the first of the rows left over.
#[derive(Clone, Copy)]
pub struct RoundEnd {
    pub counts: Counts,
    pub next: usize,
}

// The parameter of row k.
fn param_at(work: &[u8], turned: usize, k: usize) -> Option<u32>
    requires { turned + k * 4 + 4 ≤ word_count work.now }
    ensures { cond (eqb (get_or (words_of work.now) (turned + k * 4 + 2) 0) 0) none (some (get_or (words_of work.now) (turned + k * 4 + 3) 0)) ≡ param_by result }
{
    if words::word_at(work, turned + k * 4 + 2) == 0 {
        None
    } else {
        Some(words::word_at(work, turned + k * 4 + 3))
    }
}

// Row k as the first of its instruction.
fn first_at(fr: &Frame, work: &[u8], k: usize) -> First
    requires { (fr.now.wl.turned + k * 4 + 4 ≤ word_count work.now) × (get_or (words_of work.now) (fr.now.wl.turned + k * 4 + 1) 0 < fr.now.job.lay.uses.n) }
    ensures { IsFirst result (turned_row_at (words_of work.now) fr.now.wl.turned (words_in fr.now.job) fr.now.job.lay k) }
{
    let turned = fr.wl.turned;
    First {
        value: Value(words::word_at(work, turned + k * 4)),
        pos: turned_use(fr, work, k).pos,
        param: param_at(work, turned, k),
    }
}

// "From the top class, the turned uses are tried": one register for those of rows a to b - 1 that are admitted.
fn place_round(
    fr: &Frame,
    out: &mut [u8],
    work: &mut [u8],
    set: ValueSet,
    top: RegClass,
    x: First,
    a: usize,
    b: usize,
    c: Counts,
) -> Result<RoundEnd, NotPlaced>
    requires { Given fr.now work.old out.old a b c × (a < b) × (x.pos.0 < insts_of (job_in fr.now.job).blocks) }
    ensures rounded { Rounded fr.now.job.lay fr.now.wl b (words_of work.old) (words_of work.new) }
    ensures onto_next { IfOk result (λ r. (a < r.next) × (r.next ≤ b) × RowsOk fr.now work.new r.next b) }
    ensures round_as { (st : State) (t : Turned) (f : ℕ) → StandsAs fr.now out.old work.old c st → IsFirst x t
        → RoundAs fr.now out.new work.new b (room_of fr.now.ol) set top t f st
        (turned_rows_of fr.now work.old a b) result }
{
    let r = try_rows(fr, out, work, top, a, b);
    let next = r.end;
    if next == a {
        return Err(NotPlaced::Stopped(Stop::NoneAdmitted));
    }
    let held = r.held;
    let counts = place_conflict(fr, out, work, a, next, x, set, held, c)?;
    Ok(RoundEnd { counts, next })
}

// "those left over start the next register": the registers of rows a to b - 1, of one instruction and value.
pub fn place_rounds(
    fr: &Frame,
    out: &mut [u8],
    work: &mut [u8],
    set: ValueSet,
    top: RegClass,
    x: First,
    a: usize,
    b: usize,
    c: Counts,
) -> Result<Counts, NotPlaced>
    requires { Given fr.now work.old out.old a b c × (x.pos.0 < insts_of (job_in fr.now.job).blocks) }
    ensures rounded { Rounded fr.now.job.lay fr.now.wl b (words_of work.old) (words_of work.new) }
    ensures ends_as { (st : State) (t : Turned) (f : ℕ) → StandsAs fr.now out.old work.old c st → IsFirst x t → b - a ≤ f
        → EndsAs fr.now out.new work.new result
        (build.rounds f (job_in fr.now.job) (room_of fr.now.ol) set top t st (turned_rows_of fr.now work.old a b)) }
{
    let mut i = a;
    let mut n = c;
    // Round by round, and how many rows a round takes is known behind it: no index counts here.
    while i < b {
        let r = place_round(fr, out, work, set, top, x, i, b, n)?;
        n = r.counts;
        i = r.next;
    }
    Ok(n)
}

// The registers of rows a to b - 1, of one instruction: "conflict uses of one instruction differ in value" is a stop.
pub fn at_inst(
    fr: &Frame,
    out: &mut [u8],
    work: &mut [u8],
    set: ValueSet,
    top: RegClass,
    a: usize,
    b: usize,
    c: Counts,
) -> Result<Counts, NotPlaced>
    requires { Given fr.now work.old out.old a b c × (a < b) }
    ensures rounded { Rounded fr.now.job.lay fr.now.wl b (words_of work.old) (words_of work.new) }
    ensures ends_as { (st : State) → StandsAs fr.now out.old work.old c st
        → EndsAs fr.now out.new work.new result
        (build.at_inst (job_in fr.now.job) (room_of fr.now.ol) set top st (turned_rows_of fr.now work.old a b)) }
{
    let wl = &fr.wl;
    let turned = wl.turned;
    if !one_value(work, turned, a, b) {
        return Err(NotPlaced::Stopped(Stop::ValuesDiffer));
    }
    let x = first_at(fr, work, a);
    place_rounds(fr, out, work, set, top, x, a, b, c)
}

// "Conflict registers come after the set's others, instruction by instruction": those of rows 0 to n - 1.
pub fn conflicts(
    fr: &Frame,
    out: &mut [u8],
    work: &mut [u8],
    set: ValueSet,
    top: RegClass,
    n: usize,
    c: Counts,
) -> Result<Counts, NotPlaced>
    requires { Ready fr.now work.old × MapApart fr.now × TurnRoom fr.now work.old × Builds fr.now out.old × (0 < fr.now.job.lay.segments.n)
        × RowsOk fr.now work.old 0 n × ((st : State) × StandsAs fr.now out.old work.old c st) }
    ensures between { Between fr.now.job.lay fr.now.wl (words_of work.old) (words_of work.new) }
    ensures ends_as { (st : State) → StandsAs fr.now out.old work.old c st
        → EndsAs fr.now out.new work.new result
        (build.conflicts (job_in fr.now.job) (room_of fr.now.ol) set top (build.runs build.same_inst (turned_rows_of fr.now work.old 0 n)) st) }
{
    let mut i = 0;
    let mut k = c;
    // Instruction by instruction, and how many rows one has is known when it is reached: no index counts here.
    while i < n {
        let e = run_end(fr, work, i, n);
        k = at_inst(fr, out, work, set, top, i, e, k)?;
        i = e;
    }
    Ok(k)
}
