// The steps over the working part of a set (builder.rs `compute_constraints`): uses are turned, cuts are made and the parts before them placed, until all is placed or there is a stop.
#![tactic(auto)]

ghost use Rattle.std.specs.Prelude.{◌≡◌, ℕ, IfOk};
ghost use Rattle.words.specs.Words.{words_of};
ghost use Rattle.job.specs.JobWords.{words_in};
ghost use Rattle.definition.specs.Types.{State};
ghost use Rattle.definition.proofs.Fuel.{run};
ghost use Rattle.job.specs.Job.{job_in};
ghost use Rattle.virt_regs.specs.Encoding.{room_of};
ghost use Rattle.steps.specs.Built.{Changed};
ghost use Rattle.build_part.specs.Steps.{BuildsTo, StepTo};
ghost use Rattle.scans.specs.Answers.{move_of};
ghost use Rattle.build_part.specs.Turning.{settled_of, settles};
ghost use Rattle.frame.specs.InFrame.{part_segs};
ghost use Rattle.pieces.specs.ConflictInFrame.{turned_rows_of, RowsOk};
ghost use Rattle.steps.specs.StateInFrame.{StandsAs, Builds};
ghost use Rattle.steps.specs.InFrame.{Laid};
ghost use Rattle.constraints.specs.InFrame.{Stands};
ghost use Rattle.build_part.specs.InFrame.{StepReady, Moves, Passes, NextOr, Turning, Stepped, BuiltFit};

use constraints::Held;
use definition::{Inst, RegClass, Stop, ValueSet};
use frame::Frame;
use job::Job;
use place::part::place_part;
use placing::end::NotPlaced;
use scans::Move;
use set_part::SetPart;
use steps::{cut_front, turn_one};
use virt_regs::Counts;

// All steps are done: the rows in use then, and how many uses are turned.
#[derive(Clone, Copy)]
pub struct StepsEnd {
    pub counts: Counts,
    pub turned: usize,
}

// The step that is to be made where no use is turned: all is placed; a cut is made; or a stop.
#[derive(Clone, Copy)]
pub enum Settled {
    Whole,
    Cut(Inst),
    Halt(Stop),
}

// Uses of a part are turned, `turned` in all then, and this is the step behind them. The scans that led to it went on from
// the part's first use to use number `end`, holding `passed`: all uses, where all is placed.
#[derive(Clone, Copy)]
pub struct TurnsEnd {
    pub step: Settled,
    pub turned: usize,
    pub passed: Held,
    pub end: usize,
}

// The part that is placed next, with what its uses hold, and the part behind the cut, if there is a cut.
#[derive(Clone, Copy)]
pub struct Next {
    pub part: SetPart,
    pub held: Held,
    pub behind: Option<SetPart>,
}

// One step: the steps go on with a part, behind `turned` turned uses, or all are done.
#[derive(Clone, Copy)]
pub enum Step {
    On {
        part: SetPart,
        counts: Counts,
        turned: usize,
    },
    Over(StepsEnd),
}

// A step that turns no use; else the use to be turned.
fn settle(step: Move) -> Result<Settled, usize>
    ensures { (a : ℕ) (h : Held) → move_of a h step ≡ settles a h result }
{
    match step {
        Move::Whole => Ok(Settled::Whole),
        Move::Turn(k) => Err(k),
        Move::Cut(p) => Ok(Settled::Cut(p)),
        Move::Halt(s) => Ok(Settled::Halt(s)),
    }
}

// Uses of a part are turned for as long as the scans lead to that. Behind a turned end the scan goes on with what is held,
// since a turned use is admitted and changes nothing; a turned start lies before, so that all is scanned again.
fn turn_uses(
    fr: &Frame,
    out: &[u8],
    work: &mut [u8],
    top: RegClass,
    sp: SetPart,
    n: usize,
) -> TurnsEnd
    requires { Laid fr.now work.old sp n × Builds fr.now out.now × ((st : State) × Stands fr.now out.now work.old st) }
    ensures turning { Turning fr.now work.old work.new out.now top sp n result.turned }
    ensures moves { Moves fr.now work.new out.now top sp (settled_of result.passed result.step) }
    ensures passes { Passes fr.now work.new out.now top sp result.end result.passed }
{
    let first = sp.first;
    let mut held = scans::fresh_held(top);
    let mut at = first;
    let mut turned = n;
    loop {
        let m = scans::move_from(fr, out, work, top, first, sp.end, held, at);
        let k = match settle(m.step) {
            Ok(last) => {
                return TurnsEnd {
                    step: last,
                    turned,
                    passed: m.held,
                    end: m.end,
                };
            }
            Err(k) => k,
        };
        turn_one(fr, work, sp, k.saturating_sub(first), turned);
        turned += 1;
        if k == m.end {
            held = m.held;
            at = k + 1;
        } else {
            held = scans::fresh_held(top);
            at = first;
        }
    }
}

// The part that a step places: the whole, or the part before a cut. Else the stop.
fn next_part(
    fr: &Frame,
    out: &[u8],
    work: &[u8],
    top: RegClass,
    sp: SetPart,
    t: &TurnsEnd,
) -> Result<Next, Stop>
    requires { ((n : ℕ) × Laid fr.now work.now sp n) × Builds fr.now out.now × ((st : State) × Stands fr.now out.now work.now st)
        × Moves fr.now work.now out.now top sp (settled_of t.now.passed t.now.step)
        × Passes fr.now work.now out.now top sp t.now.end t.now.passed }
    ensures { NextOr fr.now work.now out.now top sp result }
{
    match t.step {
        Settled::Whole => {
            let behind = None;
            Ok(Next {
                part: sp,
                held: t.passed,
                behind,
            })
        }
        Settled::Cut(p) => {
            let f = cut_front(fr, out, work, top, sp, p, &t.passed, t.end);
            let behind = Some(f.right);
            Ok(Next {
                part: f.left,
                held: f.held,
                behind,
            })
        }
        Settled::Halt(s) => Err(s),
    }
}

// The uses to be turned, and the step behind them. Not inlined, so that a level of the recursion below takes little stack.
#[inline(never)]
fn one_step(
    fr: &Frame,
    out: &mut [u8],
    work: &mut [u8],
    set: ValueSet,
    top: RegClass,
    sp: SetPart,
    c: Counts,
    n: usize,
) -> Result<Step, NotPlaced>
    requires { StepReady fr.now work.old out.old sp c n }
    ensures stepped { Stepped fr.now work.old work.new sp n result }
    ensures step_to { (st : State) → StandsAs fr.now out.old work.old c st
        → StepTo (words_in fr.now.job) fr.now.job.lay fr.now.ol fr.now.wl set top (words_of out.new) (words_of work.new) result
        (run (job_in fr.now.job) (room_of fr.now.ol) set top st (part_segs fr.now work.old sp) (turned_rows_of fr.now work.old 0 n)) }
{
    let t = turn_uses(fr, out, work, top, sp, n);
    let turned = t.turned;
    let next = match next_part(fr, out, work, top, sp, &t) {
        Ok(next) => next,
        Err(s) => return Err(NotPlaced::Stopped(s)),
    };
    let counts = place_part(fr, out, work, next.part, set, &next.held, c)?;
    match next.behind {
        Some(part) => Ok(Step::On {
            part,
            counts,
            turned,
        }),
        None => Ok(Step::Over(StepsEnd { counts, turned })),
    }
}

// A step, and the part behind the cut by the same steps again: each time fewer class uses are left.
fn build_behind(
    fr: &Frame,
    out: &mut [u8],
    work: &mut [u8],
    set: ValueSet,
    top: RegClass,
    sp: SetPart,
    c: Counts,
    n: usize,
) -> Result<StepsEnd, NotPlaced>
    requires { StepReady fr.now work.old out.old sp c n }
    ensures changed { Changed fr.now.job.lay fr.now.wl sp n (words_of work.old) (words_of work.new) × IfOk result (λ r. RowsOk fr.now work.new 0 r.turned) }
    ensures builds_to { BuildsTo (words_in fr.now.job) fr.now.job.lay fr.now.ol fr.now.wl set top (words_of out.old) (words_of work.old) sp c n (words_of out.new) (words_of work.new) result }
{
    match one_step(fr, out, work, set, top, sp, c, n)? {
        Step::On {
            part,
            counts,
            turned,
        } => build_behind(fr, out, work, set, top, part, counts, turned),
        Step::Over(end) => Ok(end),
    }
}

// All steps over a part, behind n turned uses.
pub fn build_part(
    fr: &Frame,
    out: &mut [u8],
    work: &mut [u8],
    set: ValueSet,
    top: RegClass,
    sp: SetPart,
    c: Counts,
    n: usize,
) -> Result<StepsEnd, NotPlaced>
    requires { Laid fr.now work.old sp n × Builds fr.now out.old
        × ((st : State) × StandsAs fr.now out.old work.old c st) }
    ensures changed { Changed fr.now.job.lay fr.now.wl sp n (words_of work.old) (words_of work.new) × IfOk result (λ r. RowsOk fr.now work.new 0 r.turned) }
    ensures built_fit { (st : State) → StandsAs fr.now out.old work.old c st
        → BuiltFit fr.now out.new work.new result
        (run (job_in fr.now.job) (room_of fr.now.ol) set top st (part_segs fr.now work.old sp) (turned_rows_of fr.now work.old 0 n)) }
{
    build_behind(fr, out, work, set, top, sp, c, n)
}
