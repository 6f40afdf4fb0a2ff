// builder.rs: the scans over uses, and the step that they lead to.
#![tactic(auto)]

ghost use Rattle.std.specs.Prelude.{◌≡◌, ℕ, ◌+◌, ◌-◌, ◌*◌, ◌≤◌, ◌<◌, IfSome};
ghost use Rattle.std.specs.Float.{binary32};
ghost use Rattle.std.specs.Float.Ieee.{of_bits};
ghost use Rattle.words.specs.Tab.{tab, down};
ghost use Rattle.words.specs.Words.{word_count};
ghost use Rattle.job.specs.JobWords.{words_in};
ghost use Rattle.definition.specs.Types.{State};
ghost use Rattle.definition.specs.Entry.{insts_of};
ghost use Rattle.definition.specs.SplitPlacement.{side_of};
ghost use Rattle.definition.specs.RegInfo.{class_at};
ghost use Rattle.definition.specs.Admit.{admit, fresh, turning, cut_side, parted, move};
ghost use Rattle.vreg_weight.specs.Book.{SmallBook};
ghost use Rattle.function.specs.Blocks.{blocks_at};
ghost use Rattle.job.specs.Job.{job_in};
ghost use Rattle.virt_regs.specs.Encoding.{tables_end};
ghost use Rattle.constraints.specs.Held.{held_of, admission_of};
ghost use Rattle.scans.specs.Answers.{scan_of, back_of, Ends, Passed, move_of};
ghost use Rattle.frame.specs.InFrame.{marked_use};
ghost use Rattle.constraints.specs.InFrame.{Ready, Stands};

pub mod walk;

use constraints::Held;
use definition::{Inst, RegClass, Side, Stop, Use};
use frame::Frame;
use function::starts::BlockStarts;
use job::Job;

// The number of the use that a scan could not admit, if it did not go through; and what is held when it ends.
// No Result: what is held is there in both cases, so that a Result would carry it twice.
#[derive(Clone, Copy)]
pub struct ScanAnswer {
    pub failed: Option<usize>,
    pub held: Held,
}

// The step that the scans lead to: place all; turn a use by its number; make a cut; or stop.
#[derive(Clone, Copy)]
pub enum Move {
    Whole,
    Turn(usize),
    Cut(Inst),
    Halt(Stop),
}

// The step that the scans lead to; and what the forward scan held where it ended, with that use's number. What is held is
// there for each step, so that `Whole` would carry it twice.
#[derive(Clone, Copy)]
pub struct NextMove {
    pub step: Move,
    pub held: Held,
    pub end: usize,
}

// Use n of the job; a conflict if it is marked.
pub fn marked_use(fr: &Frame, work: &[u8], n: usize) -> Use
    requires { Ready fr.now work.now × (n < fr.now.job.lay.uses.n) }
    ensures { result ≡ marked_use fr.now work.now n }
{
    let job = &fr.job;
    let wl = &fr.wl;
    set_part::mark::marked_use(job, work, wl.marks, n)
}

// What is held before any use.
pub fn fresh_held(top: RegClass) -> Held
    ensures { held_of result ≡ fresh top }
{
    Held {
        class: top,
        group: None,
        target: None,
    }
}

// Whether use n is admitted. Inlined as admit is.
#[inline(always)]
fn admit_at(fr: &Frame, out: &[u8], work: &[u8], held: Held, n: usize) -> Option<Held>
    requires { Ready fr.now work.now × (tables_end fr.now.ol ≤ word_count out.now) × (n < fr.now.job.lay.uses.n) × (0 < fr.now.job.lay.segments.n) }
    ensures { (st : State) → Stands fr.now out.now work.now st → admission_of result ≡ admit (job_in fr.now.job) st (held_of held) (marked_use fr.now work.now n) }
{
    let u = marked_use(fr, work, n);
    constraints::admit(fr, out, work, held, u)
}

// The scan over the uses with numbers a to b - 1: class uses are walked over, and each group use between is admitted.
// a and b are two numbers and no Range, here and wherever they go: `for` takes them as a..b, and a Range is not Copy.
pub fn scan_uses(fr: &Frame, out: &[u8], work: &[u8], first: Held, a: usize, b: usize) -> ScanAnswer
    requires { Ready fr.now work.now × (tables_end fr.now.ol ≤ word_count out.now) × (a ≤ b) × (b ≤ fr.now.job.lay.uses.n) × (0 < fr.now.job.lay.segments.n) }
    ensures within { IfSome result.failed (λ n. (a ≤ n) × (n < b)) }
    ensures ends { (st : State)
        → Stands fr.now out.now work.now st
        → Ends (job_in fr.now.job) st
        (tab (marked_use fr.now work.now) a (b - a))
        (held_of first) (scan_of a result) result.held }
{
    let mut held = first;
    let mut n = a;
    while n < b {
        let w = crate::walk::walk_uses(fr, work, held.class, n, b);
        held = Held {
            class: w.class,
            ..held
        };
        if w.refused {
            return ScanAnswer {
                failed: Some(w.at),
                held,
            };
        }
        if b <= w.at {
            return ScanAnswer { failed: None, held };
        }
        let behind = w.at + 1;
        let Some(next) = admit_at(fr, out, work, held, w.at) else {
            return ScanAnswer {
                failed: Some(w.at),
                held,
            };
        };
        held = next;
        n = behind;
    }
    ScanAnswer { failed: None, held }
}

// The scan over the uses from number e back to number a, by the same two ways.
pub fn scan_back(fr: &Frame, out: &[u8], work: &[u8], first: Held, a: usize, e: usize) -> ScanAnswer
    requires { Ready fr.now work.now × (tables_end fr.now.ol ≤ word_count out.now) × (a ≤ e) × (e < fr.now.job.lay.uses.n) × (0 < fr.now.job.lay.segments.n) }
    ensures within { IfSome result.failed (λ n. (a ≤ n) × (n ≤ e)) }
    ensures ends { (st : State)
        → Stands fr.now out.now work.now st
        → Ends (job_in fr.now.job) st
        (down (λ j. marked_use fr.now work.now (a + j))
        (e + 1 - a)) (held_of first) (back_of e result) result.held }
{
    let mut held = first;
    let mut n = e + 1;
    while a < n {
        let w = crate::walk::walk_back(fr, work, held.class, a, n);
        held = Held {
            class: w.class,
            ..held
        };
        if w.at <= a {
            return ScanAnswer { failed: None, held };
        }
        let m = w.at - 1;
        if w.refused {
            return ScanAnswer {
                failed: Some(m),
                held,
            };
        }
        let Some(next) = admit_at(fr, out, work, held, m) else {
            return ScanAnswer {
                failed: Some(m),
                held,
            };
        };
        held = next;
        n = m;
    }
    ScanAnswer { failed: None, held }
}

// The use with number n is turned; a stop where it is a definition.
fn turn_at(fr: &Frame, work: &[u8], n: usize) -> Move
    requires { Ready fr.now work.now × (n < fr.now.job.lay.uses.n) }
    ensures { (a b : ℕ) (h : Held) → a ≤ n → n < b → move_of a h result ≡ turning (tab (marked_use fr.now work.now) a (b - a)) (n - a) }
{
    let u = marked_use(fr, work, n);
    if uses::is_def(u.kind) {
        return Move::Halt(Stop::TurnedDef);
    }
    Move::Turn(n)
}

// The bits of the cost of class c; an unknown class costs nothing.
fn cost_bits(job: &Job, c: RegClass) -> u32
    requires { SmallBook (words_in job.now) job.now.lay }
    ensures { (result ≤ 0x4980_0000)
        × (of_bits binary32 result ≡ (class_at (job_in job.now) c).cost) }
{
    let lay = &job.lay;
    let k = c.0 as usize;
    let n = lay.classes.n;
    let at = lay.classes.at;
    if k < n {
        return words::word_at(job.bytes, at + k * 4 + 1);
    }
    0
}

// The side of a cut: early if the forward class costs at least as much as the class at the end, else late.
// Costs are compared by their bits: all are finite and not negative.
fn cut_side(job: &Job, forward: RegClass, end: RegClass) -> Side
    requires { SmallBook (words_in job.now) job.now.lay }
    ensures { result ≡ cut_side (job_in job.now) forward end }
{
    let f = cost_bits(job, forward);
    let e = cost_bits(job, end);
    if e <= f {
        return Side::Early;
    }
    Side::Late
}

// The cut between instructions x and y, of this side. Uses do not fall, so x is before y.
fn cut_at(fr: &Frame, work: &[u8], side: Side, x: Inst, y: Inst) -> Inst
    requires { Ready fr.now work.now × (x.0 < 4096)
        × (y.0 < insts_of (blocks_at (words_in fr.now.job) fr.now.job.lay.blocks.at fr.now.job.lay.blocks.n)) }
    ensures { result.0 ≡ side_of side
        (blocks_at (words_in fr.now.job) fr.now.job.lay.blocks.at fr.now.job.lay.blocks.n) x.0 y.0 }
{
    if x < y {
        let t = BlockStarts {
            words: work,
            at: fr.wl.starts,
            n: fr.job.lay.blocks.n as u32,
        };
        return split_placement::cut(&t, x, y, side);
    }
    match side {
        Side::Early => Inst(x.0 + 1),
        Side::Late => y,
    }
}

// What start s and end e lead to. If they share an instruction the end is turned, or the start where the end is a
// definition; else a cut is made between them, of this side.
fn part_at(fr: &Frame, work: &[u8], side: Side, s: usize, e: usize) -> Move
    requires { Ready fr.now work.now
        × (s < fr.now.job.lay.uses.n) × (e < fr.now.job.lay.uses.n) × (0 < fr.now.job.lay.segments.n) }
    ensures { (a b : ℕ) (h : Held) → a ≤ s → s < b → a ≤ e → e < b
        → move_of a h result ≡ parted (job_in fr.now.job) side
        (tab (marked_use fr.now work.now) a (b - a))
        (s - a) (e - a) }
{
    let x = marked_use(fr, work, s);
    let y = marked_use(fr, work, e);
    if x.pos == y.pos {
        if uses::is_def(y.kind) {
            return turn_at(fr, work, s);
        }
        return turn_at(fr, work, e);
    }
    Move::Cut(cut_at(fr, work, side, x.pos, y.pos))
}

// The step that the scans over the uses with numbers a to b - 1 lead to, from the top class, where `held` is what the uses
// below number `at` hold: the forward scan goes on from there. A cut is of the side of the classes that the scans held
// when they failed.
pub fn move_from(
    fr: &Frame,
    out: &[u8],
    work: &[u8],
    top: RegClass,
    a: usize,
    b: usize,
    held: Held,
    at: usize,
) -> NextMove
    requires { Ready fr.now work.now
        × (tables_end fr.now.ol ≤ word_count out.now) × (a ≤ at) × (at ≤ b) × (b ≤ fr.now.job.lay.uses.n)
        × (0 < fr.now.job.lay.segments.n) × SmallBook (words_in fr.now.job) fr.now.job.lay }
    ensures within { (at ≤ result.end) × (result.end ≤ b) }
    ensures moves { (st : State) → Stands fr.now out.now work.now st
        → Passed (job_in fr.now.job) st (marked_use fr.now work.now) top a at held
        → (move_of a result.held result.step ≡ move (job_in fr.now.job) st top (tab (marked_use fr.now work.now) a (b - a)))
        × Passed (job_in fr.now.job) st (marked_use fr.now work.now) top a result.end result.held }
{
    let r = scan_uses(fr, out, work, held, at, b);
    let passed = r.held;
    let Some(e) = r.failed else {
        return NextMove {
            step: Move::Whole,
            held: passed,
            end: b,
        };
    };
    let first = fresh_held(top);
    let back = scan_back(fr, out, work, first, a, e);
    let Some(s) = back.failed else {
        return NextMove {
            step: Move::Halt(Stop::NoStart),
            held: passed,
            end: e,
        };
    };
    let side = cut_side(&fr.job, r.held.class, back.held.class);
    NextMove {
        step: part_at(fr, work, side, s, e),
        held: passed,
        end: e,
    }
}
