// The steps over the working part of a set (builder.rs `compute_constraints`).
#![tactic(auto)]

ghost use Rattle.std.specs.Prelude.{◌≡◌, true, ◌+◌, ◌-◌, ◌*◌, ◌≤◌, ◌<◌};
ghost use Rattle.words.specs.Parts.{splice};
ghost use Rattle.words.specs.RowsAt.{rows_at};
ghost use Rattle.words.specs.Words.{word_count, words_of};
ghost use Rattle.job.specs.JobWords.{words_in};
ghost use Rattle.definition.specs.Types.{State};
ghost use Rattle.definition.specs.Entry.{chained, not_after};
ghost use Rattle.definition.specs.Cuts.{left_cut};
ghost use Rattle.definition.specs.Admit.{cut, fresh, move, scan, through};
ghost use Rattle.definition.specs.Place.{uses_of};
ghost use Rattle.definition.proofs.Fits.{SegsFit};
ghost use Rattle.hints.specs.Hints.{hint_at};
ghost use Rattle.job.specs.Job.{job_in};
ghost use Rattle.set_part.specs.Cut.{cut_part};
ghost use Rattle.virt_regs.specs.Encoding.{tables_end};
ghost use Rattle.constraints.specs.Held.{held_of};
ghost use Rattle.set_part.specs.Turned.{turned_row};
ghost use Rattle.steps.specs.Turns.{turned_words, turned_once};
ghost use Rattle.scans.specs.Answers.{Passed};
ghost use Rattle.frame.specs.InFrame.{marked_use, part_segs, PartOk};
ghost use Rattle.constraints.specs.InFrame.{Ready, Stands};
ghost use Rattle.steps.specs.InFrame.{TurnRoom};

use constraints::Held;
use definition::{Inst, RegClass};
use frame::Frame;
use set_part::SetPart;
use set_part::mark::TurnedRow;

// Turned row n.
fn put_turned(work: &mut [u8], turned: usize, n: usize, row: TurnedRow)
    requires { (turned + n * 4 + 4 ≤ word_count work.old) × (row.number < 4294967296) }
    ensures { words_of work.new ≡ splice (words_of work.old) (turned + n * 4) (turned_words row) }
{
    let number = row.number as u32;
    let has = u32::from(row.param.is_some());
    let param = row.param.unwrap_or(0);
    words::put_row(work, turned + n * 4, [row.value.0, number, has, param]);
}

// Turns the use at place i of a part: it is kept as turned row n, and marked.
pub fn turn_one(fr: &Frame, work: &mut [u8], sp: SetPart, i: usize, n: usize)
    requires { PartOk fr.now sp × TurnRoom fr.now work.old × (sp.first + i < sp.end) × (n < fr.now.job.lay.uses.n) }
    ensures { words_of work.new ≡ turned_once (words_of work.old) fr.now.wl n (turned_row (words_of work.old) fr.now.wl.marks (words_in fr.now.job) fr.now.job.lay sp i) }
{
    let job = &fr.job;
    let wl = &fr.wl;
    let row = set_part::mark::turned_at(job, work, wl.marks, sp, i);
    put_turned(work, wl.turned, n, row);
    set_part::mark::mark(work, wl.marks, sp.first + i);
}

// The sides of a cut, and what is held of the uses before it.
#[derive(Clone, Copy)]
pub struct Front {
    pub left: SetPart,
    pub right: SetPart,
    pub held: Held,
}

// A part cut at p, and what is held of the uses before the cut. Where these end at use number `end`, what the uses up to it
// hold is known: `passed`. Else they are scanned, which goes through.
pub fn cut_front(
    fr: &Frame,
    out: &[u8],
    work: &[u8],
    top: RegClass,
    sp: SetPart,
    p: Inst,
    passed: &Held,
    end: usize,
) -> Front
    requires { Ready fr.now work.now × (tables_end fr.now.ol ≤ word_count out.now) × PartOk fr.now sp
        × (sp.«from».0 < 4 * p.0) × (4 * p.0 < sp.to.0) × (chained not_after (rows_at hint_at (words_in fr.now.job) fr.now.job.lay.hints.at 3 fr.now.job.lay.hints.n) ≡ true) }
    ensures parts { (result.left ≡ (cut_part (job_in fr.now.job).hints (words_in fr.now.job) fr.now.job.lay p sp).left) × (result.right ≡ (cut_part (job_in fr.now.job).hints (words_in fr.now.job) fr.now.job.lay p sp).right) }
    ensures top_held { (st : State) → Stands fr.now out.now work.now st
        → Passed (job_in fr.now.job) st (marked_use fr.now work.now) top sp.first end passed.now
        → SegsFit 0 (part_segs fr.now work.now sp)
        → move (job_in fr.now.job) st top (uses_of (part_segs fr.now work.now sp)) ≡ cut p
        → scan (job_in fr.now.job) st (uses_of (left_cut (job_in fr.now.job).hints p (part_segs fr.now work.now sp))) (fresh top) ≡ through (held_of result.held) }
{
    let job = &fr.job;
    let parts = set_part::cuts::cut_part(job, sp, p);
    let left = parts.left;
    let right = parts.right;
    if left.end == end {
        let held = *passed;
        return Front { left, right, held };
    }
    let first = scans::fresh_held(top);
    let r = scans::scan_uses(fr, out, work, first, left.first, left.end);
    let held = r.held;
    Front { left, right, held }
}
