// One walk over the pieces of a part or of a conflict register: their rows and their uses' rows are put into the result
// tables, and what a register's row asks of them is told on the way: the sum of costs in the definition's order, the
// instructions touched, the fixed hint. A use is the six words of its row; it is never decoded.
#![tactic(auto)]

ghost use Rattle.std.specs.Prelude.{◌≡◌, false, List, [], ◌∷◌, ℕ, ◌+◌, ◌-◌, ◌*◌, ◌≤◌, ◌<◌};
ghost use Rattle.std.proofs.Math.Option.{Option};
ghost use Rattle.words.specs.Tab.{tab};
ghost use Rattle.words.specs.Parts.{splice};
ghost use Rattle.words.specs.Words.{word_count, words_of};
ghost use Rattle.job.specs.JobWords.{words_in};
ghost use Rattle.job.specs.declared.Layout as spec_layout;
ghost use Rattle.definition.specs.declared.BlockData.{BlockData};
ghost use Rattle.definition.specs.declared.Use as spec_use;
ghost use Rattle.definition.specs.Types.{Segment};
ghost use Rattle.definition.specs.RegInfo.{zero_f, class_at};
ghost use Rattle.definition.specs.LiveRange.{live_insts};
ghost use Rattle.definition.specs.Entry.{insts_of};
ghost use Rattle.definition.specs.Weights.{sum_segs, weight_of};
ghost use Rattle.definition.specs.Build.{as_own, opening, conflict_piece};
ghost use Rattle.job.specs.Job.{job_in};
ghost use Rattle.uses.specs.Rows.{use_row};
ghost use Rattle.set_part.specs.Part as part;
ghost use Rattle.vreg_weight.specs.Book.{SmallBook};
ghost use Rattle.live_range.specs.Ranges.{new_insts};
ghost use Rattle.virt_regs.specs.Encoding.{use_base, tables_end, use_words};
ghost use Rattle.vreg_weight.specs.Weighed.{Inside, BitsOf};
ghost use Rattle.vreg_weight.specs.Fair.{Fair};
ghost use Rattle.vreg_weight.specs.InFrame.{Weighable};
ghost use Rattle.vreg_weight.specs.InWeighing.{weighed_job};
ghost use Rattle.frame.specs.InFrame.{part_segs, PartOk};
ghost use Rattle.pieces.specs.Conflict.{param_by, open_count};
ghost use Rattle.pieces.specs.ConflictInFrame.{turned_rows_of, RowsOk};
ghost use Rattle.emit.specs.Told.{NearFits, NearAt, kind_use, cost_by, use_adds, InsideRun, own_piece, range_in};
ghost use Rattle.emit.specs.Told.{Counted, Told};
ghost use Rattle.emit.specs.InWalk.{tables_in, blocks_in, use_in, turned_in, UsesOk, UsesAdd, PieceAdds};

mod near;
mod tally;

use definition::{Block, Inst, PhysReg, RegClass, Remat};
use frame::Frame;
use function::starts::{BlockStarts, start_at};
use job::Job;
use live_range::insts::LiveRangeSegment;
pub use near::Near;
use pieces::conflict::{First, conflict_row};
use pieces::part::piece_row;
use set_part::{PartSeg, SetPart};
pub use tally::{Costs, Tally};
use vreg_weight::{Weighing, WeightBits};
use weights::{Cost, Plain, Sum, fixed_cost};
use words::word_at;

// The words of a use's row, from its kind's number, its instruction and four fields: fields modulo their UseKind types,
// zeros behind them. Kinds 4 and 5, the class uses of no group, are most uses: they go first.
#[tactic(auto, unfolding(uses::specs::Rows::kind_of))]
fn use_words(kind: u32, pos: u32, a: u32, b: u32, c: u32, d: u32) -> [u32; 6]
    ensures { result ≡ use_words (kind_use kind pos a b c d) }
{
    let slot = a % 65536;
    if kind / 2 == 2 {
        return [kind, pos, slot, b, 0, 0];
    }
    match kind {
        0 => [0, pos, a, 0, 0, 0],
        1 => [1, pos, a, 0, 0, 0],
        2 => [2, pos, slot, b % 65536, c, d % 256],
        6 => [6, pos, slot, b, c % 256, 0],
        7 => [7, pos, slot, b, c % 256, 0],
        8 => [8, pos, a, 0, 0, 0],
        9 => [9, pos, 0, 0, 0, 0],
        _ => [3, pos, 0, 0, 0, 0],
    }
}

// The words of the use whose row begins at word i.
#[inline(always)]
#[tactic(auto, unfolding(uses::specs::Rows::use_row))]
fn words_at(t: &[u8], i: usize) -> [u32; 6]
    requires { i + 6 ≤ word_count t.now }
    ensures { result ≡ use_words (use_row (words_of t.now) i) }
{
    use_words(
        word_at(t, i),
        word_at(t, i + 1),
        word_at(t, i + 2),
        word_at(t, i + 3),
        word_at(t, i + 4),
        word_at(t, i + 5),
    )
}

// The words of a use of the job whose row begins at word i: of a conflict if its mark, word `mark`, is set.
fn marked_words(job: &[u8], i: usize, work: &[u8], mark: usize) -> [u32; 6]
    requires { (i + 6 ≤ word_count job.now) × (mark < word_count work.now) }
    ensures { (marks n : ℕ) (lay : spec_layout.Layout) → i ≡ lay.uses.at + n * 6 → mark ≡ marks + n
        → result ≡ use_words (part.marked_use (words_of work.now) marks (words_of job.now) lay n) }
{
    if word_at(work, mark) == 0 {
        return words_at(job, i);
    }
    [3, word_at(job, i + 1), 0, 0, 0, 0]
}

// The cost of a class use.
fn class_cost(job: &Job, c: u32) -> Cost
    requires { SmallBook (words_in job.now) job.now.lay }
    ensures { result.value ≡ (class_at (job_in job.now) (record { 0 = c })).cost }
{
    let d = vreg_weight::costs::class_data(job, RegClass(c));
    Cost { value: d.cost }
}

// The cost of a fixed use.
fn reg_cost(job: &Job, r: u32) -> Cost
    ensures { result.value ≡ cost_by (job_in job.now) 0 r 0 }
{
    fixed_cost(vreg_weight::costs::in_memory(job, PhysReg(r)))
}

// The cost of a use, off the words of its row: its kind's number and the first two fields.
#[inline(always)]
#[tactic(auto, unfolding(crate::specs::Told::cost_by))]
fn row_cost(job: &Job, kind: u32, a: u32, b: u32) -> Cost
    requires { SmallBook (words_in job.now) job.now.lay }
    ensures { result.value ≡ cost_by (job_in job.now) kind a b }
{
    if kind / 2 == 2 {
        return class_cost(job, b);
    }
    match kind {
        0 => reg_cost(job, a),
        1 => reg_cost(job, a),
        6 => class_cost(job, b),
        7 => class_cost(job, b),
        8 => Cost { value: 0.0 },
        9 => Cost { value: 0.0 },
        _ => Cost { value: 0.5 },
    }
}

// No block yet.
pub fn no_block() -> Near
    ensures { (bs : List BlockData) → NearFits bs result }
{
    Near {
        low: Inst(0),
        high: Inst(0),
        freq: Plain { value: 0.0 },
    }
}

// The block of an instruction, by search.
fn near_at(by: &Weighing, pos: Inst) -> Near
    ensures { NearAt (blocks_in by.now) pos.0 result }
{
    let t = BlockStarts {
        words: by.work,
        at: by.fr.wl.starts,
        n: by.fr.job.lay.blocks.n as u32,
    };
    let b = function::starts::block_of(&t, pos);
    Near {
        low: start_at(&t, b),
        high: start_at(&t, Block(b.0 + 1)),
        freq: vreg_weight::costs::frequency_of(&t, b),
    }
}

// The block of an instruction: the one at hand if it holds it.
#[inline(always)]
fn nearer(by: &Weighing, near: Near, pos: Inst) -> Near
    requires { NearFits (blocks_in by.now) near }
    ensures { NearAt (blocks_in by.now) pos.0 result }
{
    if pos.0 < near.low.0 {
        return near_at(by, pos);
    }
    if near.high.0 <= pos.0 {
        return near_at(by, pos);
    }
    near
}

// A use with the words x, put from word `to` on, and the costs with it.
#[inline(always)]
fn emit_use(by: &Weighing, remat: Remat, x: [u32; 6], out: &mut [u8], to: usize, s: Costs) -> Costs
    requires { (to + 6 ≤ word_count out.old) × NearFits (blocks_in by.now) s.near }
    ensures { (words_of out.new ≡ splice (words_of out.old) to x) × NearFits (blocks_in by.now) result.near
        × ((u : spec_use.Use) → x ≡ use_words u → u.pos.0 < insts_of (blocks_in by.now)
        → result.total.value ≡ use_adds (weighed_job by.now) remat s.total.value u) }
{
    let cost = row_cost(&by.fr.job, x[0], x[2], x[3]);
    let near = nearer(by, s.near, Inst(x[1]));
    words::put_row(out, to, x);
    let total = weights::add_use(s.total, by.options, remat, cost, near.freq);
    Costs { total, near }
}

// Uses a to b - 1 of the job, marked ones as conflicts, from use row u on.
fn emit_uses(
    by: &Weighing,
    remat: Remat,
    a: usize,
    b: usize,
    out: &mut [u8],
    u: usize,
    costs: Costs,
) -> Costs
    requires uses { UsesOk by.now a b }
    requires room { (tables_end (tables_in by.now) ≤ word_count out.old) × (u + (b - a) ≤ (tables_in by.now).uses) }
    requires near { NearFits (blocks_in by.now) costs.near }
    ensures { UsesAdd by.now u remat (tab (use_in by.now) a (b - a)) (words_of out.old) costs
        (words_of out.new) result }
{
    let job = &by.fr.job;
    let lay = &job.lay;
    let ol = &by.fr.ol;
    let marks = by.fr.wl.marks;
    let mut row = lay.uses.at + a * 6;
    let mut to = ol.use_base() + u * 6;
    let mut s = costs;
    for i in a..b {
        let x = marked_words(job.bytes, row, by.work, marks + i);
        s = emit_use(by, remat, x, out, to, s);
        row += 6;
        to += 6;
    }
    s
}

// "If the list of the first turned use began with a BlockparamIn at p, the piece begins with it too", as use row u.
fn emit_opening(
    by: &Weighing,
    remat: Remat,
    pos: Inst,
    param: Option<u32>,
    out: &mut [u8],
    u: usize,
    costs: Costs,
) -> Costs
    requires uses { Inside (weighed_job by.now) (opening pos (param_by param)) }
    requires room { (tables_end (tables_in by.now) ≤ word_count out.old)
        × (u + open_count param ≤ (tables_in by.now).uses) }
    requires near { NearFits (blocks_in by.now) costs.near }
    ensures { UsesAdd by.now u remat (opening pos (param_by param)) (words_of out.old) costs (words_of out.new) result }
{
    let ol = &by.fr.ol;
    let Some(q) = param else {
        return costs;
    };
    let x = [8, pos.0, q, 0, 0, 0];
    emit_use(by, remat, x, out, ol.use_base() + u * 6, costs)
}

// The uses of turned rows a to b - 1, as they stand in the job, from use row u on.
fn emit_turned(
    by: &Weighing,
    remat: Remat,
    a: usize,
    b: usize,
    out: &mut [u8],
    u: usize,
    costs: Costs,
) -> Costs
    requires uses { RowsOk by.now.fr.now by.now.work.now a b × InsideRun (weighed_job by.now) (turned_in by.now) a b }
    requires room { (tables_end (tables_in by.now) ≤ word_count out.old) × (u + (b - a) ≤ (tables_in by.now).uses) }
    requires near { NearFits (blocks_in by.now) costs.near }
    ensures { UsesAdd by.now u remat (tab (turned_in by.now) a (b - a)) (words_of out.old) costs
        (words_of out.new) result }
{
    let job = &by.fr.job;
    let lay = &job.lay;
    let ol = &by.fr.ol;
    let turned = by.fr.wl.turned;
    let mut s = costs;
    for i in a..b {
        let n = word_at(by.work, turned + i * 4 + 1) as usize;
        let x = words_at(job.bytes, lay.uses.at + n * 6);
        s = emit_use(by, remat, x, out, ol.use_base() + (u + (i - a)) * 6, s);
    }
    s
}

// What a piece adds beside its uses: the instructions that no piece before touched, and its hint.
fn count_piece(t: Tally, s: LiveRangeSegment, hint: bool, costs: Costs) -> Tally
    requires { t.insts + new_insts t.counted.0 s ≤ 4096 }
    ensures { Counted t s hint costs result }
{
    Tally {
        costs,
        insts: t.insts + live_range::insts::new_insts(t.counted, s),
        counted: live_range::next_inst(s.to),
        hint: t.hint || hint,
    }
}

// A piece of the job's uses, put as piece row p, its uses from use row u on.
fn emit_piece(by: &Weighing, s: PartSeg, out: &mut [u8], p: usize, u: usize, t: Tally) -> Tally
    requires uses { UsesOk by.now s.first s.end }
    requires room { (tables_end (tables_in by.now) ≤ word_count out.old) × (p < (tables_in by.now).segs)
        × (u + (s.end - s.first) ≤ (tables_in by.now).uses) × (u + (s.end - s.first) < 4294967296) }
    requires before { NearFits (blocks_in by.now) t.costs.near × (t.insts + new_insts t.counted.0 (range_in s) ≤ 4096) }
    ensures { PieceAdds by.now p u (own_piece (use_in by.now) s) (words_of out.old) t (words_of out.new) result }
{
    let row = piece_row(s, u);
    vregs_write::put::put_piece(out, by.fr.ol, p, row);
    let remat = vreg_weight::costs::remat_at(&by.fr.job, s.value);
    let costs = emit_uses(by, remat, s.first, s.end, out, u, t.costs);
    let range = LiveRangeSegment {
        from: s.from,
        to: s.to,
    };
    count_piece(t, range, s.flags.fixedhint, costs)
}

// Nothing told yet.
fn no_pieces(near: Near) -> Tally
    ensures { (result.costs.near ≡ near) × (result.costs.total.value ≡ zero_f)
        × (result.insts ≡ 0) × (result.counted.0 ≡ 0) × (result.hint ≡ false) }
{
    let total = Sum::zero();
    Tally {
        costs: Costs { total, near },
        insts: 0,
        counted: Inst(0),
        hint: false,
    }
}

// The pieces of a working part from piece row p on, their uses from use row u on. `near` is the block of the use
// before.
pub fn emit_part(
    fr: &Frame,
    work: &[u8],
    sp: SetPart,
    out: &mut [u8],
    p: usize,
    u: usize,
    near: Near,
) -> Tally
    requires fits { Weighable fr.now work.now × PartOk fr.now sp
        × (fr.now.wl.marks + fr.now.job.lay.uses.n ≤ word_count work.now)
        × (tables_end fr.now.ol ≤ word_count out.old) }
    requires room { (p + (sp.last + 1 - sp.seg) ≤ fr.now.ol.segs) × (u + (sp.end - sp.first) ≤ fr.now.ol.uses)
        × (u + (sp.end - sp.first) < 4294967296) }
    requires fair { Fair (job_in fr.now.job) 4096 (as_own (part_segs fr.now work.now sp)) }
    requires near { NearFits (job_in fr.now.job).blocks near }
    ensures { Told (job_in fr.now.job) fr.now.ol (words_of out.old) p u (as_own (part_segs fr.now work.now sp))
        (words_of out.new) result }
{
    let job = &fr.job;
    let lay = &job.lay;
    let options = job::options_at(job.bytes, lay.opts);
    let by = Weighing { fr, work, options };
    let mut t = no_pieces(near);
    for i in sp.seg..sp.last + 1 {
        let s = set_part::part_seg(job, sp, i);
        let k = u + (s.first - sp.first);
        t = emit_piece(&by, s, out, p + (i - sp.seg), k, t);
    }
    t
}

// The piece of the turned rows a to b - 1, as piece row p, its uses from use row u on. `near` is the block of the use
// before.
pub fn emit_conflict(
    fr: &Frame,
    work: &[u8],
    a: usize,
    b: usize,
    x: First,
    out: &mut [u8],
    p: usize,
    u: usize,
    near: Near,
) -> Tally
    requires fits { Weighable fr.now work.now × RowsOk fr.now work.now a b
        × (tables_end fr.now.ol ≤ word_count out.old) }
    requires room { (p < fr.now.ol.segs) × (u + (open_count x.param + (b - a)) ≤ fr.now.ol.uses)
        × (u + (open_count x.param + (b - a)) < 4294967296) }
    requires fair { Fair (job_in fr.now.job) 4096
        (conflict_piece x.value x.pos (param_by x.param) (turned_rows_of fr.now work.now a b) ∷ []) }
    requires near { NearFits (job_in fr.now.job).blocks near }
    ensures { Told (job_in fr.now.job) fr.now.ol (words_of out.old) p u
        (conflict_piece x.value x.pos (param_by x.param) (turned_rows_of fr.now work.now a b) ∷ [])
        (words_of out.new) result }
{
    let job = &fr.job;
    let lay = &job.lay;
    let options = job::options_at(job.bytes, lay.opts);
    let by = Weighing { fr, work, options };
    let k = usize::from(x.param.is_some());
    let row = conflict_row(x.value, x.pos, x.param, u, k + (b - a));
    vregs_write::put::put_piece(out, fr.ol, p, row);
    let remat = vreg_weight::costs::remat_at(job, x.value);
    let t = no_pieces(near);
    let begun = emit_opening(&by, remat, x.pos, x.param, out, u, t.costs);
    let costs = emit_turned(&by, remat, a, b, out, u + k, begun);
    let range = LiveRangeSegment {
        from: row.from,
        to: row.to,
    };
    count_piece(t, range, false, costs)
}

// The bits of the weight, in class c, of pieces with this sum of costs that touch so many instructions.
pub fn weight_of(job: &Job, c: RegClass, total: Sum, insts: u32) -> WeightBits
    requires { SmallBook (words_in job.now) job.now.lay × (1 ≤ insts) × (insts ≤ 4096) }
    ensures { (ss : List Segment) → total.value ≡ sum_segs (job_in job.now) zero_f ss → insts ≡ live_insts ss
        → BitsOf result.value (weight_of (job_in job.now) c ss) }
{
    let lay = &job.lay;
    let k = word_at(job.bytes, lay.opts);
    let data = vreg_weight::costs::class_data(job, c);
    let w = weights::weight(total, insts, k, data.spillslots);
    let value = weights::floats::bits_of(w);
    WeightBits { value }
}
