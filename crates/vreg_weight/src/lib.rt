// The spill weight of pieces that stand in the result tables, and the least of a group's weights.
// Words of the result tables that a piece or a place can't hold are tested for; such a piece or place adds nothing.
#![tactic(auto)]

ghost use Rattle.std.specs.Prelude.{◌≡◌, List, ℕ, ◌+◌, ◌*◌, ◌≤◌, ◌<◌, length, get_or, Float};
ghost use Rattle.std.proofs.Math.Option.{none};
ghost use Rattle.std.specs.Float.{binary32};
ghost use Rattle.std.specs.Float.Ieee.{to_bits, of_bits};
ghost use Rattle.words.specs.Words.{word_count, words_of};
ghost use Rattle.job.specs.Job.{job_in};
ghost use Rattle.definition.specs.Types.{Piece, State};
ghost use Rattle.definition.specs.RegInfo.{zero_f, value_at};
ghost use Rattle.definition.specs.LiveRange.{live_insts};
ghost use Rattle.definition.specs.Weights.{min_f, sum_uses, sum_segs, weight_of};
ghost use Rattle.definition.specs.Admit.{members_at};
ghost use Rattle.definition.specs.Place.{least_weight, uses_of, segs_of};
ghost use Rattle.uses.specs.Rows.{uses_in};
ghost use Rattle.live_range.specs.Ranges.{ranges_in, range_insts};
ghost use Rattle.virt_regs.specs.Encoding.{tables_end, Weighs};
ghost use Rattle.vreg_weight.specs.Shown.{Shown, FirstShown};
ghost use Rattle.vreg_weight.specs.Members.{Members};
ghost use Rattle.vreg_weight.specs.Weighed.{Inside, BitsOf, lesser_at};
ghost use Rattle.vreg_weight.specs.InFrame.{Weighable};
ghost use Rattle.vreg_weight.specs.InWeighing.{weighed_job};

pub mod costs;
mod weighing;
mod weight_bits;

use definition::{Block, Inst, RegClass, Remat, VirtReg, VirtRegGroup};
use frame::Frame;
use function::starts::BlockStarts;
use virt_regs::OutLayout;
pub use weighing::Weighing;
pub use weight_bits::WeightBits;
use weights::Sum;
use words::rows::{Rows, row_at};

// The sum with the costs of uses. The block of the use before is tried first.
pub fn sum_uses(by: &Weighing, uses: &Rows<6>, remat: Remat, sum: Sum) -> Sum
    ensures { Inside (weighed_job by.now) (uses_in uses.now) → result.value ≡ sum_uses (weighed_job by.now) remat sum.value (uses_in uses.now) }
{
    let job = &by.fr.job;
    let t = BlockStarts {
        words: by.work,
        at: by.fr.wl.starts,
        n: job.lay.blocks.n as u32,
    };
    let mut total = sum;
    let mut b = Block(0);
    for i in 0..uses.n {
        let u = uses::use_at(uses.words, row_at(uses, i));
        b = crate::costs::block_near(&t, b, u.pos);
        let cost = crate::costs::use_cost(job, u.kind);
        let frequency = crate::costs::frequency_of(&t, b);
        total = weights::add_use(total, by.options, remat, cost, frequency);
    }
    total
}

// The sum with the uses of piece i.
pub fn sum_piece(by: &Weighing, out: &[u8], sum: Sum, i: usize) -> Sum
    requires { (tables_end by.now.fr.now.ol ≤ word_count out.now) × (i < by.now.fr.now.ol.segs) }
    ensures { (u : ℕ) (q : Piece) (ps : List Piece) → FirstShown by.now.fr.now.ol (words_of out.now) i u q ps → Inside (weighed_job by.now) q.seg.uses → result.value ≡ sum_uses (weighed_job by.now) (value_at (weighed_job by.now) q.seg.value).remat sum.value q.seg.uses }
{
    let job = &by.fr.job;
    let ol = &by.fr.ol;
    let row = virt_regs::piece_at(out, by.fr.ol, i);
    let first = row.first as usize;
    let n = row.uses as usize;
    if ol.uses < first + n {
        return sum;
    }
    let remat = crate::costs::remat_at(job, row.value);
    let uses = Rows {
        words: out,
        at: ol.use_base() + first * 6,
        n,
    };
    sum_uses(by, &uses, remat, sum)
}

// The sum of the n pieces from piece p on.
pub fn sum_pieces(by: &Weighing, out: &[u8], p: usize, n: usize) -> Sum
    requires { (tables_end by.now.fr.now.ol ≤ word_count out.now) × (p + n ≤ by.now.fr.now.ol.segs) }
    ensures { (u : ℕ) (ps : List Piece) → Shown by.now.fr.now.ol (words_of out.now) p u ps → length ps ≡ n → Inside (weighed_job by.now) (uses_of (segs_of ps)) → result.value ≡ sum_segs (weighed_job by.now) zero_f (segs_of ps) }
{
    let mut sum = Sum::zero();
    for i in 0..n {
        sum = sum_piece(by, out, sum, p + i);
    }
    sum
}

// The different instructions that pieces touch: `live_insts` where that is 1 to 4096.
pub fn count_insts(pieces: &Rows<7>) -> u32
    ensures { (1 ≤ result) × (result ≤ 4096)
        × (1 ≤ range_insts (ranges_in pieces.now) → range_insts (ranges_in pieces.now) ≤ 4096 → result ≡ range_insts (ranges_in pieces.now)) }
{
    let mut sum: u32 = 0;
    let mut counted = Inst(0);
    for i in 0..pieces.n {
        let s = live_range::insts::range_at(pieces.words, row_at(pieces, i));
        let more = live_range::insts::new_insts(counted, s);
        if 4096 - sum < more {
            return 4096;
        }
        sum += more;
        counted = live_range::next_inst(s.to);
    }
    sum.max(1)
}

// The bits of the weight of the n pieces from piece p on, in class c.
pub fn weight_of_pieces(
    fr: &Frame,
    out: &[u8],
    work: &[u8],
    p: usize,
    n: usize,
    c: RegClass,
) -> WeightBits
    requires { Weighable fr.now work.now × (tables_end fr.now.ol ≤ word_count out.now) × (p + n ≤ fr.now.ol.segs) }
    ensures { (u : ℕ) (ps : List Piece) → Shown fr.now.ol (words_of out.now) p u ps → length ps ≡ n → Inside (job_in fr.now.job) (uses_of (segs_of ps)) → 1 ≤ live_insts (segs_of ps) → live_insts (segs_of ps) ≤ 4096 → BitsOf result.value (weight_of (job_in fr.now.job) c (segs_of ps)) }
{
    let job = &fr.job;
    let ol = &fr.ol;
    let lay = &job.lay;
    let options = job::options_at(job.bytes, lay.opts);
    let by = Weighing { fr, work, options };
    let sum = sum_pieces(&by, out, p, n);
    let pieces = Rows {
        words: out,
        at: ol.seg_base() + p * 7,
        n,
    };
    let insts = count_insts(&pieces);
    let data = crate::costs::class_data(job, c);
    let w = weights::weight(sum, insts, options.adjust, data.spillslots);
    let value = weights::floats::bits_of(w);
    WeightBits { value }
}

// The lesser of w and the weight of the register that a place's word names, if any.
// The word is as the lent table has it for C, so no Option: the register + 1, 0 for none, or any other.
pub fn lesser_at(out: &[u8], ol: OutLayout, m: u32, w: WeightBits) -> WeightBits
    requires { tables_end ol ≤ word_count out.now }
    ensures { (m ≡ 0 → result.value ≡ w.value) × ((v : VirtReg) (x : Float) → m ≡ v.0 + 1 → v.0 < ol.regs → get_or (words_of out.now) (v.0 * 8 + 2) 0 ≡ to_bits binary32 x → Weighs x → of_bits binary32 result.value ≡ min_f (of_bits binary32 w.value) x) }
{
    if m == 0 {
        return w;
    }
    if ol.regs < m as usize {
        return w;
    }
    let bits = virt_regs::weight_of(out, VirtReg(m - 1));
    if 0x7f800000 < bits {
        return w;
    }
    let value = weights::floats::lesser_bits(w.value, bits);
    WeightBits { value }
}

// The same for place j of group g; place i is left out.
pub fn lesser_other(
    out: &[u8],
    ol: OutLayout,
    g: VirtRegGroup,
    i: usize,
    j: usize,
    w: WeightBits,
) -> WeightBits
    requires { (tables_end ol ≤ word_count out.now) × (g.0 < ol.groups) × (j < 8) }
    ensures { (st : State) → Members ol (words_of out.now) st g → of_bits binary32 result.value ≡ lesser_at st i j (get_or (members_at st g) j none) (of_bits binary32 w.value) }
{
    if i == j {
        return w;
    }
    lesser_at(out, ol, virt_regs::member_at(out, ol, g, j), w)
}

// The bits of the least of w and the weights of group g's members at other places than i.
pub fn least_weight(
    out: &[u8],
    ol: OutLayout,
    g: VirtRegGroup,
    i: usize,
    w: WeightBits,
) -> WeightBits
    requires { (tables_end ol ≤ word_count out.now) × (g.0 < ol.groups) }
    ensures { (st : State) → Members ol (words_of out.now) st g → BitsOf result.value (least_weight st i 0 (members_at st g) (of_bits binary32 w.value)) }
{
    let mut least = w;
    for j in 0..8 {
        least = lesser_other(out, ol, g, i, j, least);
    }
    least
}
