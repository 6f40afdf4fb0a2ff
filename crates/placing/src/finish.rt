// builder.rs, emit_vreg: a plan carried out around the pieces that a source writes.

ghost use Rattle.std.specs.Prelude.{◌≡◌, List, ℕ, ◌≤◌};
ghost use Rattle.words.specs.Words.{word_count, words_of};
ghost use Rattle.job.specs.JobWords.{words_in};
ghost use Rattle.job.specs.Job.{job_in};
ghost use Rattle.vreg_weight.specs.Book.{SmallBook};
ghost use Rattle.definition.specs.Types.{Held, Piece, State};
ghost use Rattle.definition.specs.Weights.{weight_of};
ghost use Rattle.definition.specs.Place.{segs_of};
ghost use Rattle.virt_regs.specs.Encoding.{tables_end, counts_of, Holds};
ghost use Rattle.vreg_weight.specs.Weighed.{BitsOf};
ghost use Rattle.vreg_weight.specs.InFrame.{Weighable};
ghost use Rattle.placing.specs.Plan.{carry_out};
ghost use Rattle.virt_regs.specs.declared.Counts as counts;
ghost use Rattle.placing.specs.declared.row.Rows as rows;
ghost use Rattle.placing.specs.Filling.{Openable, Opens, Finishable, Filling, pieces_by, RowWithin, Tells, counts_by, LeftBy};

use crate::plan::Plan;
use crate::row::{Rows, add_register};
use definition::{RegClass, ValueSet, VirtReg, VirtRegGroup};
use emit::Tally;
use frame::Frame;
use virt_regs::{Counts, pieces_of};
use vreg_weight::costs::class_data;
use vreg_weight::{WeightBits, least_weight, weight_of_pieces};
use vregs_write::change::{add_group, set_member, spread};
use vregs_write::insert::{Gaps, open_gaps};

// Where the pieces are written: behind the rows in use, or in gaps that are opened for them.
#[inline(always)]
pub fn make_room(fr: &Frame, out: &mut [u8], c: &Counts, p: &Plan, new: &Rows) -> Gaps
    requires { Openable fr.now.ol (words_of out.old) c.now new.now p.now }
    ensures { (st : State) → Holds fr.now.ol (words_of out.old) st → c.now ≡ counts_of st → Opens fr.now.ol st (words_of out.old) c.now new.now result (words_of out.new) p.now }
{
    match *p {
        Plan::Merge { reg, at, .. } => {
            let Rows { pieces, uses, hint } = *new;
            open_gaps(out, fr.ol, *c, reg, at, pieces, uses, hint)
        }
        Plan::Alone | Plan::Lead { .. } | Plan::Join { .. } | Plan::Stop(_) | Plan::Full => Gaps {
            pieces: c.segs,
            uses: c.uses,
        },
    }
}

// The weight of all pieces that the register has then: of those that were written, by what was told of them, or, where
// they stand among others, of all that are in the tables.
#[inline(always)]
pub fn weigh(
    fr: &Frame,
    out: &[u8],
    work: &[u8],
    p: &Plan,
    told: &Tally,
    class: RegClass,
) -> WeightBits
    requires tables { Weighable fr.now work.now × (tables_end fr.now.ol ≤ word_count out.now) × RowWithin fr.now.ol (words_of out.now) p.now }
    requires touched { (1 ≤ told.now.insts) × (told.now.insts ≤ 4096) }
    ensures { (O : List ℕ) (c : counts.Counts) (n : rows.Rows) (st : State) (ps : List Piece) → Filling (job_in fr.now.job) fr.now.ol class O c n st ps (words_of out.now) p.now → Tells (job_in fr.now.job) ps told.now
        → BitsOf result.value (weight_of (job_in fr.now.job) class (segs_of (pieces_by st ps p.now))) }
{
    match *p {
        Plan::Merge { reg, .. } => {
            let s = pieces_of(out, reg);
            weight_of_pieces(fr, out, work, s.first, s.count, class)
        }
        Plan::Alone | Plan::Lead { .. } | Plan::Join { .. } | Plan::Stop(_) | Plan::Full => {
            emit::weight_of(&fr.job, class, told.costs.total, told.insts)
        }
    }
}

// The rows of the register and of its group, and the class and weight of the group's members. The pieces stand where
// the plan says, and w is the weight of all that the register has.
#[inline(always)]
pub fn finish(
    fr: &Frame,
    out: &mut [u8],
    c: &Counts,
    set: ValueSet,
    class: RegClass,
    p: &Plan,
    new: &Rows,
    w: WeightBits,
) -> Counts
    requires { SmallBook (words_in fr.now.job) fr.now.job.lay × (tables_end fr.now.ol ≤ word_count out.old) × Finishable fr.now.ol (words_of out.old) c.now new.now p.now }
    ensures counted { result ≡ counts_by p.now c.now new.now }
    ensures left { (O : List ℕ) (st : State) (ps : List Piece) (h : Held) → h.class ≡ class → Filling (job_in fr.now.job) fr.now.ol class O c.now new.now st ps (words_of out.old) p.now
        → BitsOf w.value (weight_of (job_in fr.now.job) class (segs_of (pieces_by st ps p.now)))
        → LeftBy fr.now.ol (words_of out.new) result (carry_out (job_in fr.now.job) set h ps st p.now) }
{
    match *p {
        Plan::Alone => add_register(out, c, set, class, w.value, 0, 0, new),
        Plan::Lead { index } => {
            let g = c.groups as u32;
            let v = c.regs as u32;
            let n = add_register(out, c, set, class, w.value, g + 1, index, new);
            let size = class_data(&fr.job, class).size;
            add_group(
                out,
                fr.ol,
                VirtRegGroup(g),
                size,
                index as usize,
                VirtReg(v),
            );
            Counts {
                groups: n.groups + 1,
                ..n
            }
        }
        Plan::Join { group, index } => {
            let least = least_weight(out, fr.ol, group, index as usize, w).value;
            let v = c.regs as u32;
            let n = add_register(out, c, set, class, least, group.0 + 1, index, new);
            spread(out, fr.ol, group, class, least);
            set_member(out, fr.ol, group, index as usize, VirtReg(v));
            n
        }
        Plan::Merge { group, index, .. } => {
            let least = least_weight(out, fr.ol, group, index as usize, w).value;
            spread(out, fr.ol, group, class, least);
            Counts {
                segs: c.segs + new.pieces,
                uses: c.uses + new.uses,
                ..*c
            }
        }
        Plan::Stop(_) | Plan::Full => *c,
    }
}
