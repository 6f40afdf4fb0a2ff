// The piece of a conflict register, from rows of turned uses in the work slice: four words each, value, use number, whether it has a parameter (0 or 1), the parameter.

ghost use Rattle.std.specs.Prelude.{◌≡◌, [], ◌∷◌, ℕ, ◌+◌, ◌-◌, ◌*◌, ◌≤◌, ◌<◌, get_or};
ghost use Rattle.std.proofs.Math.Option.{Option};
ghost use Rattle.words.specs.Words.{word_count, words_of};
ghost use Rattle.job.specs.JobWords.{words_in};
ghost use Rattle.definition.specs.Build.{conflict_piece};
ghost use Rattle.definition.specs.Place.{map_uses, uses_of, segs_of};
ghost use Rattle.pieces.specs.Maps.{Maps};
ghost use Rattle.pieces.specs.Conflict.{conflict_row};
ghost use Rattle.constraints.specs.InFrame.{Ready};
ghost use Rattle.pieces.specs.MapsInFrame.{MapApart};
ghost use Rattle.pieces.specs.ConflictInFrame.{row_use, turned_rows_of, RowsOk};

use crate::maps::NewGroup;
use definition::{Inst, LiveRangePoint, Origin, Use, Value};
use frame::Frame;
use virt_regs::PieceRow;

// What the conflict pieces of one instruction take over of its first turned use.
#[derive(Clone, Copy)]
pub struct First {
    pub value: Value,
    pub pos: Inst,
    pub param: Option<u32>,
}

// The use of turned row k, as it stands in the job.
pub fn turned_use(fr: &Frame, work: &[u8], k: usize) -> Use
    requires { (fr.now.wl.turned + k * 4 + 4 ≤ word_count work.now) × (get_or (words_of work.now) (fr.now.wl.turned + k * 4 + 1) 0 < fr.now.job.lay.uses.n) }
    ensures { result ≡ row_use fr.now work.now k }
{
    let job = &fr.job;
    let turned = fr.wl.turned;
    let lay = &job.lay;
    let n = words::word_at(work, turned + k * 4 + 1) as usize;
    uses::use_at(job.bytes, lay.uses.at + n * 6)
}

// "A conflict piece covers [4p, 4p+2)." Its flags: live-in, without a parameter.
#[tactic(auto, unfolding(crate::specs::Conflict::conflict_row))]
pub fn conflict_row(value: Value, pos: Inst, param: Option<u32>, u: usize, n: usize) -> PieceRow
    requires { (4 * pos.0 + 2 < 4294967296) × (u < 4294967296) × (n < 4294967296) }
    ensures { result ≡ conflict_row value pos param u n }
{
    let at = 4 * pos.0;
    PieceRow {
        value,
        from: LiveRangePoint(at),
        to: LiveRangePoint(at + 2),
        flags: u32::from(param.is_none()),
        origin: Origin::Conflict as u32,
        first: u as u32,
        uses: n as u32,
    }
}

// "A new group maps every group operand of its register": of the conflict piece of rows a to b - 1. Not if one is mapped already.
// Not one with maps::map_part: a closure for the reader of uses would carry its contract.
pub fn map_conflict(fr: &Frame, work: &mut [u8], a: usize, b: usize, g: NewGroup) -> bool
    requires { Ready fr.now work.old × MapApart fr.now × RowsOk fr.now work.old a b × (0 < fr.now.job.lay.segments.n) }
    ensures { (v : Value) (p : Inst) (q : Option ℕ) → Maps (words_in fr.now.job) (words_of work.old) fr.now.job.lay fr.now.wl (map_uses g.group (uses_of (segs_of (conflict_piece v p q (turned_rows_of fr.now work.old a b) ∷ [])))) result (words_of work.new) }
{
    let wl = &fr.wl;
    let turned = wl.turned;
    for i in a..b {
        let u = turned_use(fr, work, i);
        if !crate::maps::map_use(fr, work, u, g) {
            return false;
        }
    }
    true
}
