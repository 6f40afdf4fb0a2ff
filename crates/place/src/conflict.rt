// builder.rs: the register of a conflict piece placed: decided, written, finished.

ghost use Rattle.std.specs.Prelude.{◌≡◌, Option, ℕ, ◌+◌, ◌-◌, ◌^◌, ◌≤◌, ◌<◌};
ghost use Rattle.words.specs.Words.{words_of};
ghost use Rattle.job.specs.JobWords.{words_in};
ghost use Rattle.job.specs.Job.{job_in};
ghost use Rattle.definition.specs.Types.{State};
ghost use Rattle.definition.specs.Place.{uses_of, segs_of, place};
ghost use Rattle.virt_regs.specs.Encoding.{room_of, counts_of};
ghost use Rattle.constraints.specs.Held.{held_of};
ghost use Rattle.constraints.specs.InFrame.{Ready, Stands};
ghost use Rattle.pieces.specs.MapsInFrame.{MapApart};
ghost use Rattle.pieces.specs.Conflict.{open_count};
ghost use Rattle.pieces.specs.ConflictInFrame.{RowsOk};
ghost use Rattle.vreg_weight.specs.InFrame.{Weighable};
ghost use Rattle.placing.specs.EndEnds.{Sane};
ghost use Rattle.placing.specs.InFrame.{Ends};
ghost use Rattle.placing.specs.Held.{HeldFits};
ghost use Rattle.placing.specs.Setting.{MapStep};
ghost use Rattle.place.specs.Asks.{HeldIn};
ghost use Rattle.place.specs.ConflictInFrame.{Asks, pieces_of};

use constraints::Held;
use definition::{Inst, LiveRangePoint, Value, ValueSet, VirtRegGroup};
use emit::{emit_conflict, no_block};
use frame::Frame;
use pieces::conflict::{First, map_conflict};
use pieces::maps::NewGroup;
use placing::end::NotPlaced;
use placing::finish::{finish, make_room, weigh};
use placing::plan::{Measures, decide, leads, placed};
use placing::row::Rows;
use virt_regs::Counts;

// How many uses the piece of rows a to b - 1 has.
fn use_count(param: Option<u32>, a: usize, b: usize) -> usize
    requires { (a ≤ b) × (b < 2 ^ 62) }
    ensures { result ≡ open_count param + (b - a) }
{
    usize::from(param.is_some()) + (b - a)
}

// Where a new group is to be made: maps the group operands of turned rows a to b - 1 to it. Not if one is mapped already.
fn map_new(fr: &Frame, work: &mut [u8], a: usize, b: usize, held: &Held, groups: usize) -> bool
    requires { Ready fr.now work.old × MapApart fr.now × RowsOk fr.now work.old a b × (0 < fr.now.job.lay.segments.n) × (groups + 1 < 2 ^ 32) }
    ensures { (v : Value) (p : Inst) (q : Option ℕ) → MapStep (words_in fr.now.job) (words_of work.old) fr.now.job.lay fr.now.wl held.now groups (uses_of (segs_of (pieces_of fr.now work.old a b v p q))) result (words_of work.new) }
{
    if !leads(held) {
        return true;
    }
    let group = VirtRegGroup(groups as u32);
    let g = NewGroup { group };
    map_conflict(fr, work, a, b, g)
}

// The register of the conflict piece of rows a to b - 1, by what is held.
pub fn place_conflict(
    fr: &Frame,
    out: &mut [u8],
    work: &mut [u8],
    a: usize,
    b: usize,
    x: First,
    set: ValueSet,
    held: Held,
    c: Counts,
) -> Result<Counts, NotPlaced>
    requires { Weighable fr.now work.old × Asks fr.now work.old out.old a b x.pos c (HeldIn (job_in fr.now.job) held) }
    ensures { (st : State) → Stands fr.now out.old work.old st → c ≡ counts_of st → Sane (job_in fr.now.job) st → HeldFits (job_in fr.now.job) st held
        → Ends fr.now work.old out.new work.new result
        (place (job_in fr.now.job) (room_of fr.now.ol) set (held_of held) (pieces_of fr.now work.old a b x.value x.pos x.param) st) }
{
    let free = map_new(fr, work, a, b, &held, c.groups);
    let from = 4 * x.pos.0;
    let new = Measures {
        pieces: 1,
        uses: use_count(x.param, a, b),
        from: LiveRangePoint(from),
        to: LiveRangePoint(from + 2),
    };
    let p = decide(fr, out, &c, &held, &new, free);
    placed(&p)?;
    let rows = Rows {
        pieces: 1,
        uses: new.uses,
        hint: false,
    };
    let at = make_room(fr, out, &c, &p, &rows);
    let told = emit_conflict(fr, work, a, b, x, out, at.pieces, at.uses, no_block());
    let w = weigh(fr, out, work, &p, &told, held.class);
    Ok(finish(fr, out, &c, set, held.class, &p, &rows, w))
}
