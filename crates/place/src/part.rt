// builder.rs: a working part placed as a register: decided, written, finished.

ghost use Rattle.std.specs.Prelude.{◌+◌, ◌^◌, ◌<◌};
ghost use Rattle.words.specs.Words.{words_of};
ghost use Rattle.job.specs.JobWords.{words_in};
ghost use Rattle.definition.specs.Types.{State};
ghost use Rattle.definition.specs.Place.{uses_of, segs_of, place};
ghost use Rattle.job.specs.Job.{job_in};
ghost use Rattle.virt_regs.specs.Encoding.{room_of};
ghost use Rattle.constraints.specs.Held.{held_of};
ghost use Rattle.constraints.specs.InFrame.{Ready};
ghost use Rattle.pieces.specs.MapsInFrame.{MapApart};
ghost use Rattle.vreg_weight.specs.Fair.{Fair};
ghost use Rattle.placing.specs.Held.{HeldFits};
ghost use Rattle.placing.specs.InFrame.{Ends};
ghost use Rattle.placing.specs.Setting.{MapStep};
ghost use Rattle.frame.specs.InFrame.{PartOk};
ghost use Rattle.place.specs.PartInFrame.{Asked, Standing, new_pieces};

use constraints::Held;
use definition::{ValueSet, VirtRegGroup};
use emit::{emit_part, no_block};
use frame::Frame;
use pieces::maps::{NewGroup, map_part};
use pieces::part::hint_in_part;
use placing::end::NotPlaced;
use placing::finish::{finish, make_room, weigh};
use placing::plan::{Measures, decide, leads, placed};
use placing::row::Rows;
use set_part::SetPart;
use virt_regs::Counts;

// Where a new group is to be made: maps the part's group operands to it. Not if one is mapped already.
fn map_new(fr: &Frame, work: &mut [u8], sp: SetPart, held: &Held, groups: usize) -> bool
    requires { Ready fr.now work.old × MapApart fr.now × PartOk fr.now sp × (groups + 1 < 2 ^ 32) }
    ensures { MapStep (words_in fr.now.job) (words_of work.old) fr.now.job.lay fr.now.wl held.now groups (uses_of (segs_of (new_pieces fr.now work.old sp))) result (words_of work.new) }
{
    if !leads(held) {
        return true;
    }
    let group = VirtRegGroup(groups as u32);
    let g = NewGroup { group };
    map_part(fr, work, sp, g)
}

// As what is held says.
pub fn place_part(
    fr: &Frame,
    out: &mut [u8],
    work: &mut [u8],
    sp: SetPart,
    set: ValueSet,
    held: &Held,
    c: Counts,
) -> Result<Counts, NotPlaced>
    requires { Asked fr.now work.old out.old sp held.now c }
    ensures { (st : State) → Standing fr.now out.old work.old c st → HeldFits (job_in fr.now.job) st held.now
        → Fair (job_in fr.now.job) 4096 (new_pieces fr.now work.old sp)
        → Ends fr.now work.old out.new work.new result (place (job_in fr.now.job) (room_of fr.now.ol) set (held_of held.now) (new_pieces fr.now work.old sp) st) }
{
    let free = map_new(fr, work, sp, held, c.groups);
    let new = Measures {
        pieces: sp.last + 1 - sp.seg,
        uses: sp.end - sp.first,
        from: sp.from,
        to: sp.to,
    };
    let p = decide(fr, out, &c, held, &new, free);
    placed(&p)?;
    let rows = Rows {
        pieces: new.pieces,
        uses: new.uses,
        hint: hint_in_part(&fr.job, sp),
    };
    let at = make_room(fr, out, &c, &p, &rows);
    let told = emit_part(fr, work, sp, out, at.pieces, at.uses, no_block());
    let w = weigh(fr, out, work, &p, &told, held.class);
    Ok(finish(fr, out, &c, set, held.class, &p, &rows, w))
}
