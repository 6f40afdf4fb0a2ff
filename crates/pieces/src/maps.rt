// The group operands of a part's uses mapped to a new group, in the work slice's table of mappings.

ghost use Rattle.std.specs.Prelude.{◌≡◌, ◌+◌, ◌<◌};
ghost use Rattle.std.proofs.Math.Option.{some};
ghost use Rattle.words.specs.Words.{word_count, words_of};
ghost use Rattle.job.specs.JobWords.{words_in};
ghost use Rattle.definition.specs.Uses.{slot_of};
ghost use Rattle.definition.specs.Place.{map_one, map_uses, uses_of};
ghost use Rattle.job.specs.Job.{job_in};
ghost use Rattle.constraints.specs.Ready.{Backed, HasOperand};
ghost use Rattle.pieces.specs.Maps.{slot_given, PutAt, Maps, map_use};
ghost use Rattle.frame.specs.InFrame.{part_segs, PartOk};
ghost use Rattle.constraints.specs.InFrame.{Ready};
ghost use Rattle.pieces.specs.MapsInFrame.{MapApart};

mod new_group;

use definition::{Inst, Use, UseKind};
use frame::Frame;
use job::work::WorkLayout;
pub use new_group::NewGroup;
use set_part::SetPart;

// The slot of a group use; other uses have none.
fn group_slot(kind: UseKind) -> Option<u32>
    ensures { result ≡ slot_given (slot_of kind) }
{
    match kind {
        UseKind::GroupClassUse { slot, .. } | UseKind::GroupClassDef { slot, .. } => Some(u32::from(
            slot,
        )),
        UseKind::FixedDef { .. }
        | UseKind::FixedUse { .. }
        | UseKind::TiedUse { .. }
        | UseKind::ConstraintConflict
        | UseKind::ClassUse { .. }
        | UseKind::ClassDef { .. }
        | UseKind::BlockparamIn { .. }
        | UseKind::BlockparamOut => None,
    }
}

// Maps operand k to group g, if it is not mapped.
fn map_at(work: &mut [u8], wl: WorkLayout, k: usize, g: NewGroup) -> bool
    requires { wl.mapping + k < word_count work.old }
    ensures { PutAt (words_of work.old) (wl.mapping + k) g.group.0 result (words_of work.new) }
{
    let at = wl.mapping + k;
    if words::word_at(work, at) != 0 {
        return false;
    }
    words::put_word(work, at, g.group.0 + 1);
    true
}

// Maps the operand at an instruction and slot to group g; not if it is mapped. An accepted job has an operand for each of its group uses.
fn map_operand(fr: &Frame, work: &mut [u8], p: Inst, slot: u32, g: NewGroup) -> bool
    requires { Ready fr.now work.old × HasOperand (job_in fr.now.job) p slot }
    ensures { Maps (words_in fr.now.job) (words_of work.old) fr.now.job.lay fr.now.wl (map_one p (some slot) g.group) result (words_of work.new) }
{
    match constraints::find_operand(fr, work, p, slot) {
        Some(k) => map_at(work, fr.wl, k, g),
        None => false,
    }
}

// Maps the operand of a use, if it is a group use.
pub fn map_use(fr: &Frame, work: &mut [u8], u: Use, g: NewGroup) -> bool
    requires { Ready fr.now work.old × Backed (job_in fr.now.job) u }
    ensures { Maps (words_in fr.now.job) (words_of work.old) fr.now.job.lay fr.now.wl (map_use g.group u) result (words_of work.new) }
{
    match group_slot(u.kind) {
        Some(slot) => map_operand(fr, work, u.pos, slot, g),
        None => true,
    }
}

// "A new group maps every group operand of its register": of a part. Not if one is mapped already.
// Not one with conflict::map_conflict: a closure for the reader of uses would carry its contract.
pub fn map_part(fr: &Frame, work: &mut [u8], sp: SetPart, g: NewGroup) -> bool
    requires { Ready fr.now work.old × MapApart fr.now × PartOk fr.now sp }
    ensures { Maps (words_in fr.now.job) (words_of work.old) fr.now.job.lay fr.now.wl (map_uses g.group (uses_of (part_segs fr.now work.old sp))) result (words_of work.new) }
{
    let job = &fr.job;
    let wl = &fr.wl;
    for i in sp.first..sp.end {
        let u = set_part::mark::marked_use(job, work, wl.marks, i);
        if !map_use(fr, work, u, g) {
            return false;
        }
    }
    true
}
