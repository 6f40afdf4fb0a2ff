// builder.rs's VirtRegBuilderConstraints: what a register under construction holds, and whether a use is admitted.
#![tactic(auto)]

ghost use Rattle.std.specs.Prelude.{◌≡◌, true, ◌+◌, ◌*◌, ◌≤◌, ◌<◌};
ghost use Rattle.words.specs.Words.{word_count, words_of};
ghost use Rattle.job.specs.JobWords.{words_in};
ghost use Rattle.definition.specs.Types.{State};
ghost use Rattle.definition.specs.Admit.{mapping_fits, group_fits, admit_class, admit_group};
ghost use Rattle.definition.specs.Admit as admission;
ghost use Rattle.values.specs.OperandRows.{last_place};
ghost use Rattle.job.specs.Job.{job_in};
ghost use Rattle.virt_regs.specs.Encoding.{tables_end, Holds};
ghost use Rattle.constraints.specs.Places.{option_of};
ghost use Rattle.constraints.specs.Held.{group_of, held_of, admission_of, into_group};
ghost use Rattle.constraints.specs.Asks.{ask_of};
ghost use Rattle.constraints.specs.Ready.{operands_in, Backed, HasOperand};
ghost use Rattle.constraints.specs.InFrame.{Ready, Stands, OperandIs, Said};

pub mod members;

use definition::{Inst, RegClass, Use, UseKind, ValueSet, VirtReg, VirtRegGroup};
use frame::Frame;
use job::Job;
use values::operands::Index;

// What the group uses before hold: their index, the group that their operands are mapped to, and the value sets of its members.
#[derive(Clone, Copy)]
pub struct HeldGroup {
    pub index: u32,
    pub mapped: Option<VirtRegGroup>,
    pub sets: [ValueSet; 8],
}

// What is held: the class, what group uses hold, if there were some, and the register to merge into.
#[derive(Clone, Copy)]
pub struct Held {
    pub class: RegClass,
    pub group: Option<HeldGroup>,
    pub target: Option<VirtReg>,
}

// What the operand of a group use says: the group that it is mapped to, and the value sets of its members.
#[derive(Clone, Copy)]
pub struct OperandGroup {
    pub mapped: Option<VirtRegGroup>,
    pub sets: [ValueSet; 8],
}

// A group use: the slot of its operand, its class and its index.
#[derive(Clone, Copy)]
pub struct GroupUse {
    pub slot: u32,
    pub class: RegClass,
    pub index: u32,
}

// What a use asks of its register: anything will do, a class, or a place in a group.
#[derive(Clone, Copy)]
pub enum Ask {
    Any,
    Class(RegClass),
    Group(GroupUse),
}

pub fn ask_of(kind: UseKind) -> Ask
    ensures { result ≡ ask_of kind }
{
    match kind {
        UseKind::ClassUse { class, .. } | UseKind::ClassDef { class, .. } => Ask::Class(class),
        UseKind::GroupClassUse {
            slot,
            class,
            group_index,
        }
        | UseKind::GroupClassDef {
            slot,
            class,
            group_index,
        } => Ask::Group(GroupUse {
            slot: u32::from(slot),
            class,
            index: u32::from(group_index),
        }),
        UseKind::FixedDef { .. }
        | UseKind::FixedUse { .. }
        | UseKind::TiedUse { .. }
        | UseKind::ConstraintConflict
        | UseKind::BlockparamIn { .. }
        | UseKind::BlockparamOut => Ask::Any,
    }
}

// A class use needs a common subclass of the class held and its own.
fn admit_class(job: &Job, held: Held, c: RegClass) -> Option<Held>
    ensures { admission_of result ≡ admit_class (job_in job.now) (held_of held) c }
{
    let class = reginfo::common_subclass(&job::rows::classes(job), held.class, c)?;
    Some(Held { class, ..held })
}

// Whether a mapping held before, a, lets b be held.
fn mapping_fits(a: Option<VirtRegGroup>, b: Option<VirtRegGroup>) -> bool
    ensures { result ≡ mapping_fits (option_of a) (option_of b) }
{
    a.is_none() || a == b
}

// Whether what the group uses before hold lets a group use have this index, mapping and value sets.
fn group_fits(before: Option<HeldGroup>, index: u32, g: OperandGroup) -> bool
    ensures { result ≡ group_fits (group_of before) index (option_of g.mapped) g.sets }
{
    let Some(held) = before else {
        return true;
    };
    let same = held.index == index;
    same && mapping_fits(held.mapped, g.mapped) && values::same_sets(held.sets, g.sets)
}

// What operand k says.
fn operand_group(fr: &Frame, work: &[u8], k: usize) -> OperandGroup
    requires { Ready fr.now work.now × (k < fr.now.job.lay.operands.n) }
    ensures { OperandIs fr.now work.now k result }
{
    let job = &fr.job;
    let wl = &fr.wl;
    let lay = &job.lay;
    let at = lay.operands.at;
    let o = values::operands::operand_at(job.bytes, at + k * 4);
    let g = o.vgroup.0 as usize;
    let row = lay.vgroups.at + g * 9;
    let mapping = wl.mapping;
    let w = words::word_at(work, mapping + k);
    OperandGroup {
        mapped: crate::members::number_in(w).map(VirtRegGroup),
        sets: values::value_sets(&job::rows::values(job), row),
    }
}

// The operand at an instruction and slot. At an instruction that the job does not have there is none.
pub fn find_operand(fr: &Frame, work: &[u8], p: Inst, slot: u32) -> Option<usize>
    requires { Ready fr.now work.now }
    ensures { result ≡ last_place (operands_in (words_in fr.now.job) fr.now.job.lay)
        fr.now.job.lay.operands.n p.0 slot }
{
    let job = &fr.job;
    let chains = job::work::chains_in(&job.lay, fr.wl);
    if chains.insts <= p.0 as usize {
        return None;
    }
    let index = Index {
        job: job.bytes,
        work,
        chains,
    };
    values::operands::find_operand(&index, p, slot)
}

// What the operand at an instruction and slot says. An accepted job has an operand for each of its group uses.
fn find_group(fr: &Frame, work: &[u8], p: Inst, slot: u32) -> Option<OperandGroup>
    requires { Ready fr.now work.now }
    ensures { HasOperand (job_in fr.now.job) p slot → Said fr.now work.now p slot result }
{
    let k = find_operand(fr, work, p, slot)?;
    Some(operand_group(fr, work, k))
}

// A group use with index i, whose operand says g; k is the common subclass of the class held and its own.
fn admit_into(
    fr: &Frame,
    out: &[u8],
    held: Held,
    k: RegClass,
    i: u32,
    g: OperandGroup,
) -> Option<Held>
    requires { tables_end fr.now.ol ≤ word_count out.now }
    ensures { (st : State) → Holds fr.now.ol (words_of out.now) st → admission_of result ≡ into_group (job_in fr.now.job) st (held_of held) k i (option_of g.mapped) g.sets }
{
    if !group_fits(held.group, i, g) {
        return None;
    }
    let n = crate::members::in_group(fr, out, held.class, held.target, k, g.mapped, i)?;
    let sets = g.sets;
    let group = HeldGroup {
        index: i,
        mapped: g.mapped,
        sets,
    };
    Some(Held {
        class: n.class,
        group: Some(group),
        target: n.target,
    })
}

// A group use needs its operand's group, index and value sets to fit besides.
fn admit_group(
    fr: &Frame,
    out: &[u8],
    work: &[u8],
    held: Held,
    p: Inst,
    u: GroupUse,
) -> Option<Held>
    requires { Ready fr.now work.now × (tables_end fr.now.ol ≤ word_count out.now) }
    ensures { (st : State) → Stands fr.now out.now work.now st → HasOperand (job_in fr.now.job) p u.slot → admission_of result ≡ admit_group (job_in fr.now.job) st (held_of held) p u.slot u.class u.index }
{
    let g = find_group(fr, work, p, u.slot)?;
    let k = reginfo::common_subclass(&job::rows::classes(&fr.job), held.class, u.class)?;
    admit_into(fr, out, held, k, u.index, g)
}

// Whether a use is admitted, and what is then held. Kinds other than class uses are always admitted. Inlined, so that
// what is held is not copied in and out at each use.
#[inline(always)]
pub fn admit(fr: &Frame, out: &[u8], work: &[u8], held: Held, u: Use) -> Option<Held>
    requires { Ready fr.now work.now × (tables_end fr.now.ol ≤ word_count out.now) }
    ensures { (st : State) → Stands fr.now out.now work.now st → Backed (job_in fr.now.job) u → admission_of result ≡ admission.admit (job_in fr.now.job) st (held_of held) u }
{
    let job = &fr.job;
    let p = u.pos;
    match ask_of(u.kind) {
        Ask::Any => Some(held),
        Ask::Class(c) => admit_class(job, held, c),
        Ask::Group(g) => admit_group(fr, out, work, held, p, g),
    }
}
