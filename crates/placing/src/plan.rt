// builder.rs, emit_vreg: what a register will become is decided here, and nothing is written.
// "8 if one register meets both" stands here alone: a stop is found before room is looked for.

ghost use Rattle.std.specs.Prelude.{◌≡◌, Bool, not, Some, List, length, ◌≤◌, ◌<◌};
ghost use Rattle.std.proofs.Math.Option.{Option, none, some};
ghost use Rattle.words.specs.Words.{word_count, words_of};
ghost use Rattle.definition.specs.Types.{Piece, State};
ghost use Rattle.constraints.specs.Places.{option_of};
ghost use Rattle.virt_regs.specs.Encoding.{tables_end, room_of, counts_of, Holds};
ghost use Rattle.constraints.specs.Held.{group_of, held_of};
ghost use Rattle.placing.specs.Plan.{is_stop, registers_more, groups_more, way_group, way_by, plan_from};
ghost use Rattle.placing.specs.Asked.{leads, RowIn, Measured, TargetIn, Asked};
ghost use Rattle.placing.specs.PlanEnds.{placed_by};

use crate::end::NotPlaced;
use constraints::Held;
use definition::{LiveRangePoint, Stop, VirtReg, VirtRegGroup};
use frame::Frame;
use virt_regs::Counts;
use vregs_write::find::find_place;
use vregs_write::put::has_room;

// How a register is placed: in no group, in a place of a new group, in a group's empty place, or before piece `at` of a
// group's register; or why it is not: a stop, or a full table.
#[derive(Clone, Copy)]
pub enum Plan {
    Alone,
    Lead {
        index: u32,
    },
    Join {
        group: VirtRegGroup,
        index: u32,
    },
    Merge {
        group: VirtRegGroup,
        reg: VirtReg,
        index: u32,
        at: usize,
    },
    Stop(Stop),
    Full,
}

// What a source will write: how many pieces, how many uses in all, and where they begin and end.
#[derive(Clone, Copy)]
pub struct Measures {
    pub pieces: usize,
    pub uses: usize,
    pub from: LiveRangePoint,
    pub to: LiveRangePoint,
}

// Whether a new group is to be made: its register's group operands are mapped to it.
pub fn leads(held: &Held) -> bool
    ensures { result ≡ leads held.now.group }
{
    match &held.group {
        None => false,
        Some(group) => group.mapped.is_none(),
    }
}

// Whether a register is made or added to, or why not.
pub fn placed(p: &Plan) -> Result<(), NotPlaced>
    ensures { result ≡ placed_by p.now }
{
    match *p {
        Plan::Alone | Plan::Lead { .. } | Plan::Join { .. } | Plan::Merge { .. } => Ok(()),
        Plan::Stop(stop) => Err(NotPlaced::Stopped(stop)),
        Plan::Full => Err(NotPlaced::Full),
    }
}

fn is_stop(p: &Plan) -> bool
    ensures { result ≡ is_stop p.now }
{
    match *p {
        Plan::Stop(_) => true,
        Plan::Alone | Plan::Lead { .. } | Plan::Join { .. } | Plan::Merge { .. } | Plan::Full => {
            false
        }
    }
}

// How many registers more there are then. "Merging adds no register."
fn registers_more(p: &Plan) -> usize
    ensures { result ≡ registers_more p.now }
{
    match *p {
        Plan::Alone | Plan::Lead { .. } | Plan::Join { .. } => 1,
        Plan::Merge { .. } | Plan::Stop(_) | Plan::Full => 0,
    }
}

// How many groups more.
fn groups_more(p: &Plan) -> usize
    ensures { result ≡ groups_more p.now }
{
    match *p {
        Plan::Lead { .. } => 1,
        Plan::Alone | Plan::Join { .. } | Plan::Merge { .. } | Plan::Stop(_) | Plan::Full => 0,
    }
}

// The way in group `group`, whose place `index` is empty or has the register `target`.
fn way_in_group(
    fr: &Frame,
    out: &[u8],
    group: VirtRegGroup,
    index: u32,
    target: Option<VirtReg>,
    new: &Measures,
) -> Plan
    requires { (tables_end fr.now.ol ≤ word_count out.now) × ((v : VirtReg) → target ≡ Some v → RowIn fr.now.ol (words_of out.now) v) }
    ensures { (twice : Bool) (st : State) (ps : List Piece) → Holds fr.now.ol (words_of out.now) st → ((v : VirtReg) → target ≡ Some v → v.0 < length st.registers) → Measured ps new.now
        → result ≡ way_group twice index ps st (some group) (option_of target) }
{
    match target {
        None => Plan::Join { group, index },
        Some(reg) => match find_place(out, fr.ol, reg, new.from, new.to) {
            None => Plan::Stop(Stop::Overlap),
            Some(at) => Plan::Merge {
                group,
                reg,
                index,
                at,
            },
        },
    }
}

// The way that what is held leads, or a stop. `free`: where a new group is made, no operand would be mapped twice.
fn way(fr: &Frame, out: &[u8], held: &Held, new: &Measures, free: bool) -> Plan
    requires { Asked (word_count out.now) (words_of out.now) fr.now.ol held.now }
    ensures { (st : State) (ps : List Piece) → Holds fr.now.ol (words_of out.now) st → TargetIn held.now st → Measured ps new.now → result ≡ way_by (not free) ps st (group_of held.now.group) (option_of held.now.target) }
{
    match &held.group {
        None => Plan::Alone,
        Some(group) => match group.mapped {
            Some(g) => way_in_group(fr, out, g, group.index, held.target, new),
            None => new_group(group.index, free),
        },
    }
}

// The way into place `index` of a new group, unless an operand would be mapped twice.
fn new_group(index: u32, free: bool) -> Plan
    ensures { (st : State) (ps : List Piece) (t : Option VirtReg) → result ≡ way_group (not free) index ps st none t }
{
    if free {
        return Plan::Lead { index };
    }
    Plan::Stop(Stop::MappedTwice)
}

// The plan for what a source will write, by what is held.
pub fn decide(fr: &Frame, out: &[u8], c: &Counts, held: &Held, new: &Measures, free: bool) -> Plan
    requires { Asked (word_count out.now) (words_of out.now) fr.now.ol held.now }
    ensures { (st : State) (ps : List Piece) → Holds fr.now.ol (words_of out.now) st → c.now ≡ counts_of st → TargetIn held.now st → Measured ps new.now → result ≡ plan_from (not free) (room_of fr.now.ol) (held_of held.now) ps st }
{
    let p = way(fr, out, held, new, free);
    if is_stop(&p) {
        return p;
    }
    let more = registers_more(&p);
    if has_room(fr.ol, *c, more, groups_more(&p), new.pieces, new.uses) {
        return p;
    }
    Plan::Full
}
