// Points of a live range: 4 * instruction + slot (live_range.rs).
#![tactic(auto)]

ghost use Rattle.std.specs.Prelude.{◌≡◌, ◌+◌, ◌*◌, ◌≤◌, ◌<◌};
ghost use Rattle.definition.specs.declared.Slot.TheVariants.{Boundary};
ghost use Rattle.definition.specs.Types.{inst, point};
ghost use Rattle.definition.specs.LiveRange.{point_at, inst_of, next_inst};
ghost use Rattle.live_range.specs.Points.{slot_of};

pub mod insts;

use definition::{Inst, LiveRangePoint, Slot};

// The point at a slot of an instruction.
pub fn point_at(i: Inst, s: Slot) -> LiveRangePoint
    requires { i.0 < 1073741824 }
    ensures { result ≡ point_at i s }
{
    LiveRangePoint(4 * i.0 + s as u32)
}

// The instruction that a point is in; of a Boundary, the instruction behind it.
pub fn inst_of(p: LiveRangePoint) -> Inst
    ensures { result ≡ inst (inst_of p) }
{
    Inst(p.0 / 4)
}

// The slot that a point is at. A `From` would have to stand beside Slot, with this same match.
pub fn slot_of(p: LiveRangePoint) -> Slot
    ensures { result ≡ slot_of p }
{
    match p.0 % 4 {
        0 => Slot::Boundary,
        1 => Slot::Early,
        _ => Slot::Normal,
    }
}

// The Boundary at or before a point.
pub fn round_to_prev_inst(p: LiveRangePoint) -> LiveRangePoint
    ensures { result ≡ point_at (inst (inst_of p)) Boundary }
{
    LiveRangePoint(p.0 / 4 * 4)
}

// The Boundary at or behind a point.
pub fn round_to_next_inst(p: LiveRangePoint) -> LiveRangePoint
    requires { p.0 ≤ 4294967292 }
    ensures { result ≡ point_at (inst (next_inst p)) Boundary }
{
    LiveRangePoint((p.0 + 3) / 4 * 4)
}

// The instruction of that Boundary.
pub fn next_inst(p: LiveRangePoint) -> Inst
    ensures { result ≡ inst (next_inst p) }
{
    Inst(p.0 / 4 + (p.0 % 4 + 3) / 4)
}

// The Boundary behind an instruction.
pub fn next_boundary(i: Inst) -> LiveRangePoint
    requires { i.0 < 1073741823 }
    ensures { result ≡ point (4 * i.0 + 4) }
{
    LiveRangePoint(4 * i.0 + 4)
}
