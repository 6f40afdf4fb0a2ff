// What a cut at an instruction leaves of a segment's hint and flags on its two sides (hints.rs `hints_for_split`, uses.rs `split_at_inst`).

ghost use Rattle.std.specs.Prelude.{◌≡◌};
ghost use Rattle.hints.specs.Sorted.{hints_in};
ghost use Rattle.hints.specs.Flags.{left_flags, right_flags};

use crate::{Hints, hint_between};
use definition::{Inst, LiveRangePoint, UseFlags, Value};
use live_range::{inst_of, next_inst};

// The flags of the left side of a cut at p: live-out; the hint stays if one lies from the instruction of `start` to p.
// Not one with right_flags: a literal each, in which other flags are set.
#[tactic(auto, unfolding(crate::specs::Flags::left_flags))]
pub fn left_flags(
    hints: &Hints,
    v: Value,
    start: LiveRangePoint,
    p: Inst,
    flags: UseFlags,
) -> UseFlags
    ensures { result ≡ left_flags (hints_in hints.now) p v start flags }
{
    let hint = flags.fixedhint && hint_between(hints, v, inst_of(start), p);
    UseFlags {
        liveout: true,
        fixedhint: hint,
        ..flags
    }
}

// The flags of the right side of a cut at p: live-in, no fixed def; the hint stays if one lies from p up to `end`.
// Not one with left_flags: a literal each, in which other flags are set.
#[tactic(auto, unfolding(crate::specs::Flags::right_flags))]
pub fn right_flags(
    hints: &Hints,
    v: Value,
    end: LiveRangePoint,
    p: Inst,
    flags: UseFlags,
) -> UseFlags
    ensures { result ≡ right_flags (hints_in hints.now) p v end flags }
{
    let hint = flags.fixedhint && hint_between(hints, v, p, next_inst(end));
    UseFlags {
        livein: true,
        fixedhint: hint,
        fixeddef: false,
        ..flags
    }
}
