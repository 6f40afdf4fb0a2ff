// split_placement.rs: the place of a cut between two instructions, by block frequency, over the table of block starts.
// Frequencies are compared by their bits: all are finite and not negative. The cost grows with the blocks between the ends.
#![tactic(auto)]

ghost use Rattle.std.specs.Prelude.{◌≡◌, List, ◌+◌, ◌-◌, ◌≤◌, ◌<◌};
ghost use Rattle.definition.specs.declared.BlockData.{BlockData};
ghost use Rattle.definition.specs.Entry.{insts_of};
ghost use Rattle.definition.specs.CutMoves.{last_open};
ghost use Rattle.definition.specs.SplitPlacement.{side_of};
ghost use Rattle.function.specs.Table.{Encodes};
ghost use Rattle.split_placement.specs.Places.{bits_in, ahead, least};

pub mod margins;

use definition::{Block, Inst, Side};
use function::starts::BlockStarts;

// The block that judges a place: early, that of the instruction there; late, that of the one before it.
pub fn judging(t: &BlockStarts, place: Inst, side: Side) -> Block
    requires { (0 < t.now.n) × (0 < place.0) }
    ensures { (result.0 < t.now.n) × ((bs : List BlockData) → Encodes t.now bs
        → place.0 < insts_of bs → result.0 ≡ last_open side bs place.0) }
{
    match side {
        Side::Early => function::starts::block_of(t, place),
        Side::Late => function::starts::block_of(t, Inst(place.0 - 1)),
    }
}

// Of block a and of b behind it, the one of lower frequency; of equal ones the one ahead: early a, late b.
fn lower(t: &BlockStarts, a: Block, b: Block, side: Side) -> Block
    requires { (a.0 ≤ t.now.n) × (b.0 ≤ t.now.n) }
    ensures { result.0 ≡ ahead side (bits_in t.now) a.0 b.0 }
{
    let x = function::starts::bits_at(t, a);
    let y = function::starts::bits_at(t, b);
    match side {
        Side::Early => { if y < x { b } else { a } }
        Side::Late => { if x < y { a } else { b } }
    }
}

// Of the blocks `from` to `to`, the one whose frequency is least: early the first such, late the last. The two are no type
// of their own: that `judging` finds them in order hangs on the blocks of the table, which no type knows.
pub fn least(t: &BlockStarts, from: Block, to: Block, side: Side) -> Block
    requires { (from.0 ≤ t.now.n) × (to.0 ≤ t.now.n) }
    ensures { (result.0 ≡ least side (bits_in t.now) from.0 from.0 (to.0 - from.0))
        × (result.0 ≤ from.0 + (to.0 - from.0)) }
{
    let mut best = from;
    for j in from.0..to.0 {
        best = lower(t, best, Block(j + 1), side);
    }
    best
}

// The place of a cut. Early: of `after` + 1 and the block starts above it up to `before`, the earliest whose block
// frequency is least. Late: of `before` and the block ends from `after` + 1 to it, the latest whose preceding
// instruction's block frequency is least. The ends are no type of their own: each caller would
// make one for this call alone.
pub fn cut(t: &BlockStarts, after: Inst, before: Inst, side: Side) -> Inst
    requires { (0 < t.now.n) × (after.0 < before.0) }
    ensures { (bs : List BlockData) → Encodes t.now bs → before.0 < insts_of bs
        → result.0 ≡ side_of side bs after.0 before.0 }
{
    let next = Inst(after.0 + 1);
    let from = judging(t, next, side);
    let to = judging(t, before, side);
    let best = least(t, from, to, side);
    match side {
        Side::Early if best == from => next,
        Side::Early => function::starts::start_at(t, best),
        Side::Late if best == to => before,
        Side::Late => function::starts::start_at(t, Block(best.0 + 1)),
    }
}
