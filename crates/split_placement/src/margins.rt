// The blocks that are open to a cut, the one chosen, and the steps by which each of them would move it, over the table
// of block starts. Frequencies are compared by their bits, as in split_placement. That they are finite is asked by clauses
// and not by the table's type: `split_placement::cut` asks nothing of the bits.

ghost use Rattle.std.specs.Prelude.{◌≡◌, ℕ, suc, ◌+◌, ◌-◌, ◌≤◌, ◌<◌, ◌&&◌, not, cond, eqb, ltb};
ghost use Rattle.definition.specs.CutMoves.{infinity, tie, chosen_of, edge_of, move_of};
ghost use Rattle.split_placement.specs.Places.{bits_in};
ghost use Rattle.split_placement.specs.Table.{steps_in};

use definition::{Block, Side};
use function::starts::BlockStarts;

// The chosen one of the blocks `from` to `to`: of least frequency, of equal ones the one ahead.
pub fn chosen(t: &BlockStarts, from: Block, to: Block, side: Side) -> Block
    requires { (from.0 ≤ to.0) × (to.0 ≤ t.now.n) }
    ensures { result.0 ≡ chosen_of side (bits_in t.now) from.0 from.0 (to.0 - from.0) }
{
    crate::least(t, from, to, side)
}

// The steps that i lacks against c at an equal frequency.
fn tie_of(side: Side, i: Block, c: Block) -> u32
    ensures { result ≡ tie side i.0 c.0 }
{
    let ahead = match side {
        Side::Early => i < c,
        Side::Late => c < i,
    };
    u32::from(!ahead)
}

// What block i has, with the steps that it lacks against c.
fn with_tie(t: &BlockStarts, side: Side, i: Block, c: Block) -> u32
    requires { (i.0 ≤ t.now.n) × (bits_in t.now i.0 < infinity) }
    ensures { result ≡ bits_in t.now i.0 + tie side i.0 c.0 }
{
    function::starts::bits_at(t, i) + tie_of(side, i, c)
}

// The lesser of e and what block i has with its tie; e for c itself.
fn lower(t: &BlockStarts, side: Side, i: Block, c: Block, e: u32) -> u32
    requires { (i.0 ≤ t.now.n) × (bits_in t.now i.0 < infinity) }
    ensures { result
        ≡ cond (not (eqb i.0 c.0) && ltb (bits_in t.now i.0 + tie side i.0 c.0) e)
        (bits_in t.now i.0 + tie side i.0 c.0) e }
{
    if i == c {
        e
    } else {
        e.min(with_tie(t, side, i, c))
    }
}

// The edge of the chosen block c: the least that another of the blocks `from` to `to` has with its tie.
pub fn edge_of(t: &BlockStarts, from: Block, to: Block, side: Side, c: Block) -> u32
    requires { (to.0 < 4294967295) × (to.0 ≤ t.now.n) × ((i : ℕ) → i ≤ to.0 → bits_in t.now i < infinity) }
    ensures { result ≡ edge_of side (bits_in t.now) c.0 infinity from.0 (suc to.0 - from.0) }
{
    let mut e: u32 = 0x7f80_0000;
    for i in from.0..to.0 + 1 {
        e = lower(t, side, Block(i), c, e);
    }
    e
}

// The steps of block i: up for the chosen block c, down for another; 0 where no frequency moves the cut.
pub fn steps(t: &BlockStarts, side: Side, c: Block, e: u32, i: Block) -> u32
    requires { (c.0 ≤ t.now.n) × (i.0 ≤ t.now.n) × (bits_in t.now i.0 < infinity) × (bits_in t.now c.0 ≤ e)
        × (bits_in t.now c.0 ≤ bits_in t.now i.0 + tie side i.0 c.0) }
    ensures { result ≡ steps_in (move_of side (bits_in t.now) c.0 e i.0) }
{
    let own = function::starts::bits_at(t, c);
    if i == c {
        return if e < 0x7f80_0000 { e - own } else { 0 };
    }
    if own < tie_of(side, i, c) {
        return 0;
    }
    with_tie(t, side, i, c) - own
}
