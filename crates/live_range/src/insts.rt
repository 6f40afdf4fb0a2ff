// How many instructions the pieces of a register touch (live_range.rs, `live_insts`), read off rows of 7 words: value, from, to, flags, origin, first use, use count.

ghost use Rattle.std.specs.Prelude.{◌≡◌, ◌+◌, ◌-◌, ◌≤◌, ◌<◌};
ghost use Rattle.words.specs.Words.{word_count, words_of};
ghost use Rattle.live_range.specs.Ranges.{range_at, new_insts, range_insts, ranges_in};

use crate::{inst_of, next_inst};
use definition::{Inst, LiveRangePoint};
use words::rows::{Rows, row_at};
use words::word_at;

// The points of a segment, `to` excluded.
#[derive(Clone, Copy)]
pub struct LiveRangeSegment {
    pub from: LiveRangePoint,
    pub to: LiveRangePoint,
}

// The points of the row that begins at word i.
#[tactic(auto, unfolding(crate::specs::Ranges::range_at))]
pub fn range_at(t: &[u8], i: usize) -> LiveRangeSegment
    requires { i + 3 ≤ word_count t.now }
    ensures { result ≡ range_at (words_of t.now) i }
{
    let a = word_at(t, i + 1);
    let b = word_at(t, i + 2);
    LiveRangeSegment {
        from: LiveRangePoint(a),
        to: LiveRangePoint(b),
    }
}

// The instructions that a range touches, those below `counted` left out.
pub fn new_insts(counted: Inst, s: LiveRangeSegment) -> u32
    ensures { result ≡ new_insts counted.0 s }
{
    let first = counted.0.max(inst_of(s.from).0);
    next_inst(s.to).0.saturating_sub(first)
}

// The different instructions that the pieces touch: what an earlier one touches is counted already.
pub fn live_insts(pieces: &Rows<7>) -> u32
    requires { range_insts (ranges_in pieces.now) < 4294967296 }
    ensures { result ≡ range_insts (ranges_in pieces.now) }
{
    let mut sum: u32 = 0;
    let mut counted = Inst(0);
    for i in 0..pieces.n {
        let s = range_at(pieces.words, row_at(pieces, i));
        sum += new_insts(counted, s);
        counted = next_inst(s.to);
    }
    sum
}
