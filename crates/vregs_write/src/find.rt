// The place for pieces that are merged into a register of the result tables.

ghost use Rattle.std.specs.Prelude.{◌≡◌, ◌&&◌, List, ◌+◌, ◌*◌, ◌≤◌, ◌<◌, ltb, length, get_or, drop};
ghost use Rattle.words.specs.Words.{word_count, words_of};
ghost use Rattle.definition.specs.Types.{Piece, State};
ghost use Rattle.definition.specs.Place.{overlaps};
ghost use Rattle.definition.specs.Admit.{register_at};
ghost use Rattle.virt_regs.specs.Encoding.{seg_base, tables_end, Holds};
ghost use Rattle.vregs_write.specs.Ends.{ends_by, Shows, place_of};

use definition::{LiveRangePoint, VirtReg};
use virt_regs::{OutLayout, piece_at, pieces_of};

// How many of the pieces from piece `first` on end by a, up to the first that does not.
fn ends_by(out: &[u8], ol: OutLayout, first: usize, count: usize, a: LiveRangePoint) -> usize
    requires { (tables_end ol ≤ word_count out.now) × (first + count ≤ ol.segs) }
    ensures { (result ≤ count) × ((ps : List Piece) → length ps ≡ count → Shows ol (words_of out.now) first ps → result ≡ ends_by a ps) }
{
    for i in 0..count {
        if a < piece_at(out, ol, first + i).to {
            return i;
        }
    }
    count
}

// Whether piece i ends after a and begins before b.
fn touches(out: &[u8], ol: OutLayout, i: usize, a: LiveRangePoint, b: LiveRangePoint) -> bool
    requires { (tables_end ol ≤ word_count out.now) × (i < ol.segs) }
    ensures { result ≡ ltb a.0 (get_or (words_of out.now) (seg_base ol + (i * 7 + 2)) 0) && ltb (get_or (words_of out.now) (seg_base ol + (i * 7 + 1)) 0) b.0 }
{
    let row = piece_at(out, ol, i);
    a < row.to && row.from < b
}

// Whether one of the pieces does, from the one with number k on.
fn meets(
    out: &[u8],
    ol: OutLayout,
    first: usize,
    count: usize,
    k: usize,
    a: LiveRangePoint,
    b: LiveRangePoint,
) -> bool
    requires { (tables_end ol ≤ word_count out.now) × (first + count ≤ ol.segs) × (k ≤ count) }
    ensures { (ps : List Piece) → length ps ≡ count → Shows ol (words_of out.now) first ps → result ≡ overlaps a b (drop k ps) }
{
    (k..count).any(|i| touches(out, ol, first + i, a, b))
}

// The piece of register v that pieces from a up to b go in front of: none where an old piece overlaps.
pub fn find_place(
    out: &[u8],
    ol: OutLayout,
    v: VirtReg,
    a: LiveRangePoint,
    b: LiveRangePoint,
) -> Option<usize>
    requires room { (tables_end ol ≤ word_count out.now) × (v.0 < ol.regs) }
    requires pieces_room { get_or (words_of out.now) (v.0 * 8 + 6) 0 + get_or (words_of out.now) (v.0 * 8 + 7) 0 ≤ ol.segs }
    ensures { (st : State) → Holds ol (words_of out.now) st → v.0 < length st.registers → result ≡ place_of a b (register_at st v).pieces }
{
    let s = pieces_of(out, v);
    let k = ends_by(out, ol, s.first, s.count, a);
    if meets(out, ol, s.first, s.count, k, a, b) {
        return None;
    }
    Some(k)
}
