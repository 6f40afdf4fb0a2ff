// What would move a cut, as an entry point on bytes and numbers: each block whose frequency by itself could move it,
// with the way and the fewest f32 steps, in a lent list. Nothing is asked of the caller.
#![tactic(auto)]

ghost use Rattle.std.specs.Prelude.{◌≡◌, true, cond, ℕ, suc, ◌+◌, ◌-◌, ◌*◌, ◌/◌, ◌≤◌, ◌<◌, eqb, length, replicate};
ghost use Rattle.definition.specs.Types.{inst};
ghost use Rattle.definition.specs.Entry.{insts_of, every, block_ok};
ghost use Rattle.definition.specs.CutMoves.{infinity, moves_from, cut_moves};
ghost use Rattle.definition.specs.declared.Way.TheVariants.{Up, Down};
ghost use Rattle.words.specs.Parts.{splice, pad};
ghost use Rattle.words.specs.Words.{word_count, words_of};
ghost use Rattle.function.specs.Blocks.{blocks_at};
ghost use Rattle.split_placement.specs.Margins.{Chosen};
ghost use Rattle.split_placement.specs.Places.{bits_in};
ghost use Rattle.cut_moves.specs.Answer.{move_words, move_row, moves_admission, moves_end, list_left};

pub mod sort;

use definition::{Block, Inst, Refusal, Side, Way};
use function::starts::BlockStarts;
use words::rows::Rows;

// Number 0 and how many blocks could move the cut; or the refusal's number, and 0. No Result, since C gets it.
#[repr(C)]
#[derive(Clone, Copy)]
pub struct MovesEnd {
    pub number: u32,
    pub count: u32,
}

// The side of a call, or its first refusal: the cut finder's tests come first.
fn admitted(
    blocks: &[u8],
    after: u32,
    before: u32,
    side: u32,
    places: usize,
) -> Result<Side, Refusal>
    ensures { result ≡ moves_admission blocks.now after before side places }
{
    let named = find_cut::admitted(blocks, after, before, side)?;
    if places < blocks.len() / 8 {
        return Err(Refusal::Full); // fewer places than blocks
    }
    Ok(named)
}

// The way of block i: up for the chosen block c, else down.
fn way_of(i: Block, c: Block) -> Way
    ensures { result ≡ cond (eqb i.0 c.0) Up Down }
{
    if i == c { Way::Up } else { Way::Down }
}

// Behind k rows of the list that of block i, where it has steps; how many rows there are then.
fn put_move(list: &mut [u8], k: u32, i: Block, c: Block, steps: u32) -> u32
    requires { (k < 4096) × (k * 3 + 3 ≤ word_count list.old) }
    ensures { (result ≡ k + cond (eqb steps 0) 0 1)
        × (words_of list.new ≡ splice (words_of list.old) (k * 3) (move_row i.0 c.0 steps)) }
{
    if steps == 0 {
        return k;
    }
    words::put_row(list, k as usize * 3, [i.0, way_of(i, c) as u32, steps]);
    k + 1
}

// The moves of the open blocks `from` to `to` at the front of the list, by rising block: how many. Block c is chosen, e
// its edge.
fn put_moves(
    list: &mut [u8],
    t: &BlockStarts,
    from: Block,
    to: Block,
    side: Side,
    c: Block,
    e: u32,
) -> u32
    requires { (to.0 < 512) × (to.0 ≤ t.now.n) × ((to.0 + 1) * 3 ≤ word_count list.old)
        × ((i : ℕ) → i ≤ to.0 → bits_in t.now i < infinity)
        × Chosen side (bits_in t.now) from.0 to.0 c.0
        × (bits_in t.now c.0 < e) × (words_of list.old ≡ replicate (word_count list.old) 0) }
    ensures { (result
        ≡ length (moves_from side (bits_in t.now) c.0 e from.0 (suc to.0 - from.0)))
        × (words_of list.new ≡ pad (word_count list.old) (move_words
        (moves_from side (bits_in t.now) c.0 e from.0 (suc to.0 - from.0)))) }
{
    let mut k: u32 = 0;
    for i in from.0..to.0 + 1 {
        let steps = split_placement::margins::steps(t, side, c, e, Block(i));
        k = put_move(list, k, Block(i), c, steps);
    }
    k
}

// The moves of accepted blocks, sorted, at the front of a list of zeros: how many. The table of starts is made in
// `work`, which then serves the sort.
fn put_sorted(
    blocks: &[u8],
    n: u32,
    after: u32,
    before: u32,
    side: Side,
    list: &mut [u8],
    work: &mut [u8],
) -> u32
    requires { (0 < n) × (n ≤ 512) × (n * 2 ≤ word_count blocks.now) × (1026 ≤ word_count work.old)
        × (n * 3 ≤ word_count list.old) × (after < before)
        × (before < insts_of (blocks_at (words_of blocks.now) 0 n))
        × (insts_of (blocks_at (words_of blocks.now) 0 n) ≤ 4096)
        × (every block_ok (blocks_at (words_of blocks.now) 0 n) ≡ true)
        × (words_of list.old ≡ replicate (word_count list.old) 0) }
    ensures { (result
        ≡ length (cut_moves (blocks_at (words_of blocks.now) 0 n) (inst after) (inst before) side))
        × (words_of list.new ≡ pad (word_count list.old) (move_words
        (cut_moves (blocks_at (words_of blocks.now) 0 n) (inst after) (inst before) side))) }
{
    let rows = Rows {
        words: blocks,
        at: 0,
        n: n as usize,
    };
    function::starts::put_starts(&rows, work, 0);
    let t = BlockStarts {
        words: work,
        at: 0,
        n,
    };
    let from = split_placement::judging(&t, Inst(after + 1), side);
    let to = split_placement::judging(&t, Inst(before), side);
    let c = split_placement::margins::chosen(&t, from, to, side);
    let e = split_placement::margins::edge_of(&t, from, to, side, c);
    let count = put_moves(list, &t, from, to, side, c, e);
    crate::sort::sort(list, work, 0, count as usize);
    count
}

// blocks: rows of two little-endian words, instruction count and frequency bits. side: 0 early, 1 late. list: rows of
// three words, block, way (0 up, 1 down) and steps, from the fewest steps on, equal ones by block; zeros behind them.
// work: what it holds does not matter. The contract rules out, for one, a row for a block that only an infinite
// frequency would let move the cut, and a list left as it was lent on 9.
// side is a number and no Side: C may give any, and one that names none is refused.
pub fn find_cut_moves(
    blocks: &[u8],
    after: u32,
    before: u32,
    side: u32,
    list: &mut [u8],
    work: &mut [u8; 4104],
) -> MovesEnd
    ensures value { result ≡ moves_end blocks.now after before side (length list.old) }
    ensures list_after { list.new
        ≡ list_left blocks.now after before side (length list.old) }
{
    words::span::clear(list);
    match admitted(blocks, after, before, side, list.len() / 12) {
        Err(refusal) => MovesEnd {
            number: refusal.number(),
            count: 0,
        },
        Ok(side) => {
            let n = (blocks.len() / 8) as u32;
            let end = list.len() / 4 * 4;
            let count = put_sorted(blocks, n, after, before, side, &mut list[..end], work);
            MovesEnd { number: 0, count }
        }
    }
}
