// The cut finder as an entry point on bytes and numbers: split_placement.rs's find_optimal_split_point over block rows. Nothing is asked of the caller.
#![tactic(auto)]

ghost use Rattle.std.specs.Prelude.{◌≡◌, true, cond, leb, Some, None, ◌+◌, ◌*◌, ◌/◌, ◌≤◌, ◌<◌};
ghost use Rattle.definition.specs.Entry.{insts_of, every, block_ok, side_of};
ghost use Rattle.words.specs.Parts.{splice};
ghost use Rattle.words.specs.Words.{word_count, words_of};
ghost use Rattle.function.specs.Blocks.{blocks_at, start_words};
ghost use Rattle.find_cut.specs.Answer.{side_named, unless, cut_refusal, admission, cut_answer, work_left};

use definition::{Inst, Refusal, Side};
use function::starts::BlockStarts;
use words::rows::Rows;

// Number 0 and the instruction before which the cut is made; or the refusal's number, and 0.
// No Result, since C gets it.
#[repr(C)]
#[derive(Clone, Copy)]
pub struct Cut {
    pub number: u32,
    pub inst: u32,
}

// The side of a number: 0 early, any other late.
#[tactic(auto, unfolding(crate::specs::Answer::side_named))]
pub fn side_of(side: u32) -> Side
    ensures { result ≡ side_named side }
{
    if side == 0 { Side::Early } else { Side::Late }
}

// The side of a number that is one.
#[tactic(auto, unfolding(crate::specs::Answer::side_named))]
fn side_in(side: u32) -> Option<Side>
    ensures { result ≡ cond (leb side 1) (Some (side_named side)) None }
{
    if side <= 1 { Some(side_of(side)) } else { None }
}

// The tests of numbers 2 and 4: the first that fails.
pub fn tested(blocks: &[u8], after: u32, before: u32) -> Result<(), Refusal>
    ensures { result ≡ unless (cut_refusal blocks.now after before) tt }
{
    if 512 < blocks.len() / 8 {
        return Err(Refusal::OverALimit); // too many blocks
    }
    let rows = Rows {
        words: blocks,
        at: 0,
        n: blocks.len() / 8,
    };
    let total = function::count_insts(&rows);
    let long = 4096 < total;
    if long {
        return Err(Refusal::OverALimit); // too many instructions
    }
    if !function::blocks_ok(&rows) {
        return Err(Refusal::BadFunction); // a block empty or of bad frequency
    }
    let crossed = before <= after;
    if crossed {
        return Err(Refusal::BadFunction); // ends not in order
    }
    if total <= u64::from(before) {
        return Err(Refusal::BadFunction); // past the last instruction
    }
    Ok(())
}

// All the tests of a call, in the order of their numbers: its side, or the first refusal.
pub fn admitted(blocks: &[u8], after: u32, before: u32, side: u32) -> Result<Side, Refusal>
    ensures { result ≡ admission blocks.now after before side }
{
    let Some(named) = side_in(side) else {
        return Err(Refusal::NotARecord); // no side
    };
    if blocks.len() % 8 != 0 {
        return Err(Refusal::NotARecord); // not whole rows
    }
    if blocks.is_empty() {
        return Err(Refusal::NotARecord); // no block
    }
    tested(blocks, after, before)?;
    Ok(named)
}

// The cut of accepted blocks, by the table of starts, which is made in `work`.
fn cut_by(blocks: &[u8], n: u32, after: u32, before: u32, side: Side, work: &mut [u8]) -> Inst
    requires { (0 < n) × (n * 2 ≤ word_count blocks.now) × (n * 2 + 2 ≤ word_count work.old) × (after < before) × (before < insts_of (blocks_at (words_of blocks.now) 0 n)) × (insts_of (blocks_at (words_of blocks.now) 0 n) ≤ 4096) × (every block_ok (blocks_at (words_of blocks.now) 0 n) ≡ true) }
    ensures { (result.0 ≡ side_of side (blocks_at (words_of blocks.now) 0 n) after before) × (words_of work.new ≡ splice (words_of work.old) 0 (start_words (words_of blocks.now) 0 n)) }
{
    let rows = Rows {
        words: blocks,
        at: 0,
        n: n as usize,
    };
    function::starts::put_starts(&rows, work, 0);
    let t = BlockStarts {
        words: work,
        at: 0,
        n,
    };
    split_placement::cut(&t, Inst(after), Inst(before), side)
}

// blocks: rows of two little-endian words, instruction count and frequency bits. side: 0 early, 1 late. work: what it holds does not matter.
// side is a number and no Side: C may give any, and one that names none is refused.
pub fn find_optimal_split_point(
    blocks: &[u8],
    after: u32,
    before: u32,
    side: u32,
    work: &mut [u8; 4104],
) -> Cut
    ensures value { result ≡ cut_answer blocks.now after before side }
    ensures work_after { words_of work.new ≡ work_left blocks.now after before side (words_of work.old) }
{
    match admitted(blocks, after, before, side) {
        Err(refusal) => Cut {
            number: refusal.number(),
            inst: 0,
        },
        Ok(side) => {
            let n = (blocks.len() / 8) as u32;
            let found = cut_by(blocks, n, after, before, side, work);
            Cut {
                number: 0,
                inst: found.0,
            }
        }
    }
}
