// The list of crates/cut_moves for C, which include/cundzeli.h declares. Nothing is asked of the caller.
#![tactic(auto)]

ghost use Rattle.std.specs.Prelude.{◌≡◌, length};
ghost use Rattle.cut_moves.specs.Answer.{moves_end, list_left};

use cut_moves::MovesEnd;

// blocks: rows of two little-endian words, instruction count and frequency bits. side: 0 early, 1 late. list: rows of
// three words, block, way (0 up, 1 down) and steps, from the fewest steps on, equal ones by block; zeros behind them.
// work: what it holds does not matter.
// side is a number and no Side: C may give any, and one that names none is refused.
#[unsafe(no_mangle)]
pub extern "C" fn find_cut_moves(
    blocks: &[u8],
    after: u32,
    before: u32,
    side: u32,
    list: &mut [u8],
    work: &mut [u8; 4104],
) -> MovesEnd
    ensures value { result ≡ moves_end blocks.now after before side (length list.old) }
    ensures list_after { list.new
        ≡ list_left blocks.now after before side (length list.old) }
{
    cut_moves::find_cut_moves(blocks, after, before, side, list, work)
}
