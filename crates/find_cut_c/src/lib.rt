// The cut finder of crates/find_cut for C, which include/cundzeli.h declares. Nothing is asked of the caller.
#![tactic(auto)]

ghost use Rattle.std.specs.Prelude.{◌≡◌};
ghost use Rattle.words.specs.Words.{words_of};
ghost use Rattle.find_cut.specs.Answer.{cut_answer, work_left};

use find_cut::Cut;

// blocks: rows of two little-endian words, instruction count and frequency bits. side: 0 early, 1 late. work: what it holds does not matter.
// side is a number and no Side: C may give any, and one that names none is refused.
#[unsafe(no_mangle)]
pub extern "C" fn find_optimal_split_point(
    blocks: &[u8],
    after: u32,
    before: u32,
    side: u32,
    work: &mut [u8; 4104],
) -> Cut
    ensures value { result ≡ cut_answer blocks.now after before side }
    ensures work_after { words_of work.new ≡ work_left blocks.now after before side (words_of work.old) }
{
    find_cut::find_optimal_split_point(blocks, after, before, side, work)
}
