// function.rs: the questions about blocks, answered from a table of rows of two words: instruction count, frequency bits.
#![tactic(auto)]

ghost use Rattle.std.specs.Prelude.{◌≡◌, ◌+◌, ◌*◌, ◌<◌, get_or};
ghost use Rattle.definition.specs.Entry.{insts_of, block_ok, every};
ghost use Rattle.words.specs.Rows.{row_words};
ghost use Rattle.function.specs.Blocks.{block_row, blocks_in};

pub mod starts;

use definition::{Block, BlockData};
use words::rows::{Rows, row_at, word_of};

// The first word of row b: the instruction count.
pub fn count_at(blocks: &Rows<2>, b: Block) -> u32
    requires { b.0 < blocks.now.n }
    ensures { result ≡ get_or (row_words blocks.now) (blocks.now.at + b.0 * 2) 0 }
{
    words::word_at(blocks.words, row_at(blocks, b.0 as usize))
}

// The second: the frequency's bits.
pub fn bits_at(blocks: &Rows<2>, b: Block) -> u32
    requires { b.0 < blocks.now.n }
    ensures { result ≡ get_or (row_words blocks.now) (blocks.now.at + b.0 * 2 + 1) 0 }
{
    word_of(blocks, b.0 as usize, 1)
}

// Block b, of rows whose frequencies are finite and not negative.
#[tactic(auto, unfolding(crate::specs::Blocks::block_row))]
pub fn block_at(blocks: &Rows<2>, b: Block) -> BlockData
    requires { (b.0 < blocks.now.n) × (get_or (row_words blocks.now) (blocks.now.at + b.0 * 2 + 1) 0 < 0x7f80_0000) }
    ensures { result ≡ block_row (row_words blocks.now) (blocks.now.at + b.0 * 2) }
{
    let insts = count_at(blocks, b);
    let frequency = weights::floats::float_of(bits_at(blocks, b));
    BlockData { insts, frequency }
}

// How many instructions the blocks have. That a u32 counts them is a clause: rows may be of any number, and a row is
// read by the number of a block, which is one below 2^32.
pub fn count_insts(blocks: &Rows<2>) -> u64
    requires { blocks.now.n < 4294967296 }
    ensures { result ≡ insts_of (blocks_in blocks.now) }
{
    let mut total: u64 = 0;
    for i in 0..blocks.n {
        total += u64::from(count_at(blocks, Block(i as u32)));
    }
    total
}

// Not empty, and its frequency finite and not negative.
pub fn block_ok(blocks: &Rows<2>, b: Block) -> bool
    requires { b.0 < blocks.now.n }
    ensures { result ≡ block_ok (block_row (row_words blocks.now) (blocks.now.at + b.0 * 2)) }
{
    let empty = count_at(blocks, b) < 1;
    if empty {
        return false;
    }
    weights::floats::is_plain(bits_at(blocks, b))
}

pub fn blocks_ok(blocks: &Rows<2>) -> bool
    requires { blocks.now.n < 4294967296 }
    ensures { result ≡ every block_ok (blocks_in blocks.now) }
{
    (0..blocks.n).all(|i| block_ok(blocks, Block(i as u32)))
}
