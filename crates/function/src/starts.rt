// The table of block starts, made once from the block rows: for each block its first instruction and its frequency's bits, and a last
// row with the number of instructions. The block of an instruction is found in it by binary search.

ghost use Rattle.std.specs.Prelude.{◌≡◌, List, [], ◌∷◌, ◌+◌, ◌*◌, ◌≤◌, ◌<◌, get_or};
ghost use Rattle.definition.specs.declared.BlockData.{BlockData};
ghost use Rattle.definition.specs.Entry.{insts_of};
ghost use Rattle.words.specs.Parts.{splice};
ghost use Rattle.words.specs.Words.{word_count, words_of};
ghost use Rattle.words.specs.Rows.{row_words};
ghost use Rattle.function.specs.Blocks.{blocks_in, start_words, block_of};
ghost use Rattle.function.specs.Table.{words_in, Encodes};

mod table;

use definition::{Block, Inst};
pub use table::BlockStarts;
use words::rows::Rows;

// Row b.
fn put_start(starts: &mut [u8], at: usize, b: Block, first: u32, bits: u32)
    requires { at + b.0 * 2 + 2 ≤ word_count starts.old }
    ensures { words_of starts.new ≡ splice (words_of starts.old) (at + b.0 * 2) (first ∷ bits ∷ []) }
{
    let i = at + b.0 as usize * 2;
    words::put_word(starts, i, first);
    words::put_word(starts, i + 1, bits);
}

// The table of the blocks, put at word `at`. The words are no table before that, and the caller goes on with them: so it
// takes and leaves them, and who reads the table makes the struct.
pub fn put_starts(blocks: &Rows<2>, starts: &mut [u8], at: usize)
    requires { (blocks.now.n < 4294967296) × (at + blocks.now.n * 2 + 2 ≤ word_count starts.old) × (insts_of (blocks_in blocks.now) < 4294967296) }
    ensures { words_of starts.new ≡ splice (words_of starts.old) at (start_words (row_words blocks.now) blocks.now.at blocks.now.n) }
{
    let n = blocks.n as u32;
    let mut first: u32 = 0;
    for i in 0..n {
        put_start(
            starts,
            at,
            Block(i),
            first,
            crate::bits_at(blocks, Block(i)),
        );
        first += crate::count_at(blocks, Block(i));
    }
    put_start(starts, at, Block(n), first, 0);
}

// The first instruction of block b; of the row behind the last block, the number of instructions.
pub fn start_at(t: &BlockStarts, b: Block) -> Inst
    requires { b.0 ≤ t.now.n }
    ensures { result.0 ≡ get_or (words_in t.now) (t.now.at + b.0 * 2) 0 }
{
    Inst(words::word_at(t.words, t.at + b.0 as usize * 2))
}

// The bits of block b's frequency; of the row behind the last block, 0 where the table is one that `put_starts` made.
pub fn bits_at(t: &BlockStarts, b: Block) -> u32
    requires { b.0 ≤ t.now.n }
    ensures { result ≡ get_or (words_in t.now) (t.now.at + b.0 * 2 + 1) 0 }
{
    words::word_at(t.words, t.at + b.0 as usize * 2 + 1)
}

// The block that holds an instruction.
pub fn block_of(t: &BlockStarts, inst: Inst) -> Block
    requires { 0 < t.now.n }
    ensures { (result.0 < t.now.n)
        × ((bs : List BlockData) → Encodes t.now bs → inst.0 < insts_of bs → result.0 ≡ block_of bs inst.0) }
{
    // `partition_point` needs a slice of rows, and the table is words in a lent byte slice.
    let mut low: u32 = 0;
    let mut high = t.n;
    while 1 < high - low {
        let middle = low + (high - low) / 2;
        if start_at(t, Block(middle)) <= inst {
            low = middle;
        } else {
            high = middle;
        }
    }
    Block(low)
}
