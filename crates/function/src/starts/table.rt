// The table of block starts as it is lent: its slice, and where its rows stand in it.
ghost use Rattle.std.specs.Prelude.{◌+◌, ◌*◌, ◌≤◌, ◌<◌};
ghost use Rattle.words.specs.Words.{word_count};

// No Rows: from word `at` on a row of two words for each of the n blocks, and a last row that is no block's. There may be
// no block: that there is one is a clause of those who need it. `counted` is what n's type says, which a proof knows of a
// field behind a reference only where the field is read.
#[derive(Clone, Copy)]
pub struct BlockStarts<'a> {
    pub words: &'a [u8],
    pub at: usize,
    pub n: u32,
    pub ghost counted: { n < 4294967296 },
    pub ghost room: { at + n * 2 + 2 ≤ word_count words.now },
}
