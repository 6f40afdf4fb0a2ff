// Rows of W words as they are lent: their slice, and where they stand in it.
ghost use Rattle.std.specs.Prelude.{◌+◌, ◌*◌, ◌≤◌};
ghost use Rattle.words.specs.Words.{word_count};

// From word `at` on n rows of W words each, which lie within the slice.
#[derive(Clone, Copy)]
pub struct Rows<'a, const W: usize> {
    pub words: &'a [u8],
    pub at: usize,
    pub n: usize,
    pub ghost room: { at + n * W ≤ word_count words.now },
}
