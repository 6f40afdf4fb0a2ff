// A table of rows of one width in a lent slice: where its rows begin, and their words.

ghost use Rattle.std.specs.Prelude.{◌≡◌, ◌+◌, ◌*◌, ◌≤◌, ◌<◌, get_or};
ghost use Rattle.words.specs.Words.{word_count};
ghost use Rattle.words.specs.Rows.{row_words};

mod lent;

pub use lent::Rows;

// The word at which row i begins.
pub fn row_at<const W: usize>(t: &Rows<W>, i: usize) -> usize
    requires { i < t.now.n }
    ensures { (result ≡ t.now.at + i * W) × (result + W ≤ word_count t.now.words.now) }
{
    t.at + i * W
}

// Word k of row i.
pub fn word_of<const W: usize>(t: &Rows<W>, i: usize, k: usize) -> u32
    requires { (i < t.now.n) × (k < W) }
    ensures { result ≡ get_or (row_words t.now) (t.now.at + i * W + k) 0 }
{
    crate::word_at(t.words, row_at(t, i) + k)
}
