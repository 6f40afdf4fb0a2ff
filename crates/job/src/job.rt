// A job as it is lent: its slice, and where its tables stand in it.
ghost use Rattle.words.specs.Words.{word_count};
ghost use Rattle.job.specs.Layout.{Fits};

use super::Layout;

// Every table lies within the slice.
#[derive(Clone, Copy)]
pub struct Job<'a> {
    pub bytes: &'a [u8],
    pub lay: Layout,
    pub ghost fits: { Fits (word_count bytes.now) lay },
}
