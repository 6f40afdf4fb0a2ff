// What `order` reads from and writes to.
use streams::Stream;

// A stream that is read: on a tape what its calls answer and the bytes that they read, else a reader.
#[derive(Drop)]
pub struct Input<'a, R> {
    pub stream: Stream,
    pub tape: &'a [usize],
    pub given: &'a [u8],
    pub source: R,
}

// A stream that is written: on a tape what its calls answer, else a writer. The paper that a tape writes on is lent by
// itself, so that what stands on it is known behind the call.
#[derive(Drop)]
pub struct Output<'a, W> {
    pub stream: Stream,
    pub tape: &'a [usize],
    pub sink: W,
}
