// A job sheet of either form and of any length read from a stream, through a buffer of any length.

ghost use Rattle.std.specs.Prelude.{◌≤◌, length, is_err};
ghost use Rattle.words.specs.Words.{word_count, words_of};
ghost use Rattle.sheet.specs.Front.{formed, open_form};
ghost use Rattle.streams.specs.Tape.{at_of};
ghost use Rattle.sheet_verdict.specs.Taken.{Taken, reading_in};

use sheet::either::Reading;
use std::io::Read;
use streams::Stream;

// A read failed: the state behind the last byte that was read.
#[derive(Clone, Copy)]
pub struct Unread {
    pub behind: Reading,
}

// Feeds the reader every byte that the calls read, in order, up to the first call that reads none. A proved loop has to end, and nothing says that the input does: so the turns are bounded, by a number that no run uses up.
pub fn feed_all<R: Read>(
    s: &mut Stream,
    tape: &[usize],
    given: &[u8],
    buf: &mut [u8],
    table: &mut [u8],
    written: &mut [u8],
    source: &mut R,
) -> Result<Reading, Unread>
    requires { (at_of s.old ≤ length given.now) × (1 ≤ length buf.old) }
    ensures { Taken tape.now given.now s.old (open_form (word_count table.old) (word_count written.old)) (formed (reading_in result) (words_of table.new) (words_of written.new)) (is_err result) s.new }
{
    let mut cur = sheet::either::open(table, written);
    for _ in 0..u64::MAX {
        let Ok(n) = streams::read(s, tape, given, buf, source) else {
            return Err(Unread { behind: cur });
        };
        let ended = n == 0;
        if ended {
            return Ok(cur);
        }
        cur = sheet::either::feed(cur, &buf[..n], table, written);
    }
    Err(Unread { behind: cur })
}
