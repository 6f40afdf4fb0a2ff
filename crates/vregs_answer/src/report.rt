// All that `replay` does between its first read and its last write, over streams: each frame of stored answers is read, its sheet answered anew and compared with its answer, byte for byte.

ghost use Rattle.std.specs.Prelude.{◌≡◌, ◌≤◌, length};
ghost use Rattle.frames.specs.Report.{missed as Report·missed};
ghost use Rattle.streams.specs.Tape.{at_of};
ghost use Rattle.vregs_answer.specs.Ran.{AnswerRead, Ran};

use crate::Space;
use frames::NoFrame;
use std::io::{Read, Write};
use streams::{Broken, Stream};

// The next frame, compared: whether its answer is the one given anew.
fn next_answer<R: Read>(
    s: &mut Stream,
    tape: &[usize],
    given: &[u8],
    sheet: &mut [u8],
    answer: &mut [u8],
    space: &mut Space,
    source: &mut R,
) -> Result<bool, NoFrame>
    requires { (at_of s.old ≤ length given.now) × (262144 ≤ length sheet.old) × (524288 ≤ length answer.old) }
    ensures { AnswerRead tape.now given.now s.old result s.new }
{
    let f = frames::read_frame(s, tape, given, sheet, answer, source)?;
    let n = f.sheet;
    let m = f.answer;
    let same = crate::replay::is_answer(&sheet[..n], &answer[..m], space);
    Ok(same)
}

fn missed(same: bool) -> u64
    ensures { result ≡ Report·missed same }
{
    u64::from(!same)
}

// On tapes: the report on the bytes that were given, on the paper; or its first bytes, where a read or a write failed. A proved loop has to end, and nothing says that the input does: so there are only so many turns as no run uses up.
pub fn replay<R: Read, W: Write>(
    input: &mut Stream,
    reads: &[usize],
    given: &[u8],
    output: &mut Stream,
    writes: &[usize],
    paper: &mut [u8],
    sheet: &mut [u8],
    answer: &mut [u8],
    space: &mut Space,
    source: &mut R,
    sink: &mut W,
) -> Result<(), Broken>
    requires { (at_of input.old ≤ length given.now) × (at_of output.old ≤ length paper.old) × (262144 ≤ length sheet.old) × (524288 ≤ length answer.old) }
    ensures { Ran reads.now given.now input.old input.new writes.now paper.old output.old result output.new paper.new }
{
    let mut answers = 0;
    let mut differ = 0;
    for _ in 0..u64::MAX {
        match next_answer(input, reads, given, sheet, answer, space, source) {
            Ok(same) => {
                answers += 1;
                differ += missed(same);
                let cut = frames::tell(same, answers, output, writes, paper, sink).is_err();
                if cut {
                    return Err(Broken::Output);
                }
            }
            Err(NoFrame::Failed) => return Err(Broken::Input),
            Err(NoFrame::Ended) => {
                let w = frames::sum_up(true, answers, differ, output, writes, paper, sink);
                return w.or(Err(Broken::Output));
            }
            Err(NoFrame::Other) => {
                let w = frames::sum_up(false, answers, differ, output, writes, paper, sink);
                return w.or(Err(Broken::Output));
            }
        }
    }
    Err(Broken::Input)
}
