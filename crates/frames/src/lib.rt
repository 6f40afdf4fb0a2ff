// Stored answers read from a stream, frame by frame, and the lines of the report on them.
// A frame is a line of two numbers of eight digits, parted by a tab, then as many bytes of a sheet and of its answer.
#![tactic(auto)]

ghost use Rattle.std.specs.Prelude.{◌≡◌, ◌&&◌, ◌+◌, ◌≤◌, eqb, leb, length, get_or, unwrap_or};
ghost use Rattle.definition.specs.Text.{decimal};
ghost use Rattle.lines.specs.Wrote.{Wrote};
ghost use Rattle.streams.specs.Tape.{at_of, WroteAll};
ghost use Rattle.frames.specs.Frames.{spelled};
ghost use Rattle.frames.specs.Report.{differs_line, summary};
ghost use Rattle.frames.specs.Read.{HeadRead, FrameRead};
ghost use Rattle.frames.specs.declared.NoFrame.TheVariants.{Failed};

use std::io::{Read, Write};
use streams::{Cut, Stream};

// A whole frame: the sizes of its parts.
#[derive(Clone, Copy, Debug, PartialEq, Eq)]
pub struct Frame {
    pub sheet: usize,
    pub answer: usize,
}

// Why there is none: a read failed, or the input ended before it, or what follows is no frame.
#[derive(Clone, Copy, Debug, PartialEq, Eq)]
pub enum NoFrame {
    Failed,
    Ended,
    Other,
}

impl From<Cut> for NoFrame {
    ghost from_gives = { λ _ e. e ≡ Failed };

    fn from(_cut: Cut) -> NoFrame {
        NoFrame::Failed
    }
}

// ---- reading

// The number that eight digits from `at` on spell.
fn number(head: &[u8], at: usize) -> Option<u64>
    requires { at + 8 ≤ length head.now }
    ensures { unwrap_or result 100000000 ≡ spelled head.now at 8 0 }
{
    let mut v = 0;
    for i in 0..8 {
        let d = sheet_rules::digits::digit(head[at + i]);
        if 9 < d {
            return None;
        }
        v = v * 10 + d;
    }
    Some(v)
}

// Whether the line is a head, of parts that have room.
// How long the parts are is a clause, here and in what reads and tells them: arrays would refuse longer ones.
fn is_head(head: &[u8], sheet: u64, answer: u64) -> bool
    requires { 18 ≤ length head.now }
    ensures { result ≡ (eqb (get_or head.now 8 0) 9 && eqb (get_or head.now 17 0) 10 && leb sheet 262144 && leb answer 524288) }
{
    if head[8] != b'\t' {
        return false;
    }
    if head[17] != b'\n' {
        return false;
    }
    if 262144 < sheet {
        return false;
    }
    answer <= 524288
}

// The head of the next frame.
fn read_head<R: Read>(
    s: &mut Stream,
    tape: &[usize],
    given: &[u8],
    source: &mut R,
) -> Result<Frame, NoFrame>
    requires { at_of s.old ≤ length given.now }
    ensures { HeadRead tape.now given.now s.old result s.new }
{
    let mut head = [0u8; 18];
    let n = streams::fill(s, tape, given, &mut head, source)?;
    if n == 0 {
        return Err(NoFrame::Ended);
    }
    if n < 18 {
        return Err(NoFrame::Other);
    }
    let Some(sheet) = number(&head, 0) else {
        return Err(NoFrame::Other);
    };
    let Some(answer) = number(&head, 9) else {
        return Err(NoFrame::Other);
    };
    if !is_head(&head, sheet, answer) {
        return Err(NoFrame::Other);
    }
    Ok(Frame {
        sheet: sheet as usize,
        answer: answer as usize,
    })
}

// The next frame, its parts at the start of the two buffers.
pub fn read_frame<R: Read>(
    s: &mut Stream,
    tape: &[usize],
    given: &[u8],
    sheet: &mut [u8],
    answer: &mut [u8],
    source: &mut R,
) -> Result<Frame, NoFrame>
    requires { (at_of s.old ≤ length given.now) × (262144 ≤ length sheet.old) × (524288 ≤ length answer.old) }
    ensures { FrameRead tape.now given.now s.old result s.new sheet.new answer.new }
{
    let f = read_head(s, tape, given, source)?;
    let n = streams::fill(s, tape, given, &mut sheet[..f.sheet], source)?;
    let short = n < f.sheet;
    if short {
        return Err(NoFrame::Other);
    }
    let m = streams::fill(s, tape, given, &mut answer[..f.answer], source)?;
    if m < f.answer {
        return Err(NoFrame::Other);
    }
    Ok(f)
}

// ---- writing

// A number behind the first `at` bytes, and where it ends.
pub fn put_count(out: &mut [u8], at: usize, v: u64) -> usize
    requires { at + 20 ≤ length out.old }
    ensures { Wrote (20) at out.old result out.new (decimal v) }
{
    let mut text = [0u8; 20];
    let k = io::decimal(v, &mut text);
    lines::put_bytes(out, at, &text[..k])
}

fn put_differs(out: &mut [u8], same: bool, k: u64) -> usize
    requires { 64 ≤ length out.old }
    ensures { Wrote (64) 0 out.old result out.new (differs_line same k) }
{
    if same {
        return 0;
    }
    let a = lines::put_bytes(out, 0, b"differs: ");
    let b = put_count(out, a, k);
    lines::put_bytes(out, b, b"\n")
}

fn put_summary(out: &mut [u8], whole: bool, answers: u64, differ: u64) -> usize
    requires { 64 ≤ length out.old }
    ensures { Wrote (64) 0 out.old result out.new (summary whole answers differ) }
{
    let a = put_count(out, 0, answers);
    if !whole {
        return lines::put_bytes(out, a, b" answers, then no frame\n");
    }
    if differ == 0 {
        return lines::put_bytes(out, a, b" answers, all equal\n");
    }
    let b = lines::put_bytes(out, a, b" answers, ");
    let c = put_count(out, b, differ);
    lines::put_bytes(out, c, b" differ\n")
}

// Says which answer it is, where it is another.
pub fn tell<W: Write>(
    same: bool,
    k: u64,
    s: &mut Stream,
    tape: &[usize],
    paper: &mut [u8],
    sink: &mut W,
) -> Result<(), Cut>
    requires { at_of s.old ≤ length paper.old }
    ensures { WroteAll tape.now paper.old (differs_line same k) s.old result s.new paper.new }
{
    let mut line = [0u8; 64];
    let n = put_differs(&mut line, same, k);
    streams::write_all(s, tape, paper, &line[..n], sink)
}

// Says how many answers there were, and how many differ.
pub fn sum_up<W: Write>(
    whole: bool,
    answers: u64,
    differ: u64,
    s: &mut Stream,
    tape: &[usize],
    paper: &mut [u8],
    sink: &mut W,
) -> Result<(), Cut>
    requires { at_of s.old ≤ length paper.old }
    ensures { WroteAll tape.now paper.old (summary whole answers differ) s.old result s.new paper.new }
{
    let mut line = [0u8; 64];
    let n = put_summary(&mut line, whole, answers, differ);
    streams::write_all(s, tape, paper, &line[..n], sink)
}
