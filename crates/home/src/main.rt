// Moves every stored sheet on standard input to its other form and home again, and holds each refusal to the stored
// answer. Writes how many sheets came home, are refused and differ. What fails is said on standard error.
#![tactic(auto)]

ghost use Rattle.std.specs.Prelude.{◌≡◌, ◌+◌, ◌^◌, ◌≤◌, ◌<◌, length};
ghost use Rattle.lines.specs.Wrote.{Wrote};
ghost use Rattle.home.specs.Tallies.{differs_line, tally_line, broken_line};

use convert::memory::Lent;
use frames::NoFrame;
use std::io;
use std::io::{Error, Stdout};
use streams::{Noted, STDIN, Stream};

// A sheet that was moved and came home, one that is refused as its stored answer says, or one that differs.
#[derive(Clone, Copy)]
enum Way {
    Home,
    Refused,
    Differs,
}

// Cut where a line could not be written: then no more are. `cut` is a flag and no Result: the numbers count on, and
// the sink has the reason.
#[derive(Clone, Copy, Default)]
struct Tally {
    home: u64,
    refused: u64,
    differ: u64,
    cut: bool,
}

fn put_differs(out: &mut [u8], number: u64) -> usize
    requires { 64 ≤ length out.old }
    ensures { Wrote (64) 0 out.old result out.new (differs_line number) }
{
    let a = lines::put_bytes(out, 0, b"differs: ");
    let b = frames::put_count(out, a, number);
    lines::put_bytes(out, b, b"\n")
}

// Says which sheet it is; whether that is cut. sheet_samples::tell says another line, and `put_differs` promises which:
// one for both would only hand it on.
fn tell(number: u64, sink: &mut Noted<Stdout>) -> bool {
    let mut line = [0u8; 64];
    let n = put_differs(&mut line, number);
    streams::write_to(sink, &line[..n]).is_err()
}

// One more sheet.
// That one more fits is a clause and no ghost field of the tally: it comes from the bound of the loop that counts.
fn count(t: &mut Tally, w: Way, sink: &mut Noted<Stdout>)
    requires { t.old.home + t.old.refused + t.old.differ + 1 < 2 ^ 64 }
    ensures { t.new.home + t.new.refused + t.new.differ ≡ t.old.home + t.old.refused + t.old.differ + 1 }
{
    match w {
        Way::Home => t.home += 1,
        Way::Refused => t.refused += 1,
        Way::Differs => {
            t.differ += 1;
            if !t.cut {
                t.cut = tell(t.home + t.refused + t.differ, sink);
            }
        }
    }
}

// Whether a stored answer is the refusal of a test: 1 to 7 or 10, and not 8 or 9.
fn by_tests(answer: &[u8]) -> bool {
    10 <= answer.len() && answer[0] == b'r' && answer[8] < b'8'
}

// What becomes of a stored sheet.
fn way_of(sheet: &[u8], answer: &[u8], there: &mut [u8], lent: &mut Lent) -> Way
    requires { 256 ≤ length there.old }
{
    let Some(m) = convert::memory::comes_home(sheet, there, lent) else {
        return Way::Differs;
    };
    if m.refused.is_none() {
        return if by_tests(answer) {
            Way::Differs
        } else {
            Way::Home
        };
    }
    let n = m.n;
    if answer == &there[..n] {
        Way::Refused
    } else {
        Way::Differs
    }
}

// The same, the parts of the frame being the first n and m bytes.
fn way_at(
    sheet: &[u8],
    n: usize,
    answer: &[u8],
    m: usize,
    there: &mut [u8; 524288],
    lent: &mut Lent,
) -> Way
    requires { (n ≤ length sheet.now) × (m ≤ length answer.now) }
{
    way_of(&sheet[..n], &answer[..m], there, lent)
}

fn put_tally(out: &mut [u8], home: u64, refused: u64, differ: u64, all: u64) -> usize
    requires { 160 ≤ length out.old }
    ensures { Wrote (160) 0 out.old result out.new (tally_line home refused differ all) }
{
    let a = frames::put_count(out, 0, all);
    let b = lines::put_bytes(out, a, b" sheets: ");
    let c = frames::put_count(out, b, home);
    let d = lines::put_bytes(out, c, b" moved and home, ");
    let e = frames::put_count(out, d, refused);
    let f = lines::put_bytes(out, e, b" refused, ");
    let g = frames::put_count(out, f, differ);
    lines::put_bytes(out, g, b" differ\n")
}

fn put_broken(out: &mut [u8], all: u64) -> usize
    requires { 160 ≤ length out.old }
    ensures { Wrote (160) 0 out.old result out.new (broken_line all) }
{
    let a = frames::put_count(out, 0, all);
    lines::put_bytes(out, a, b" sheets, then no frame\n")
}

// Says how many there were: the input ended with them. Whether that is cut.
fn show(t: Tally, sink: &mut Noted<Stdout>) -> bool
    requires { t.home + t.refused + t.differ < 2 ^ 64 }
{
    let all = t.home + t.refused + t.differ;
    let mut line = [0u8; 160];
    let n = put_tally(&mut line, t.home, t.refused, t.differ, all);
    streams::write_to(sink, &line[..n]).is_err()
}

// The same: it went on with something else.
fn show_broken(t: Tally, sink: &mut Noted<Stdout>) -> bool
    requires { t.home + t.refused + t.differ < 2 ^ 64 }
{
    let all = t.home + t.refused + t.differ;
    let mut line = [0u8; 160];
    let n = put_broken(&mut line, all);
    streams::write_to(sink, &line[..n]).is_err()
}

// The one or the other, by what followed. Whether that is cut.
fn show_end(t: Tally, e: NoFrame, sink: &mut Noted<Stdout>) -> bool
    requires { t.home + t.refused + t.differ < 2 ^ 64 }
{
    if e == NoFrame::Ended {
        show(t, sink)
    } else {
        show_broken(t, sink)
    }
}

// Says on standard error that a line is cut.
fn tell_cut(rt: &HostRuntime, sink: &Noted<Stdout>) -> io::Result<()> {
    let what = "home: the tally could not be written, and is cut";
    streams::fail(rt, what, sink.reason)
}

// The tally, or what failed; `reason` is why a read did.
fn end(
    rt: &HostRuntime,
    t: Tally,
    e: NoFrame,
    reason: Option<Error>,
    sink: &mut Noted<Stdout>,
) -> io::Result<()>
    requires { t.home + t.refused + t.differ < 2 ^ 64 }
{
    if t.cut {
        tell_cut(rt, sink)?;
    }
    if e == NoFrame::Failed {
        let what = "home: the stored sheets could not be read, and nothing is tallied";
        return streams::fail(rt, what, reason);
    }
    if !t.cut && show_end(t, e, sink) {
        return tell_cut(rt, sink);
    }
    Ok(())
}

// All frames. A proved loop has to end, and nothing says that the input does: so there are only so many
// turns as no run uses up. Standard input is a descriptor, so the tape and the bytes that it gives are looked at by
// nobody.
fn run(
    rt: &HostRuntime,
    sheet: &mut [u8; 262144],
    answer: &mut [u8; 524288],
    there: &mut [u8; 524288],
    lent: &mut Lent,
) -> io::Result<()> {
    let mut source = Noted::new(rt.stdin());
    let mut sink = Noted::new(rt.stdout());
    let tape = [0usize; 1];
    let given = [0u8; 1];
    let mut at = Stream::Descriptor(STDIN);
    let mut t = Tally::default();
    for _ in 0..u64::MAX {
        match frames::read_frame(&mut at, &tape, &given, sheet, answer, &mut source) {
            Ok(f) => {
                let w = way_at(sheet, f.sheet, answer, f.answer, there, lent);
                count(&mut t, w, &mut sink);
            }
            Err(e) => return end(rt, t, e, source.reason, &mut sink),
        }
    }
    end(rt, t, NoFrame::Failed, source.reason, &mut sink)
}

fn main(rt: HostRuntime) -> io::Result<()> {
    let mut sheet = [0u8; 262144];
    let mut answer = [0u8; 524288];
    let mut there = [0u8; 524288];
    let mut buf = [0u8; 65536];
    let mut table = [0u8; 174680];
    let mut written = [0u8; 6144];
    let mut work = [0u8; 110600];
    let mut lent = Lent {
        buf: &mut buf,
        table: &mut table,
        written: &mut written,
        work: &mut work,
    };
    run(&rt, &mut sheet, &mut answer, &mut there, &mut lent)
}
