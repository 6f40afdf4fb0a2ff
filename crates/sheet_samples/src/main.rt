// Runs every sample of the document SHEETS.md: a block marked `job` is read and answered, and the answer held byte for
// byte to the block behind it, marked `registers` for the answer of `vregs`, or `to_form2` or `to_form1` for that
// program's. Two of them with a block marked `order` behind are compared, and the answer is held to that block. Writes
// how many samples agree and differ, and how many such blocks have no partner. What fails is said on standard error.
#![tactic(auto)]

mod document;

ghost use Rattle.std.specs.Prelude.{◌≡◌, ◌+◌, ◌^◌, ◌≤◌, ◌<◌, length};
ghost use Rattle.definition.specs.Text.{same};
ghost use Rattle.definition.specs.JobOrder.{ordered_text};
ghost use Rattle.words.specs.Words.{word_count};
ghost use Rattle.sheet_rules.specs.Places.{table_words};
ghost use Rattle.lines.specs.Wrote.{Wrote};
ghost use Rattle.sheet_samples.specs.Tallies.{differs_line, tally_line};

use convert::memory::Lent;
use document::{OrderedPair, Program, Sample};
use std::fs::File;
use std::io;
use std::io::Stdout;
use streams::Noted;
use vregs_answer::Space;

// Cut where a line could not be written: then no more are. `cut` is a flag and no Result: the numbers count on, and
// the sink has the reason.
#[derive(Clone, Copy, Default)]
struct Tally {
    agree: u64,
    differ: u64,
    alone: u64,
    cut: bool,
}

fn put_differs(out: &mut [u8], number: u64) -> usize
    requires { 64 ≤ length out.old }
    ensures { Wrote (64) 0 out.old result out.new (differs_line number) }
{
    let a = lines::put_bytes(out, 0, b"sample ");
    let b = frames::put_count(out, a, number);
    lines::put_bytes(out, b, b" differs\n")
}

// Says which sample it is; whether that is cut. home::tell says another line, and `put_differs` promises which: one for
// both would only hand it on.
fn tell(number: u64, sink: &mut Noted<Stdout>) -> bool {
    let mut line = [0u8; 64];
    let n = put_differs(&mut line, number);
    streams::write_to(sink, &line[..n]).is_err()
}

// Whether the answer is what the program writes for the sheet.
fn agrees(program: Program, sheet: &[u8], answer: &[u8], space: &mut Space) -> bool {
    let second = match program {
        Program::Vregs => return vregs_answer::replay::is_answer(sheet, answer, space),
        Program::ToForm2 => true,
        Program::ToForm1 => false,
    };
    let mut lent = Lent {
        buf: &mut *space.buf,
        table: &mut *space.table,
        written: &mut *space.written,
        work: &mut *space.work,
    };
    convert::memory::is_moved(second, sheet, answer, &mut lent)
}

// Whether the answer is what `order` writes for the two sheets. `second` is the table of the second one.
fn is_order(pair: OrderedPair<'_>, space: &mut Space, second: &mut [u8]) -> bool
    requires { word_count second.old ≡ table_words }
    ensures { result ≡ same pair.entry.answer.now (ordered_text pair.entry.first.now pair.entry.second.now) }
{
    let mut lent = order_answer::memory::Lent {
        first: &mut *space.table,
        second: &mut *second,
        written: &mut *space.written,
        work: &mut *space.work,
    };
    order_answer::memory::is_answer(pair.first, pair.second, pair.answer, &mut lent)
}

// One more sample.
fn count_sample(agrees: bool, t: &mut Tally, sink: &mut Noted<Stdout>)
    requires { t.old.agree + t.old.differ + t.old.alone < 2 ^ 63 }
    ensures { t.new.agree + t.new.differ + t.new.alone ≡ t.old.agree + t.old.differ + t.old.alone + 1 }
{
    if agrees {
        t.agree += 1;
        return;
    }
    t.differ += 1;
    if !t.cut {
        t.cut = tell(t.agree + t.differ, sink);
    }
}

// One more block.
fn count(
    s: Sample<'_>,
    t: &mut Tally,
    space: &mut Space,
    second: &mut [u8; 174680],
    sink: &mut Noted<Stdout>,
)
    requires { t.old.agree + t.old.differ + t.old.alone < 2 ^ 63 }
    ensures { t.new.agree + t.new.differ + t.new.alone ≤ t.old.agree + t.old.differ + t.old.alone + 1 }
{
    match s {
        Sample::Paired {
            program,
            sheet,
            answer,
        } => count_sample(agrees(program, sheet, answer, space), t, sink),
        Sample::Ordered(pair) => count_sample(is_order(pair, space, second), t, sink),
        Sample::Alone => t.alone += 1,
        Sample::Other => {}
    }
}

// All blocks of the document.
fn count_all(
    doc: &[u8],
    space: &mut Space,
    second: &mut [u8; 174680],
    sink: &mut Noted<Stdout>,
) -> Tally
    requires { length doc.now < 2 ^ 62 }
{
    let mut t = Tally::default();
    let mut rest = document::from_fence(doc);
    // From block to block, and where a block ends is known behind it: no index counts here.
    while !rest.is_empty() {
        let (s, behind) = document::first_sample(rest);
        count(s, &mut t, space, second, sink);
        rest = document::from_fence(behind);
    }
    t
}

fn put_tally(out: &mut [u8], agree: u64, differ: u64, alone: u64) -> usize
    requires { 128 ≤ length out.old }
    ensures { Wrote (128) 0 out.old result out.new (tally_line agree differ alone) }
{
    let a = frames::put_count(out, 0, agree);
    let b = lines::put_bytes(out, a, b" samples agree, ");
    let c = frames::put_count(out, b, differ);
    let d = lines::put_bytes(out, c, b" differ, ");
    let e = frames::put_count(out, d, alone);
    lines::put_bytes(out, e, b" blocks have no partner\n")
}

// Writes the tally, where no line before it is cut; whether one is cut.
fn show(t: Tally, sink: &mut Noted<Stdout>) -> bool {
    if t.cut {
        return true;
    }
    let mut line = [0u8; 128];
    let n = put_tally(&mut line, t.agree, t.differ, t.alone);
    streams::write_to(sink, &line[..n]).is_err()
}

fn run(rt: &HostRuntime, doc: &[u8]) -> io::Result<()>
    requires { length doc.now < 2 ^ 62 }
{
    let mut buf = [0u8; 4096];
    let mut table = [0u8; 174680];
    let mut second = [0u8; 174680];
    let mut written = [0u8; 6144];
    let mut out = [0u8; 460800];
    let mut work = [0u8; 110600];
    let mut sink = Noted::new(rt.stdout());
    let mut space = Space {
        buf: &mut buf,
        table: &mut table,
        written: &mut written,
        out: &mut out,
        work: &mut work,
    };
    let t = count_all(doc, &mut space, &mut second, &mut sink);
    if show(t, &mut sink) {
        let what = "sheet_samples: the tally could not be written, and is cut";
        return streams::fail(rt, what, sink.reason);
    }
    Ok(())
}

fn main(rt: HostRuntime) -> io::Result<()> {
    let mut source = match File::open(&rt, "SHEETS.md") {
        Ok(file) => Noted::new(file),
        Err(e) => {
            let what = "sheet_samples: SHEETS.md could not be opened, and nothing is tallied";
            return streams::fail(&rt, what, Some(e));
        }
    };
    let mut text = [0u8; 131072];
    let Ok(n) = streams::fill_from(&mut source, &mut text) else {
        let what = "sheet_samples: SHEETS.md could not be read, and nothing is tallied";
        return streams::fail(&rt, what, source.reason);
    };
    if n == 131072 {
        return eprintln!(rt; "sheet_samples: SHEETS.md is too long, and nothing is tallied");
    }
    run(&rt, &text[..n])
}
