// Sorts the stored sheets on standard input by the order on whole jobs, as `order` answers it, from two starting
// orders: as they are stored, and the last first. Writes how many there are and how many are refused, what stands
// beside what in the sorted row, and at how many places the row from behind has another job. What fails is said on
// standard error.
#![tactic(auto)]

mod row;

ghost use Rattle.std.specs.Prelude.{◌≡◌, ◌+◌, ◌^◌, ◌≤◌, ◌<◌, length};
ghost use Rattle.words.specs.Words.{word_count};
ghost use Rattle.job.specs.Regions.{max_work};
ghost use Rattle.lines.specs.Wrote.{Wrote};
ghost use Rattle.sheet_rules.specs.Places.{table_words};
ghost use Rattle.shelf.specs.Tallies.{tally_line, broken_line};

use frames::NoFrame;
use order_answer::memory::Lent;
use row::Seen;
use std::io;
use std::io::{Error, Stdin};
use streams::{Noted, STDIN, Stream};

// The sheets that pass lie one behind the other at the start of the store: how long each of them is, how many there
// are, how many bytes they have, and how many others were refused.
#[derive(Drop)]
struct Shelf {
    sizes: [usize; 1024],
    count: usize,
    used: usize,
    refused: u64,
    ghost few: { count ≤ 1024 },
    ghost within: { used ≤ 2097152 },
    ghost all: { refused + count < 2 ^ 64 },
}

// Why no more is put on the shelf: there is no next frame, or no room for one more sheet.
#[derive(Clone, Copy, PartialEq, Eq)]
enum Stop {
    No(NoFrame),
    Full,
}

// What is told of the sorted rows.
#[derive(Clone, Copy)]
struct Tally {
    refused: u64,
    kept: u64,
    same: u64,
    astray: u64,
    differ: u64,
}

// ---- reading

// The sheet in the first bytes behind those on the shelf is put there, if it passes.
fn put(shelf: &mut Shelf, store: &[u8], n: usize, lent: &mut Lent)
    requires { (shelf.old.count < 1024) × (shelf.old.used + n ≤ 2097152) × (length store.now ≡ 2097152)
        × (shelf.old.refused + shelf.old.count + 1 < 2 ^ 64) }
    ensures { shelf.new.refused + shelf.new.count ≡ shelf.old.refused + shelf.old.count + 1 }
{
    let to = shelf.used + n;
    let sheet = &store[shelf.used..to];
    if order_answer::memory::read_job(sheet, lent.first, lent.written, lent.work).is_err() {
        shelf.refused += 1;
        return;
    }
    shelf.sizes[shelf.count] = n;
    shelf.count += 1;
    shelf.used = to;
}

// Puts the sheets that pass on the shelf, frame by frame; each is read to where it would lie. A proved loop has to end,
// and nothing says that the input does: so there are only so many turns as no run uses up. Standard input is a
// descriptor, so the tape and the bytes that it gives are looked at by nobody.
fn fill(
    shelf: &mut Shelf,
    store: &mut [u8; 2097152],
    answer: &mut [u8; 524288],
    lent: &mut Lent,
    source: &mut Noted<Stdin>,
) -> Stop
    requires { shelf.old.refused + shelf.old.count ≡ 0 }
{
    let tape = [0usize; 1];
    let given = [0u8; 1];
    let mut at = Stream::Descriptor(STDIN);
    for _ in 0..u64::MAX {
        if 1024 <= shelf.count || 2097152 - 262144 < shelf.used {
            return Stop::Full;
        }
        let room = &mut store[shelf.used..];
        match frames::read_frame(&mut at, &tape, &given, room, answer, source) {
            Ok(f) => put(shelf, store, f.sheet, lent),
            Err(e) => return Stop::No(e),
        }
    }
    Stop::No(NoFrame::Failed)
}

// The sheets on the shelf in a row, as they are stored. Together they have no more bytes than the store, which no
// clause says: hence the `min`.
fn line_up<'a>(store: &'a [u8], sizes: &[usize], row: &mut [&'a [u8]])
    requires { length sizes.now ≡ length row.old }
{
    let mut rest = store;
    for i in 0..sizes.len() {
        let (sheet, behind) = rest.split_at(sizes[i].min(rest.len()));
        row[i] = sheet;
        rest = behind;
    }
}

// ---- what is told

fn put_tally(out: &mut [u8], t: Tally, all: u64) -> usize
    requires { 256 ≤ length out.old }
    ensures { Wrote (256) 0 out.old result out.new (tally_line all t.refused t.kept t.same t.astray t.differ) }
{
    let a = frames::put_count(out, 0, all);
    let b = lines::put_bytes(out, a, b" sheets: ");
    let c = frames::put_count(out, b, t.refused);
    let d = lines::put_bytes(out, c, b" refused, ");
    let e = frames::put_count(out, d, t.kept);
    let f = lines::put_bytes(out, e, b" on the shelf, ");
    let g = frames::put_count(out, f, t.same);
    let h = lines::put_bytes(out, g, b" same as the one before, ");
    let i = frames::put_count(out, h, t.astray);
    let j = lines::put_bytes(out, i, b" out of order; from behind ");
    let k = frames::put_count(out, j, t.differ);
    lines::put_bytes(out, k, b" differ\n")
}

fn put_broken(out: &mut [u8], all: u64) -> usize
    requires { 64 ≤ length out.old }
    ensures { Wrote (64) 0 out.old result out.new (broken_line all) }
{
    let a = frames::put_count(out, 0, all);
    lines::put_bytes(out, a, b" sheets, then no frame\n")
}

// Writes a line, or says on standard error why it is cut.
fn show(rt: &HostRuntime, line: &[u8]) -> io::Result<()> {
    let mut sink = Noted::new(rt.stdout());
    if streams::write_to(&mut sink, line).is_err() {
        let what = "shelf: the tally could not be written, and is cut";
        return streams::fail(rt, what, sink.reason);
    }
    Ok(())
}

// The sheets sorted, from both starting orders.
fn sorted(store: &[u8], shelf: &Shelf, lent: &mut Lent) -> Tally {
    let none: &[u8] = b"";
    let mut places = [none; 1024];
    let row = &mut places[..shelf.count];
    line_up(store, &shelf.sizes[..shelf.count], row);
    let mut others = [none; 1024];
    let other = &mut others[..shelf.count];
    other.copy_from_slice(row);
    other.reverse();
    row::sort(row, lent);
    row::sort(other, lent);
    let seen = row::look(row, lent);
    Tally {
        refused: shelf.refused,
        kept: shelf.count as u64,
        same: seen.same as u64,
        astray: seen.astray as u64,
        differ: row::differences(row, other, lent) as u64,
    }
}

// What is told when the input has ended.
fn tell(rt: &HostRuntime, store: &[u8], shelf: &Shelf, lent: &mut Lent) -> io::Result<()> {
    let t = sorted(store, shelf, lent);
    let mut line = [0u8; 256];
    let n = put_tally(&mut line, t, shelf.refused + shelf.count as u64);
    show(rt, &line[..n])
}

// The same where something else follows.
fn tell_broken(rt: &HostRuntime, shelf: &Shelf) -> io::Result<()> {
    let mut line = [0u8; 64];
    let n = put_broken(&mut line, shelf.refused + shelf.count as u64);
    show(rt, &line[..n])
}

// What is told, by why no more was put on the shelf; `reason` is why a read failed.
fn end(
    rt: &HostRuntime,
    store: &[u8],
    shelf: &Shelf,
    stop: Stop,
    reason: Option<Error>,
    lent: &mut Lent,
) -> io::Result<()> {
    match stop {
        Stop::No(NoFrame::Ended) => tell(rt, store, shelf, lent),
        Stop::No(NoFrame::Other) => tell_broken(rt, shelf),
        Stop::No(NoFrame::Failed) => {
            let what = "shelf: the stored sheets could not be read, and none is sorted";
            streams::fail(rt, what, reason)
        }
        Stop::Full => {
            eprintln!(rt; "shelf: there are more sheets than the shelf holds, and none is sorted")
        }
    }
}

fn main(rt: HostRuntime) -> io::Result<()> {
    let mut store = [0u8; 2097152];
    let mut answer = [0u8; 524288];
    let mut first = [0u8; 174680];
    let mut second = [0u8; 174680];
    let mut written = [0u8; 6144];
    let mut work = [0u8; 110600];
    let mut lent = Lent {
        first: &mut first,
        second: &mut second,
        written: &mut written,
        work: &mut work,
    };
    let mut shelf = Shelf {
        sizes: [0; 1024],
        count: 0,
        used: 0,
        refused: 0,
    };
    let mut source = Noted::new(rt.stdin());
    let stop = fill(&mut shelf, &mut store, &mut answer, &mut lent, &mut source);
    end(&rt, &store, &shelf, stop, source.reason, &mut lent)
}
