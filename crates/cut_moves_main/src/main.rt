// Runs the exported function on what would move a cut, on the marked cases F and G, on ties and on each of its
// refusals, and writes number, count and the list's words of each answer. A write that fails is said on standard error.
#![tactic(auto)]

ghost use Rattle.std.specs.Prelude.{◌+◌, ◌*◌, ◌/◌, ◌≤◌, length};

use std::io;
use streams::Noted;

// The words of a list, each behind a tab.
fn put_words(out: &mut [u8], at: usize, list: &[u8]) -> usize
    requires { at + length list.now / 4 * 21 ≤ length out.old }
    ensures { result ≤ at + length list.now / 4 * 21 }
{
    let mut a = at;
    for i in 0..list.len() / 4 {
        a = lines::put_field(out, a, words::word_at(list, i));
    }
    a
}

// Number, count and the list's words, and the end of the line.
fn put_answer(out: &mut [u8], at: usize, number: u32, count: u32, list: &[u8]) -> usize
    requires { (length list.now ≤ 39) × (at + 232 ≤ length out.old) }
    ensures { result ≤ at + 232 }
{
    let a = lines::put_field(out, at, number);
    let b = lines::put_field(out, a, count);
    let c = put_words(out, b, list);
    lines::put_bytes(out, c, b"\n")
}

// One answer behind the first `at` bytes: its name, the number, the count and the list, which comes with what it held
// before.
fn show(
    out: &mut [u8],
    at: usize,
    name: &[u8],
    blocks: &[u8],
    after: u32,
    before: u32,
    side: u32,
    list: &mut [u8],
    work: &mut [u8; 4104],
) -> usize
    requires { (length name.now ≤ 32) × (length list.old ≤ 39) × (at + 264 ≤ length out.old) }
    ensures { result ≤ at + 264 }
{
    let end = cut_moves::find_cut_moves(blocks, after, before, side, list, work);
    let a = lines::put_bytes(out, at, name);
    put_answer(out, a, end.number, end.count, list)
}

// Room behind `at` is a clause of each case, and no type: each call leaves less of it.
// 01's F: blocks of four, four and eight instructions, of frequencies 3, 2 and 2.
fn case_f(out: &mut [u8], at: usize, list: &mut [u8; 39], work: &mut [u8; 4104]) -> usize
    requires { at + 528 ≤ length out.old }
    ensures { result ≤ at + 528 }
{
    let f =
        b"\x04\x00\x00\x00\x00\x00\x40\x40\x04\x00\x00\x00\x00\x00\x00\x40\x08\x00\x00\x00\x00\x00\x00\x40";
    let a = show(out, at, b"F early", f, 1, 13, 0, list, work);
    show(out, a, b"F late", f, 1, 13, 1, list, work)
}

// 01's G: the frequencies are 3, 2 and 1, and `before` is the start of the last block.
fn case_g(out: &mut [u8], at: usize, list: &mut [u8; 39], work: &mut [u8; 4104]) -> usize
    requires { at + 528 ≤ length out.old }
    ensures { result ≤ at + 528 }
{
    let g =
        b"\x04\x00\x00\x00\x00\x00\x40\x40\x04\x00\x00\x00\x00\x00\x00\x40\x08\x00\x00\x00\x00\x00\x80\x3f";
    let a = show(out, at, b"G early", g, 1, 8, 0, list, work);
    show(out, a, b"G late", g, 1, 8, 1, list, work)
}

// Three blocks of two instructions, all of frequency zero; and the greatest frequency twice.
fn ends_of_the_line(out: &mut [u8], at: usize, list: &mut [u8; 39], work: &mut [u8; 4104]) -> usize
    requires { at + 528 ≤ length out.old }
    ensures { result ≤ at + 528 }
{
    let zeros =
        b"\x02\x00\x00\x00\x00\x00\x00\x00\x02\x00\x00\x00\x00\x00\x00\x00\x02\x00\x00\x00\x00\x00\x00\x00";
    let greatest =
        b"\x02\x00\x00\x00\xff\xff\x7f\x7f\x02\x00\x00\x00\xff\xff\x7f\x7f\x02\x00\x00\x00\x00\x00\x00\x00";
    let a = show(out, at, b"all zero", zeros, 0, 5, 0, list, work);
    show(out, a, b"the greatest twice", greatest, 0, 3, 0, list, work)
}

// The second least on both sides of the least.
fn both_sides(out: &mut [u8], at: usize, list: &mut [u8; 39], work: &mut [u8; 4104]) -> usize
    requires { at + 528 ≤ length out.old }
    ensures { result ≤ at + 528 }
{
    let both =
        b"\x02\x00\x00\x00\x0c\x00\x00\x00\x02\x00\x00\x00\x0a\x00\x00\x00\x02\x00\x00\x00\x0c\x00\x00\x00";
    let a = show(out, at, b"on both sides early", both, 0, 5, 0, list, work);
    show(out, a, b"on both sides late", both, 0, 5, 1, list, work)
}

// One block: an empty list. A side off its list.
fn one_block(out: &mut [u8], at: usize, list: &mut [u8; 39], work: &mut [u8; 4104]) -> usize
    requires { at + 528 ≤ length out.old }
    ensures { result ≤ at + 528 }
{
    let one = b"\x04\x00\x00\x00\x00\x00\x40\x40";
    let a = show(out, at, b"one block", one, 0, 2, 0, list, work);
    show(out, a, b"side off its list", one, 0, 2, 2, list, work)
}

fn bad_blocks(out: &mut [u8], at: usize, list: &mut [u8; 39], work: &mut [u8; 4104]) -> usize
    requires { at + 528 ≤ length out.old }
    ensures { result ≤ at + 528 }
{
    let many = b"\x01\x10\x00\x00\x00\x00\x40\x40";
    let a = show(out, at, b"no block", b"", 0, 2, 0, list, work);
    show(out, a, b"too many instructions", many, 0, 2, 0, list, work)
}

// A list short by a byte: two blocks are open, but there are three. A bad block comes before that.
fn short_list(out: &mut [u8], at: usize, work: &mut [u8; 4104]) -> usize
    requires { at + 528 ≤ length out.old }
    ensures { result ≤ at + 528 }
{
    let mut list = [255u8; 35];
    let fine =
        b"\x02\x00\x00\x00\x00\x00\x00\x00\x02\x00\x00\x00\x00\x00\x00\x00\x02\x00\x00\x00\x00\x00\x00\x00";
    let minus =
        b"\x02\x00\x00\x00\x00\x00\x00\x80\x02\x00\x00\x00\x00\x00\x00\x00\x02\x00\x00\x00\x00\x00\x00\x00";
    let a = show(
        out,
        at,
        b"two open, three places needed",
        fine,
        0,
        3,
        0,
        &mut list,
        work,
    );
    show(out, a, b"minus zero", minus, 0, 3, 0, &mut list, work)
}

fn bad_ends(out: &mut [u8], at: usize, work: &mut [u8; 4104]) -> usize
    requires { at + 528 ≤ length out.old }
    ensures { result ≤ at + 528 }
{
    let mut list = [255u8; 35];
    let fine =
        b"\x02\x00\x00\x00\x00\x00\x00\x00\x02\x00\x00\x00\x00\x00\x00\x00\x02\x00\x00\x00\x00\x00\x00\x00";
    let a = show(
        out,
        at,
        b"ends not in order",
        fine,
        3,
        3,
        1,
        &mut list,
        work,
    );
    show(
        out,
        a,
        b"past the last instruction",
        fine,
        0,
        6,
        1,
        &mut list,
        work,
    )
}

fn accepted(out: &mut [u8], list: &mut [u8; 39], work: &mut [u8; 4104]) -> usize
    requires { 2112 ≤ length out.old }
    ensures { result ≤ 2112 }
{
    let a = case_f(out, 0, list, work);
    let b = case_g(out, a, list, work);
    let c = ends_of_the_line(out, b, list, work);
    both_sides(out, c, list, work)
}

fn refused(out: &mut [u8], at: usize, list: &mut [u8; 39], work: &mut [u8; 4104]) -> usize
    requires { at + 2112 ≤ length out.old }
    ensures { result ≤ at + 2112 }
{
    let a = one_block(out, at, list, work);
    let b = bad_blocks(out, a, list, work);
    let c = short_list(out, b, work);
    bad_ends(out, c, work)
}

fn all(out: &mut [u8], work: &mut [u8; 4104]) -> usize
    requires { 4224 ≤ length out.old }
    ensures { result ≤ length out.new }
{
    let mut list = [255u8; 39];
    let a = accepted(out, &mut list, work);
    refused(out, a, &mut list, work)
}

// What find_cut_main::main does alike are the calls of `write_to` and `fail`: lengths, answers and words are its own.
fn main(rt: HostRuntime) -> io::Result<()> {
    let mut out = [0u8; 4224];
    let mut work = [0u8; 4104];
    let n = all(&mut out, &mut work);
    let mut sink = Noted::new(rt.stdout());
    if streams::write_to(&mut sink, &out[0..n]).is_err() {
        let what = "cut_moves_main: the answers could not be written, and are cut";
        return streams::fail(&rt, what, sink.reason);
    }
    Ok(())
}
