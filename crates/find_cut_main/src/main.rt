// Runs the exported cut finder on the marked cases F and G and on each of its refusals, and writes number and instruction of each answer. A write that fails is said on standard error.
#![tactic(auto)]

ghost use Rattle.std.specs.Prelude.{◌+◌, ◌≤◌, length};

use std::io;
use streams::Noted;

// One answer behind the first `at` bytes: its name, the number and the instruction.
fn show(
    out: &mut [u8],
    at: usize,
    name: &[u8],
    blocks: &[u8],
    after: u32,
    before: u32,
    side: u32,
    work: &mut [u8; 4104],
) -> usize
    requires { (length name.now ≤ 32) × (at + 75 ≤ length out.old) }
    ensures { result ≤ at + 75 }
{
    let cut = find_cut::find_optimal_split_point(blocks, after, before, side, work);
    let a = lines::put_bytes(out, at, name);
    let b = lines::put_field(out, a, cut.number);
    let c = lines::put_field(out, b, cut.inst);
    lines::put_bytes(out, c, b"\n")
}

// Blocks of four instructions, of frequencies 3, 2, 2 (F) and 3, 2, 1 (G).
fn marked(out: &mut [u8], work: &mut [u8; 4104]) -> usize
    requires { 225 ≤ length out.old }
    ensures { result ≤ 225 }
{
    let f =
        b"\x04\x00\x00\x00\x00\x00\x40\x40\x04\x00\x00\x00\x00\x00\x00\x40\x04\x00\x00\x00\x00\x00\x00\x40";
    let g =
        b"\x04\x00\x00\x00\x00\x00\x40\x40\x04\x00\x00\x00\x00\x00\x00\x40\x04\x00\x00\x00\x00\x00\x80\x3f";
    let a = show(out, 0, b"F early", f, 1, 10, 0, work);
    let b = show(out, a, b"F late", f, 1, 10, 1, work);
    show(out, b, b"G early", g, 1, 8, 0, work)
}

fn bad_arguments(out: &mut [u8], at: usize, work: &mut [u8; 4104]) -> usize
    requires { at + 225 ≤ length out.old }
    ensures { result ≤ at + 225 }
{
    let one = b"\x04\x00\x00\x00\x00\x00\x40\x40";
    let a = show(out, at, b"side off its list", one, 0, 2, 2, work);
    let b = show(
        out,
        a,
        b"no whole rows",
        b"\x04\x00\x00\x00\x00",
        0,
        2,
        0,
        work,
    );
    let many = b"\x01\x10\x00\x00\x00\x00\x40\x40";
    show(out, b, b"too many instructions", many, 0, 2, 0, work)
}

fn bad_blocks(out: &mut [u8], at: usize, work: &mut [u8; 4104]) -> usize
    requires { at + 150 ≤ length out.old }
    ensures { result ≤ at + 150 }
{
    let none = b"\x00\x00\x00\x00\x00\x00\x40\x40";
    let endless = b"\x04\x00\x00\x00\x00\x00\x80\x7f";
    let a = show(out, at, b"empty block", none, 0, 2, 0, work);
    show(out, a, b"infinite frequency", endless, 0, 2, 0, work)
}

fn bad_ends(out: &mut [u8], at: usize, work: &mut [u8; 4104]) -> usize
    requires { at + 150 ≤ length out.old }
    ensures { result ≤ at + 150 }
{
    let one = b"\x04\x00\x00\x00\x00\x00\x40\x40";
    let a = show(out, at, b"ends not in order", one, 2, 2, 0, work);
    show(out, a, b"past the last instruction", one, 0, 4, 0, work)
}

fn all(out: &mut [u8], work: &mut [u8; 4104]) -> usize
    requires { 750 ≤ length out.old }
    ensures { result ≤ length out.new }
{
    let a = marked(out, work);
    let b = bad_arguments(out, a, work);
    let c = bad_blocks(out, b, work);
    bad_ends(out, c, work)
}

// What cut_moves_main::main does alike are the calls of `write_to` and `fail`: lengths, answers and words are its own.
fn main(rt: HostRuntime) -> io::Result<()> {
    let mut out = [0u8; 1024];
    let mut work = [0u8; 4104];
    let n = all(&mut out, &mut work);
    let mut sink = Noted::new(rt.stdout());
    if streams::write_to(&mut sink, &out[0..n]).is_err() {
        let what = "find_cut_main: the answers could not be written, and are cut";
        return streams::fail(&rt, what, sink.reason);
    }
    Ok(())
}
