// Replays the stored answers on standard input: answers each sheet anew and compares, byte for byte. What fails is said on standard error.
#![tactic(auto)]

use std::io;
use std::io::{Read, Write};
use streams::{Broken, Noted, STDIN, STDOUT, Stream};
use vregs_answer::Space;

// From a reader to a writer. The streams are descriptors, so the tape, the bytes that it gives and the paper, of one each, are looked at by nobody.
// The five lines that make them stand in vregs and convert::run too: a type of all five would be longer to state.
fn replay_input<R: Read, W: Write>(
    sheet: &mut [u8; 262144],
    answer: &mut [u8; 524288],
    space: &mut Space,
    source: &mut R,
    sink: &mut W,
) -> Result<(), Broken> {
    let tape = [0usize; 1];
    let given = [0u8; 1];
    let mut paper = [0u8; 1];
    let mut input = Stream::Descriptor(STDIN);
    let mut output = Stream::Descriptor(STDOUT);
    vregs_answer::report::replay(
        &mut input,
        &tape,
        &given,
        &mut output,
        &tape,
        &mut paper,
        sheet,
        answer,
        space,
        source,
        sink,
    )
}

fn main(rt: HostRuntime) -> io::Result<()> {
    let mut source = Noted::new(rt.stdin());
    let mut sink = Noted::new(rt.stdout());
    let mut sheet = [0u8; 262144];
    let mut answer = [0u8; 524288];
    let mut buf = [0u8; 65536];
    let mut table = [0u8; 174680];
    let mut written = [0u8; 6144];
    let mut out = [0u8; 460800];
    let mut work = [0u8; 110600];
    let mut space = Space {
        buf: &mut buf,
        table: &mut table,
        written: &mut written,
        out: &mut out,
        work: &mut work,
    };
    let end = replay_input(&mut sheet, &mut answer, &mut space, &mut source, &mut sink);
    let unread = "the stored answers could not be read, and the report is cut";
    let unwritten = "the report could not be written, and is cut";
    streams::tell(
        &rt,
        "replay",
        end,
        (unread, source.reason),
        (unwritten, sink.reason),
    )
}
