// The lines of a register sheet, put into a lent buffer behind its first `at` bytes. Each function answers where the line ends.
// What stands in a line is taken as the words that the lent tables have of it.
// By hand: each contract names the bytes, as that of `write!` to a lent slice does not; a String would take the heap.
#![tactic(auto)]

ghost use Rattle.std.specs.Prelude.{◌≡◌, ◌+◌, ◌≤◌, ◌<◌, length, get_or};
ghost use Rattle.lines.specs.Wrote.{Wrote};
ghost use Rattle.register_sheet.specs.Typed.{use_length, use_numbers_line, vreg_head, vreg_tail, origin_end, vreg_line, seg_line, use_line, group_line, end_line, refused_line};

use definition::Origin;

#[tactic(auto, unfolding(crate::specs::Typed::vreg_head))]
fn vreg_head(out: &mut [u8], at: usize, n: u32, set: u32, class: u32, weight: u32) -> usize
    requires { at + 90 ≤ length out.old }
    ensures { Wrote (84) at out.old result out.new (vreg_head n set class weight) }
{
    let vals = [n, set, class];
    let a = lines::put_bytes(out, at, b"vreg");
    let b = lines::put_fields(out, a, &vals);
    lines::put_bits_field(out, b, weight)
}

fn vreg_tail(out: &mut [u8], at: usize, group: u32, index: u32, hint: u32) -> usize
    requires { at + 90 ≤ length out.old }
    ensures { Wrote (64) at out.old result out.new (vreg_tail group index hint) }
{
    let vals = [index, u32::from(hint == 1)];
    let a = lines::put_index(out, at, group);
    let b = lines::put_fields(out, a, &vals);
    lines::put_bytes(out, b, b"\n")
}

// A register: `group` is its group + 1, or 0 for none; the hint is fixed if it is 1.
pub fn put_vreg(
    out: &mut [u8],
    at: usize,
    n: u32,
    set: u32,
    class: u32,
    weight: u32,
    group: u32,
    index: u32,
    hint: u32,
) -> usize
    requires { at + 256 ≤ length out.old }
    ensures { Wrote (256) at out.old result out.new (vreg_line n set class weight group index hint) }
{
    let a = vreg_head(out, at, n, set, class, weight);
    vreg_tail(out, a, group, index, hint)
}

// The end of a piece's line.
fn put_origin(out: &mut [u8], at: usize, origin: u32) -> usize
    requires { at + 10 ≤ length out.old }
    ensures { Wrote (10) at out.old result out.new (origin_end origin) }
{
    if origin == Origin::Conflict as u32 {
        lines::put_bytes(out, at, b"\tconflict\n")
    } else {
        lines::put_bytes(out, at, b"\town\n")
    }
}

// A piece: its origin is the number of an Origin, own if it is none.
pub fn put_seg(
    out: &mut [u8],
    at: usize,
    value: u32,
    from: u32,
    to: u32,
    flags: u32,
    origin: u32,
) -> usize
    requires { at + 256 ≤ length out.old }
    ensures { Wrote (256) at out.old result out.new (seg_line value from to flags origin) }
{
    let vals = [value, from, to, flags % 16];
    let a = lines::put_bytes(out, at, b"seg");
    let b = lines::put_fields(out, a, &vals);
    put_origin(out, b, origin)
}

// By a use's kind. A list, as the contract's definition is one: a match would only spell it out.
const LENGTHS: [usize; 10] = [3, 3, 6, 2, 4, 4, 5, 5, 3, 2];

// How many numbers a use line has.
// The kind is the word that the lent row has: a UseKind would first be made of all words of the row.
#[tactic(auto, unfolding(crate::specs::Typed::use_length))]
pub fn use_length(kind: u32) -> usize
    requires { kind < 10 }
    ensures { (result ≡ use_length kind) × (result ≤ 6) }
{
    LENGTHS[kind as usize]
}

#[tactic(auto, unfolding(crate::specs::Typed::use_numbers_line))]
fn use_line(out: &mut [u8], at: usize, vals: &[u32]) -> usize
    requires { (at + 130 ≤ length out.old) × (length vals.now ≤ 6) }
    ensures { Wrote (130) at out.old result out.new (use_numbers_line vals.now) }
{
    let a = lines::put_bytes(out, at, b"use");
    let b = lines::put_fields(out, a, vals);
    lines::put_bytes(out, b, b"\n")
}

// A use: a row of kind, instruction and fields, of which the kind's are written.
pub fn put_use(out: &mut [u8], at: usize, row: &[u32]) -> usize
    requires { (at + 256 ≤ length out.old) × (length row.now ≡ 6) × (get_or row.now 0 0 < 10) }
    ensures { Wrote (256) at out.old result out.new (use_line row.now) }
{
    let k = use_length(row[0]);
    use_line(out, at, &row[..k])
}

// A group: each member is its register + 1, or 0 for an empty place.
pub fn put_group(out: &mut [u8], at: usize, n: u32, members: &[u32]) -> usize
    requires { (at + 256 ≤ length out.old) × (length members.now ≤ 8) }
    ensures { Wrote (256) at out.old result out.new (group_line n members.now) }
{
    let a = lines::put_bytes(out, at, b"group");
    let b = lines::put_field(out, a, n);
    let c = lines::put_indices(out, b, members);
    lines::put_bytes(out, c, b"\n")
}

// The end of a sheet.
pub fn put_end(out: &mut [u8], at: usize, registers: u32, groups: u32) -> usize
    requires { at + 256 ≤ length out.old }
    ensures { Wrote (256) at out.old result out.new (end_line registers groups) }
{
    let vals = [registers, groups];
    let a = lines::put_bytes(out, at, b"end");
    let b = lines::put_fields(out, a, &vals);
    lines::put_bytes(out, b, b"\n")
}

// A refusal's number.
pub fn put_refused(out: &mut [u8], at: usize, n: u32) -> usize
    requires { at + 256 ≤ length out.old }
    ensures { Wrote (256) at out.old result out.new (refused_line n) }
{
    let a = lines::put_bytes(out, at, b"refused");
    let b = lines::put_field(out, a, n);
    lines::put_bytes(out, b, b"\n")
}
