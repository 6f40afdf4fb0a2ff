// Text put into a lent buffer, behind the first `at` bytes of it. Each function answers where the text ends.
// By hand: each contract names the bytes, as that of `write!` to a lent slice does not; a String would take the heap.
#![tactic(auto)]

ghost use Rattle.std.specs.Prelude.{[], ◌∷◌, ◌+◌, ◌*◌, ◌≤◌, ◌<◌, length};
ghost use Rattle.definition.specs.Text.{decimal, eight_digits};
ghost use Rattle.lines.specs.Wrote.{Wrote, fields_text, index_text, index_fields};

pub mod job;

// Text in the first n bytes of a buffer, and the cursor behind it.
#[derive(Clone, Copy)]
pub struct Page<C> {
    pub cur: C,
    pub n: usize,
}

// The bytes of s.
pub fn put_bytes(out: &mut [u8], at: usize, s: &[u8]) -> usize
    requires { at + length s.now ≤ length out.old }
    ensures { Wrote (length s.now) at out.old result out.new s.now }
{
    let end = at + s.len();
    out[at..end].copy_from_slice(s);
    end
}

// A number.
pub fn put_number(out: &mut [u8], at: usize, v: u32) -> usize
    requires { at + 20 ≤ length out.old }
    ensures { Wrote (20) at out.old result out.new (decimal v) }
{
    let mut text = [0u8; 20];
    let k = io::decimal(u64::from(v), &mut text);
    put_bytes(out, at, &text[..k])
}

// Eight hexadecimal digits. One function with put_number, over a closure for the writer, would be longer to state.
pub fn put_bits(out: &mut [u8], at: usize, v: u32) -> usize
    requires { at + 16 ≤ length out.old }
    ensures { Wrote (16) at out.old result out.new (eight_digits v) }
{
    let mut text = [0u8; 16];
    let k = io::hex(u64::from(v), 8, &mut text);
    put_bytes(out, at, &text[..k])
}

fn put_tab(out: &mut [u8], at: usize) -> usize
    requires { at + 1 ≤ length out.old }
    ensures { Wrote (1) at out.old result out.new (9 ∷ []) }
{
    out[at] = 9;
    at + 1
}

// A tab and a number.
// Room behind `at` is a clause, here and in all that writes lines, and no type: each call leaves less of it.
pub fn put_field(out: &mut [u8], at: usize, v: u32) -> usize
    requires { at + 21 ≤ length out.old }
    ensures { Wrote (21) at out.old result out.new (9 ∷ decimal v) }
{
    let a = put_tab(out, at);
    put_number(out, a, v)
}

// A tab and eight hexadecimal digits. One with put_field, over a closure for the writer, would be longer to state.
pub fn put_bits_field(out: &mut [u8], at: usize, v: u32) -> usize
    requires { at + 17 ≤ length out.old }
    ensures { Wrote (17) at out.old result out.new (9 ∷ eight_digits v) }
{
    let a = put_tab(out, at);
    put_bits(out, a, v)
}

// A tab and an index: 0 is none, and 1 stands for 0.
pub fn put_index(out: &mut [u8], at: usize, w: u32) -> usize
    requires { at + 21 ≤ length out.old }
    ensures { Wrote (21) at out.old result out.new (9 ∷ index_text w) }
{
    match w.checked_sub(1) {
        None => put_bytes(out, at, b"\t-"),
        Some(v) => put_field(out, at, v),
    }
}

// A tab before each number.
#[tactic(auto, unfolding(crate::specs::Wrote::fields_text))]
pub fn put_fields(out: &mut [u8], at: usize, vals: &[u32]) -> usize
    requires { at + length vals.now * 21 ≤ length out.old }
    ensures { Wrote (length vals.now * 21) at out.old result out.new (fields_text vals.now) }
{
    let mut a = at;
    for v in vals {
        a = put_field(out, a, *v);
    }
    a
}

// A tab before each index. A loop for both of them, over a closure, would carry the closure's contract: longer than this.
#[tactic(auto, unfolding(crate::specs::Wrote::index_fields))]
pub fn put_indices(out: &mut [u8], at: usize, vals: &[u32]) -> usize
    requires { at + length vals.now * 21 ≤ length out.old }
    ensures { Wrote (length vals.now * 21) at out.old result out.new (index_fields vals.now) }
{
    let mut a = at;
    for v in vals {
        a = put_index(out, a, *v);
    }
    a
}
